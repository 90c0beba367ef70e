//! Batches: the commands that were taken together, as the journal spells them.
//!
//! Each batch has one spelling. `encode_batch` writes it, and `decode_batch` finds the batch of a spelling, or that
//! there is none.

mod fields;
mod read_error;
mod reading;
mod writing;

pub use fields::{
    read_number32, read_number64, read_text16, write_number32, write_number64, write_text16,
};
pub use reading::{decode_batch, read_delta};
pub(crate) use writing::put_batch;
pub use writing::{batch_len, encode_batch, write_delta};
