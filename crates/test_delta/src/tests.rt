//! What rows of JSON can't say: lengths of 2^32 and more, long deltas, operations one by one, copies, and chunks.
mod bounds;
mod chunks;
mod long;
mod parts;
