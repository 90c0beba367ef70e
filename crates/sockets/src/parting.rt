//! Why a conversation ends.
use std::sync::OnceToken;

/// Why a conversation with a peer ended.
#[derive(Drop)]
pub enum Parting<'h> {
    /// The peer sends nothing more.
    Ended,
    /// A read failed.
    ReadFailed,
    /// A write failed.
    WriteFailed,
    /// The peer took no byte of what was written to it.
    Slow,
    /// The peer was idle.
    Idle,
    /// The hall ended, which the token shows.
    Over(OnceToken<'h, ()>),
    /// There was no memory for the session, and nothing was read or written.
    NoMemory,
}
