//! Commands that were sent ahead of their answers.
use crate::reply::Reply;
use refusal::Refusal;
use revision::Command;

/// A command that was sent ahead, and its answer.
#[derive(Drop)]
pub struct Sent {
    pub command: Command,
    /// What the desk answered to it. Before it was asked this says nothing.
    pub answer: Result<Reply, Refusal>,
}
