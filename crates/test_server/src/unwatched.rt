use refusal::Refusal;
use server_threads::Watch;
use std::io;

/// A watch that hears nothing.
#[derive(Drop)]
pub struct Nobody;

impl<D> Watch<D> for Nobody {
    fn begun(&self, _sessions: usize, _seats: usize) -> bool {
        true
    }

    fn listener_failed(&self, _reason: io::Error) {}

    fn store_failed(&self, _why: Refusal, _device: &D) {}
}
