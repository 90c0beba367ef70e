//! How a flusher and its board begin.
ghost use Rattle.std.specs.Prelude.{◌≡◌, ◌+◌, IfOk, IfErr};
ghost use Rattle.recovery.specs.Open.{state_of};
ghost use Rattle.flusher.specs.Standing.{HaveBegun};

use crate::begun::Begun;
use crate::flusher::Flusher;
use disk::Disk;
use hub::Board;
use published::{Life, Opened};
use recovery::Store;
use refusal::Refusal;
use std::alloc::Global;
use std::sync::ledger::Blank;
use view::Publisher;

/// Why a flusher could not begin. The store comes back.
#[derive(Drop)]
pub struct StartError<D: Disk> {
    pub store: Store<D>,
    pub refusal: Refusal,
}

/// The flusher of a store, and the board of its commands with so many seats to give. The run's name has the logs, the ledger and the
/// state that the store holds. Refused out of memory alone.
pub fn start<D: Disk, L: Life>(
    alloc: Global,
    store: Store<D>,
    opened: Opened,
    blank: Blank,
    seats: u32,
) -> Result<(Flusher<D, L>, Board<D, L>), StartError<D>>
    requires book { opened ≡ L.book }
    requires name { blank.name ≡ L.name }
    requires parts { blank.parts ≡ L.parts }
    requires seats { blank.parts ≡ seats + 1 }
    requires begin { state_of store ≡ L.start }
    ensures begun { IfOk result (λ both. HaveBegun L.start store seats both.0 both.1) }
    ensures refused { IfErr result (λ fault. (fault.store ≡ store) × (fault.refusal ≡ Refusal.NoMemory)) }
{
    let begun = Begun::<L>::of(store.state());
    match store.state().copy(alloc) {
        Err(no_memory) => {
            let (_log, _told, _order) = opened.named::<D, L>();
            Err(StartError {
                store,
                refusal: no_memory.into(),
            })
        }
        Ok(state) => match Publisher::new(alloc, opened, store.state()) {
            Err(no_memory) => Err(StartError {
                store,
                refusal: no_memory.into(),
            }),
            Ok(made) => {
                let (publisher, told, order) = made;
                let board = Board::new(alloc, &store, state, told, order, blank, seats);
                let flusher = Flusher::of(store, publisher, begun);
                Ok((flusher, board))
            }
        },
    }
}
