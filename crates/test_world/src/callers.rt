//! The caller that opens `lib.rt` of world.
ghost use Rattle.std.specs.Prelude.{IfOk};
ghost use Rattle.world.specs.Law.{AcksStay, TakenOnce};

use refusal::Refusal;
use revision::Limits;
use std::alloc::Global;
use world::{Event, World, laws};

/// A world after these events, whichever they are: no acknowledged edit is missing of it, and none is taken twice.
pub fn lived(alloc: Global, limits: Limits, events: &[Event]) -> Result<World, Refusal>
    ensures stay { IfOk result (λ world. AcksStay world) }
    ensures once { IfOk result (λ world. TakenOnce world) }
{
    laws::every_schedule();
    let mut world = World::new(alloc, limits);
    for event in events {
        world.step(alloc, *event)?;
    }
    Ok(world)
}
