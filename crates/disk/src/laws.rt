//! What follows from the definitions of a device, as contracts of functions that do nothing. The laws stand in
//! specs/Laws.antt, and the proofs of the layers above cite them as proofs/CallerLemmas.antt has them.
ghost use Rattle.std.specs.Prelude.{List, ℕ};
ghost use Rattle.disk.specs.Laws as law;

/// A property of the contents of a device.
pub trait Property {
    ghost holds: { List ℕ → Type 0 };
}

/// What a read gives is one of the contents that a crash may leave, and where no range is unsynced the only one.
pub fn crash_at_rest()
    ensures seen { law.SeenMayBeLeft }
    ensures only { law.SyncedLeaves }
{}

/// After a write a crash may leave just what it might have left before, with any bytes in the range of the write.
pub fn crash_after_write()
    ensures { law.LeftByWrite }
{}

/// After a list of writes to a synced device a crash leaves what stood before them, with any bytes in each of their ranges, and what it leaves
/// in one range doesn't depend on any other.
pub fn crash_after_writes()
    ensures writes { law.LeftByWrites }
    ensures mixed { law.LeftMixed }
{}

/// In a range apart from those that aren't synced a crash leaves what a read gives, and writes elsewhere change nothing of that.
pub fn writes_apart()
    ensures left { law.LeftApart }
    ensures synced { law.ApartSynced }
    ensures still { law.ApartStill }
    ensures bytes { law.SameElsewhere }
{}

/// What a write and a sync cost, good or not.
pub fn costs()
    ensures write { law.CostsWrite }
    ensures sync { law.CostsSync }
{}

/// What stands where after bytes were put over others.
pub fn bytes_after_write()
    ensures length { law.LengthOverwritten }
    ensures before { law.TakeOverwritten }
    ensures from { law.DropOverwritten }
    ensures among { law.ByteOverwritten }
    ensures outside { law.OverwrittenSameOutside }
{}

/// Contents that are the same outside a range.
pub fn same_outside()
    ensures places { law.SameAt }
    ensures wider { law.SameOutsideWider }
    ensures then { law.SameOutsideThen }
{}

/// How a promise for a run begins.
pub fn run_begins<P: Property>()
    ensures synced { law.Begins P.holds }
    ensures anywhere { law.BeginsAnywhere P.holds }
{}

/// How a promise for a run continues over a call, good or not, and over another run.
pub fn run_goes_on<P: Property>()
    ensures write { law.GoesOnWrite P.holds }
    ensures first_write { law.GoesOnFirstWrite P.holds }
    ensures sync { law.GoesOnSync P.holds }
    ensures run { law.GoesOnRun P.holds }
{}

/// A promise for a run with a property is one with each property that follows from it.
pub fn run_implies<P: Property, Q: Property>()
    ensures { law.LeavesMap P.holds Q.holds }
{}

/// A promise for a run is one by the clock: whatever a crash from its first moment on might have left has the property.
pub fn crash_since<P: Property>()
    ensures { law.LeavesSince P.holds }
{}
