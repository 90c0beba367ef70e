//! What holds of batches, for the crates above: laws, as contracts of functions that do nothing.
ghost use Rattle.flusher.specs.Laws as law;

/// A batch of as many bytes as a flusher's cap fits a slot.
pub fn cap_fits_slot()
    ensures { law.CapFitsSlot }
{}

/// What holds of the prefix of batches that a content represents, as fewer are asked for, as more come, and while some are written.
pub fn first_batches()
    ensures commands { law.CommandsJoined }
    ensures fewer { law.FewerAtLeast }
    ensures more { law.MoreBatches }
    ensures during_write { law.WithinWrite }
{}
