//! What holds over all lives of a server: a law, as the contract of a function that does nothing.
ghost use Rattle.server_threads.specs.Lives.{AllLives, AskedAgain, CopyLeaves, CrashLeaves, LivesKept, OpensAgain};

use disk::Disk;

/// Over all lives of a server, one after another, each on a store that was opened, by whichever cells, on what a crash at any moment of the
/// life before it left, or on a copy of that: nothing that a desk acknowledged, and that was heard of before the crash, is missing in any later
/// life, taken twice, or has another revision. Each of the last 16 numbers of a source that were taken is answered as a retry, with its revision,
/// when it is sent again. Each life is one of `serve_on` or of `serve_streams`. Before the first one may stand any store, one that was migrated
/// as well.
pub fn lives<D: Disk>()
    // Nothing is missing, taken twice, or has another revision, and the rule of acceptance answers what comes again as a retry: where a store is
    // opened, and at any moment of the life that begins there.
    ensures opened { LivesKept D ⟦<D as Disk>⟧ }
    ensures all { AllLives D ⟦<D as Disk>⟧ }
    // So does each desk of a later life, or refuses it, out of memory or since the store has failed.
    ensures again { AskedAgain D ⟦<D as Disk>⟧ }
    // What a crash leaves of a life is what the next one may begin with, and so is a copy of that. A store that is opened on either works.
    ensures crash { CrashLeaves D ⟦<D as Disk>⟧ }
    ensures copy { CopyLeaves D ⟦<D as Disk>⟧ }
    ensures opens { OpensAgain D ⟦<D as Disk>⟧ }
{}
