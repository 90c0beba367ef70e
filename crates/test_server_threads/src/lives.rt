//! A caller of the law over all lives of a server, which `lib.rt` of server_threads names.
ghost use Rattle.std.specs.Prelude.{◌≡◌, ℕ, true, false, List, Ok};
ghost use Rattle.disk.specs.Crash.{history_of};
ghost use Rattle.recovery.specs.Open.{IsOpen, device_of, has_failed, state_of};
ghost use Rattle.recovery.specs.declared.store.Store.{Store};
ghost use Rattle.session.specs.declared.reply.Reply.{Reply};
ghost use Rattle.session.specs.declared.reply.Reply.TheVariants.{Again};
ghost use Rattle.sockets.specs.declared.raw.Visit.{Visit};
ghost use Rattle.server_threads.specs.Connections.{EachHasServed};
ghost use Rattle.server_threads.specs.Lives.{Acknowledged, HasAnswered, IsLeftFrom, IsOpenedOn, WasHeard, lived};
ghost use Rattle.server_threads.specs.Served.{WasServed};

use disk::Disk;
use server_threads::laws;

/// A peer of a server heard an acknowledgement before a crash. A store was opened on what the crash left, by whichever cells, and was served. No
/// desk takes the command again there: one that acknowledges it names it as a retry, with the revision of the first life.
pub fn heard_before_a_crash<D: Disk>()
    ensures { (old after next last : Store D ⟦<D as Disk>⟧) (visits others : List (List Visit)) (one : WasServed (EachHasServed (state_of old) visits) true old after)
        (two : WasServed (EachHasServed (state_of next) others) true next last) (content : List ℕ) (ack : Acknowledged) (reply : Reply)
        → has_failed old ≡ false → IsOpen old → IsLeftFrom (history_of ⟦<D as Disk>⟧ (device_of old)) after content → WasHeard old after (lived one) content ack
        → IsOpenedOn content next → HasAnswered (state_of next) two.desks ack.command (Ok reply)
        → reply ≡ Again ack.revision }
{
    laws::lives::<D>();
}
