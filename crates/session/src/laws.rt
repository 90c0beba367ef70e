//! Laws of what comes of a session's input. Each is a function that does nothing: its contract is the law.
ghost use Rattle.std.specs.Prelude.{◌≡◌, Bool, ◌≤◌, ◌<◌, ◌-◌, ◌++◌, ◌∷◌, ℕ, List, [], Option, Some, true, length, take, codes};
ghost use Rattle.refusal.specs.declared.Refusal.TheVariants.{LineTooLong, Exists};
ghost use Rattle.session.specs.declared.reply.Reply.TheVariants.{Taken, Again};
ghost use Rattle.session.specs.Reply.{greeting, acknowledgement, printed_delta, document_with, since_reply, subscribed_reply, unsubscribed_reply, news_line, ended_line, line_of, refusal_line};
ghost use Rattle.attributes.specs.Map.{empty, insert};
ghost use Rattle.attributes.specs.Scalar.{flag_scalar};
ghost use Rattle.delta.specs.Operation.{insert_text, retain};
ghost use Rattle.session.specs.Line.{HasNoEnd};
ghost use Rattle.session.specs.Session.{Session};
ghost use Rattle.session.specs.Exchange.{Exchange};
ghost use Rattle.revision.specs.State.{State};
ghost use Rattle.session.specs.Replies.{Replies, IsReplied, IsLine, Asks, Feeds};
ghost use Rattle.session.specs.News.{news, subscriptions_after, lines_after};
ghost use Rattle.session.specs.Subscriptions.{Subscriptions};
ghost use Rattle.session.specs.Calls.{Call, Calls, Passes, call_of};
ghost use Rattle.revision.specs.Past.{Past, newest, deltas_above};
ghost use Rattle.session.specs.Alone.{Alone, FedAlone, HearsAlone, FindsMemory, transcript, after_calls, of_session};
ghost use Rattle.session.specs.Shelf.{FitsLater};
ghost use Rattle.session.specs.Laws as law;

use crate::desk::Desk;

/// It doesn't matter in which pieces the input comes: what comes of two pieces, one after the other, is what comes of
/// them joined.
pub fn pieces_joined()
    ensures joined { (front back : List ℕ) (old mid new : Session) (a b : List Exchange) (t u : List ℕ)
        → Replies old front a mid t → Replies mid back b new u → Replies old (front ++ back) (a ++ b) new (t ++ u) }
    ensures parted { (front back : List ℕ) (old new : Session) (asked : List Exchange) (text : List ℕ)
        → Replies old (front ++ back) asked new text
        → (mid : Session) × (a : List Exchange) × (b : List Exchange) × (t : List ℕ) × (u : List ℕ)
        × Replies old front a mid t × Replies mid back b new u × (asked ≡ a ++ b) × (text ≡ t ++ u) }
{}

/// A line of at most 65,536 bytes gets one reply, at its end: the one that its bytes ask for. Then the next line begins.
pub fn whole_line()
    ensures { (line : List ℕ) (old new : Session) (asked : List Exchange) (text : List ℕ)
        → old.line ≡ Some [] → HasNoEnd line → length line ≤ 65536 → Replies old (line ++ 10 ∷ []) asked new text
        → (new ≡ record old { line = Some []; peer = new.peer }) × IsReplied old.peer line asked new.peer text }
{}

/// A longer line gets the one reply `LineTooLong`. Nothing is asked, and the session is the one before the line.
pub fn long_line()
    ensures { (line : List ℕ) (old new : Session) (asked : List Exchange) (text : List ℕ)
        → old.line ≡ Some [] → HasNoEnd line → 65536 < length line → Replies old (line ++ 10 ∷ []) asked new text
        → (asked ≡ []) × (new ≡ old) × IsLine (refusal_line LineTooLong) text }
{}

/// Lines as they are written: the replies to hello and to a creation, a document, deltas, subscriptions, news, and a refusal.
pub fn worked_lines()
    ensures hello { line_of greeting ≡ codes "{\"ok\":\"hello\"}\n" }
    ensures taken { line_of (acknowledgement (codes "d") 1 (Taken 1))
        ≡ codes "{\"doc\":\"d\",\"n\":1,\"ok\":\"taken\",\"rev\":1}\n" }
    ensures again { line_of (acknowledgement (codes "d") 1 (Again 1))
        ≡ codes "{\"doc\":\"d\",\"n\":1,\"ok\":\"again\",\"rev\":1}\n" }
    ensures fetched { line_of (document_with (codes "d")
        (printed_delta (insert_text (codes "Hi") empty
        ∷ insert_text (codes "!") (insert empty (codes "bold") (flag_scalar true)) ∷ [])) 2)
        ≡ codes "{\"doc\":\"d\",\"ok\":\"doc\",\"ops\":[{\"insert\":\"Hi\"},"
        ++ codes "{\"attributes\":{\"bold\":true},\"insert\":\"!\"}],\"rev\":2}\n" }
    ensures since { line_of (since_reply (codes "d") ((retain 1 empty ∷ insert_text (codes "x") empty ∷ []) ∷ []) 2)
        ≡ codes "{\"deltas\":[[{\"retain\":1},{\"insert\":\"x\"}]],\"doc\":\"d\",\"ok\":\"since\",\"rev\":2}\n" }
    ensures subscribed { line_of (subscribed_reply (codes "d") 0)
        ≡ codes "{\"doc\":\"d\",\"ok\":\"subscribed\",\"rev\":0}\n" }
    ensures unsubscribed { line_of (unsubscribed_reply (codes "d"))
        ≡ codes "{\"doc\":\"d\",\"ok\":\"unsubscribed\"}\n" }
    ensures told { news_line (codes "d") 1 (insert_text (codes "Hi") empty ∷ [])
        ≡ codes "{\"doc\":\"d\",\"news\":1,\"ops\":[{\"insert\":\"Hi\"}]}\n" }
    ensures ended { ended_line (codes "d") ≡ codes "{\"doc\":\"d\",\"ended\":13}\n" }
    ensures exists { refusal_line Exists ≡ codes "{\"code\":7,\"error\":\"Exists\"}\n" }
{}

/// A session over a state alone: where memory is found, what is written of a piece of the input is what the lines in it are
/// replied, each over what the lines before it did (`specs/Alone.antt`), and so is the state afterwards.
pub fn replies_of_a_state()
    ensures { (old new : Session) (state after : State) (piece : List ℕ) (out out' : Option (List ℕ))
        → Feeds Alone old piece new state after out out'
        → FedAlone (of_session old state) piece (of_session new after) out out' }
{}

/// The news of a session over a state alone: where they were told they are written, and else nothing is.
pub fn news_of_a_state()
    ensures { (old new : Session) (state after : State) (told : Bool) (out out' : Option (List ℕ))
        → Passes Alone old (call_of told) new state after out out'
        → HearsAlone told (of_session old state) (of_session new after) out out' }
{}

/// Whatever a session over a state alone is called for, one call after another: where memory is found for its replies, what is
/// written is the replies to the input so far, and the news where they were told.
pub fn calls_of_a_state()
    ensures { (old new : Session) (state after : State) (calls : List Call) (asked : List Exchange) (text : List ℕ)
        → Calls old calls asked new text → Asks Alone state asked after → FindsMemory text
        → (text ≡ transcript (of_session old state) calls)
        × (of_session new after ≡ after_calls (of_session old state) calls) }
{}

/// Each revision is told once, in order. Of the state that was told there is nothing more to tell. And what is told of a document at
/// one moment and then at a later one, whose past holds the same deltas and more, is what would have been told at once.
pub fn told_once()
    ensures nothing_more { (subscriptions : Subscriptions) (state : State)
        → (news (subscriptions_after subscriptions state) state ≡ [])
        × (subscriptions_after (subscriptions_after subscriptions state) state
        ≡ subscriptions_after subscriptions state) }
    ensures one_after_another { (doc : List ℕ) (last : ℕ) (past later : Past)
        → past.floor ≤ last → last ≤ newest past → later.floor ≤ last → newest past ≤ newest later
        → take (newest past - last) (deltas_above later last) ≡ deltas_above past last
        → lines_after doc last past ++ lines_after doc (newest past) later ≡ lines_after doc last later }
{}

/// Documents at older revisions that are right for a state are right for each state that comes after it.
pub fn kept_documents_stay()
    ensures { FitsLater }
{}

/// What comes of calls of a session, one after another, and what they write.
pub fn calls_joined()
    ensures one { law.CallsOfOne }
    ensures more { law.CallsJoined }
    ensures written { law.WritesJoined }
{}

/// What is asked of a desk, one exchange after another, also for commands that were sent ahead.
pub fn asked_joined<D: Desk>()
    ensures more { law.AsksJoined D.does }
    ensures sent_ahead { law.OneMoreAsked D.does }
{}

/// A state that took a command where a call succeeded, and else stayed unchanged, is later than it was.
pub fn later_by<A, E>()
    ensures { law.LaterBy A E }
{}
