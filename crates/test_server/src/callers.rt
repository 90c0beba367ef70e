//! The callers that stand at the head of `lib.rt` of refusal, words and serving.
ghost use Rattle.std.specs.Prelude.{◌≡◌, ◌≤◌, ◌<◌, ◌⊎◌, ◌++◌, ◌∷◌, [], Err, false, length, IfOk, IfErr, OnOk};
ghost use Rattle.std.specs.String.{string_bytes};
ghost use Rattle.std.specs.Io.KnownBytes.{IsAtEnd};

use refusal::Refusal;
use serving::{Input, ServingError, serve_session};
use session::{Desk, Output, Session, Shelf};
use std::alloc::Global;
use std::sync::Wait;
use words::Invocation;

/// The text with a line end, refused where it is too long for a line.
pub fn line_of(alloc: Global, text: &str) -> Result<String, Refusal>
    ensures ok { IfOk result (λ line. string_bytes line ≡ text.now ++ 10 ∷ []) }
    ensures short { IfOk result (λ _. length text.now ≤ 65536) }
    ensures too_long { result ≡ Err Refusal.LineTooLong → 65536 < length text.now }
    ensures only { IfErr result (λ e. (e ≡ Refusal.LineTooLong) ⊎ (e ≡ Refusal.NoMemory)) }
{
    if text.len() > 65_536 {
        return Err(Refusal::LineTooLong);
    }
    let mut line = String::from_str(alloc, text)?;
    line.push('\n')?;
    Ok(line)
}

/// The file that the words name. A command on deltas has none.
pub fn file_in<'a>(alloc: Global, words: &'a [&'a str]) -> Result<Option<&'a str>, clap::Error> {
    Ok(match Invocation::parse(alloc, words)? {
        Invocation::Format { path, .. } => Some(path),
        Invocation::Serve { path, .. } | Invocation::Dump { path, older: _ } => Some(path),
        Invocation::Info { path, documents: _ } | Invocation::Check { path } => Some(path),
        Invocation::Migrate { old, .. } | Invocation::Copy { old, .. } => Some(old),
        Invocation::Delta(_) => None,
    })
}

/// Serves a whole session, from its beginning to the end of the input. Then all that was written is sent on.
pub fn serve_whole<R: Wait, K: Desk, I: Input, O: Output>(
    rt: &R,
    alloc: Global,
    desk: &mut K,
    input: &mut I,
    output: &mut O,
) -> Result<(), ServingError>
    ensures at_end { OnOk result (IsAtEnd (I.remaining input.new)) }
    ensures sent { OnOk result (O.has_failed output.new ≡ false) }
{
    let mut session = Session::new(alloc)?;
    let mut shelf = Shelf::new(alloc)?;
    serve_session(rt, alloc, &mut session, desk, &mut shelf, input, output)
}
