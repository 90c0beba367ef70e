//! The commands on deltas: what a task comes to, as a line.
ghost use Rattle.std.specs.Prelude.{◌≡◌, ◌≢◌, ◌⊎◌, ◌++◌, ◌∷◌, [], List, true, Ok, Err, IfErr, IsErrOf, OnOk};
ghost use Rattle.std.specs.Io.KnownBytes.{Appends};
ghost use Rattle.delta.specs.Operation.{Operation};
ghost use Rattle.algebra.specs.Tasks.{ComesTo};
ghost use Rattle.algebra.specs.Text.{text_of};
ghost use Rattle.session.specs.Output.{AppendsFront};
ghost use Rattle.server.specs.Deltas.{EndsWith};

use algebra::Task;
use serving::ServingError;
use session::Output;
use std::alloc::Global;

/// Writes the line of what the task comes to. Ends with the refusal that it comes to or with `NoMemory`, and then nothing
/// is written, or where a write fails (`Stream`), and then a prefix of that line is written.
pub fn print_answer<O: Output>(
    alloc: Global,
    task: Task<'_>,
    output: &mut O,
) -> Result<(), ServingError>
    ensures printed { OnOk result ((made : List Operation) × ComesTo task.entry (Ok made)
        × Appends (O.contents output.old) (O.contents output.new) (text_of made ++ 10 ∷ [])) }
    ensures ends { IfErr result (EndsWith task.entry) }
    ensures silent { IfErr result (λ e. e ≢ ServingError.Stream → output.new ≡ output.old) }
    ensures stopped { IsErrOf result ServingError.Stream → (made : List Operation) × ComesTo task.entry (Ok made)
        × AppendsFront (O.contents output.old) (O.contents output.new) (text_of made ++ 10 ∷ []) }
    // It is the output that fails.
    ensures cause { IsErrOf result ServingError.Stream → O.has_failed output.new ≡ true }
{
    let line = task.line(alloc)?;
    output.put(line.as_bytes())?;
    output.flush()?;
    Ok(())
}
