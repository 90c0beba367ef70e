//! A delta that does nothing but put a text behind a document.
ghost use Rattle.std.specs.Prelude.{◌≡◌, length, IfSome};
ghost use Rattle.utf16.specs.Units.{units_of};
ghost use Rattle.document.specs.steps.Passes.{PutsBehind, IsBehind};

use attributes::Attrs;
use delta::{Op, OpRef};

/// The text that operations put behind all that they retain, with its number of code units and its attributes; none where they
/// do anything else.
pub fn text_behind(ops: &[Op]) -> Option<(&str, u64, &Attrs)>
    ensures text { IfSome result (λ t. PutsBehind ops.now (units_of t.0.now) t.2.now) }
    ensures counted { IfSome result (λ t. t.1 ≡ length (units_of t.0.now)) }
{
    let last = last_behind(ops)?;
    match last.get() {
        OpRef::Text(text, attrs) => Some((text, last.len16(), attrs)),
        _ => None,
    }
}

// the last of operations, where the others only retain
fn last_behind(ops: &[Op]) -> Option<&Op>
    ensures { IfSome result (λ op. IsBehind ops.now op.now) }
{
    if ops.len() == 1 {
        return Some(&ops[0]);
    }
    if ops.len() == 2 && ops[0].plain_len().is_some() {
        return Some(&ops[1]);
    }
    None
}
