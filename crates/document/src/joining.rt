//! A delta that cuts one run of text and puts it together again.

use attributes::Attrs;
use delta::{Op, OpRef};

/// So many code units are few.
const FEW: u64 = 16;

/// Whether operations do nothing but retain, put a text of these attributes in at one place or none, and take few code units out
/// there: then the text of a run with these attributes that is cut there is put together again, but for those. It decides nothing
/// but how much room a text is given, so that the text doesn't grow while it is put together.
pub fn joins(ops: &[Op], attrs: &Attrs) -> bool {
    if ops.len() < 2 || ops.len() > 3 || ops[0].plain_len().is_none() {
        return false;
    }
    if ops.len() == 3 && !deletes_few(&ops[2]) {
        return false;
    }
    match ops[1].get() {
        OpRef::Text(_, own) => *own == *attrs,
        OpRef::Delete(len) => len <= FEW,
        _ => false,
    }
}

// whether an operation takes few code units out
fn deletes_few(op: &Op) -> bool {
    match op.get() {
        OpRef::Delete(len) => len <= FEW,
        _ => false,
    }
}
