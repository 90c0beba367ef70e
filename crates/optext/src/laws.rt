//! What holds of operations and their JSON, as contracts to cite: each function promises one law.
ghost use Rattle.std.specs.Prelude.{◌≡◌, false, List};
ghost use Rattle.delta.specs.Operation.{Operation};
ghost use Rattle.serde_json.specs.Data.{array};
ghost use Rattle.serde_json.specs.Written.{has_float};
ghost use Rattle.optext.specs.Printed.{printed};
ghost use Rattle.optext.specs.Laws.{OperationReadsBack, DeltaReadsBack};

/// An operation that a message can spell, printed, describes itself.
pub fn operation_reads_back()
    ensures { OperationReadsBack }
{
    attributes::laws::entries_make_map();
}

/// A delta of at most 1,024 such operations, printed, is read as itself.
pub fn delta_reads_back()
    ensures { DeltaReadsBack }
{
    attributes::laws::entries_make_map();
    delta::laws::normal_is_kept();
}

/// In what prints a delta no number is a float.
pub fn printed_without_floats()
    ensures { (ops : List Operation) → has_float (array (printed ops)) ≡ false }
{}
