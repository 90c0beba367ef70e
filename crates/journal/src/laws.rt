//! Laws of the spelling of deltas and batches, for the layers above. Each is a function that does nothing: its contract is the law.
ghost use Rattle.std.specs.Prelude.{◌≡◌, ◌<◌, ◌^◌, ℕ, ◌++◌, List, length};
ghost use Rattle.std.specs.Int.{w32, w64};
ghost use Rattle.revision.specs.Command.{Taken, width_of};
ghost use Rattle.journal.specs.Area.{HoldsBodies};
ghost use Rattle.journal.specs.BatchSpelling as spelling;
ghost use Rattle.journal.specs.Spelling as fields;
ghost use Rattle.delta.specs.Operation.{Operation};
ghost use Rattle.journal.specs.DeltaSpelling as deltas;
ghost use Rattle.revision.specs.Spellable.{IsSpellable};
ghost use Rattle.revision.specs.Width as wide;

/// Two batches whose spellings begin one list of bytes are equal, and so is what is behind them.
pub fn one_spelling()
    ensures { (a b : List Taken) (x y : List ℕ) → spelling.IsBatch a → spelling.IsBatch b
        → spelling.batch a ++ x ≡ spelling.batch b ++ y → (a ≡ b) × (x ≡ y) }
{}

/// The bytes of an area hold one list of bodies at most.
pub fn one_list()
    ensures { (a b : List (List ℕ)) (bytes : List ℕ) → HoldsBodies a bytes → HoldsBodies b bytes → a ≡ b }
{}

/// A command's spelling is as wide as the rule of acceptance counts it, and a batch's is four bytes wider than its commands.
pub fn batch_width()
    ensures entry { (taken : Taken) → length (spelling.entry taken) ≡ width_of taken }
    ensures batch { (batch : List Taken) → length (spelling.batch batch) ≡ spelling.batch_width batch }
{}

/// Two deltas whose spellings begin one list of bytes are equal, and so is what is behind them.
pub fn one_delta_spelling()
    ensures { (a b : List Operation) (x y : List ℕ) → IsSpellable a → IsSpellable b
        → deltas.delta a ++ x ≡ deltas.delta b ++ y → (a ≡ b) × (x ≡ y) }
{}

/// A delta's spelling is as long as the delta is wide.
pub fn delta_width()
    ensures { (operations : List Operation) → length (deltas.delta operations) ≡ wide.delta_width operations }
{}

/// Two texts of less than 2^16 bytes whose spellings begin one list of bytes are equal, and so is what is behind them.
pub fn one_text_spelling()
    ensures { (a b x y : List ℕ) → length a < 2 ^ 16 → length b < 2 ^ 16 → fields.text16 a ++ x ≡ fields.text16 b ++ y
        → (a ≡ b) × (x ≡ y) }
{}

/// And so are two numbers of four bytes, and two of eight.
pub fn one_number_spelling()
    ensures four { (m n : ℕ) (x y : List ℕ) → m < 2 ^ 32 → n < 2 ^ 32
        → fields.number w32 m ++ x ≡ fields.number w32 n ++ y → (m ≡ n) × (x ≡ y) }
    ensures eight { (m n : ℕ) (x y : List ℕ) → m < 2 ^ 64 → n < 2 ^ 64
        → fields.number w64 m ++ x ≡ fields.number w64 n ++ y → (m ≡ n) × (x ≡ y) }
{}
