//! Laws of what is printed of a store. Each is a function that does nothing: its contract is the law.
ghost use Rattle.std.specs.Prelude.{◌≡◌, ◌∷◌, [], codes};
ghost use Rattle.attributes.specs.Map.{empty};
ghost use Rattle.delta.specs.Operation.{insert_text};
ghost use Rattle.algebra.specs.Text.{text_of};
ghost use Rattle.server.specs.Dump as dump;

/// A document's line as it is written.
pub fn worked_dump()
    ensures { dump.line_of (codes "d") 1 0 (text_of (insert_text (codes "z") empty ∷ []))
        ≡ codes "d 1 0 {\"ops\":[{\"insert\":\"z\"}]}\n" }
{}
