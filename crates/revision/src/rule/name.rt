//! Names of documents and of sources.
ghost use Rattle.std.specs.Prelude.{◌≡◌, ◌⊎◌, ◌↔◌, ◌≤◌, true, false, length, IfOk, IfErr, IsErrOf};
ghost use Rattle.std.specs.List.{list_all};
ghost use Rattle.revision.specs.Name.{is_name_byte, is_name, is_document_name, is_source_name};

use refusal::Refusal;
use std::alloc::{AllocError, Global};
use std::marker::Model;
use std::sync::ArcStr;

/// A name of 1 to 64 characters of `A-Z a-z 0-9 . _ -`, seen as its bytes. Its copies share one text.
#[derive(Debug, Drop)]
pub struct Name {
    text: ArcStr,
}

impl Model for Name {
    ghost use Rattle.std.specs.Prelude.{◌≡◌, List, ℕ, true};
    ghost use Rattle.std.specs.Arc.{arc_str_bytes};
    ghost use Rattle.revision.specs.Name.{is_document_name};

    ghost Value = { List ℕ };

    ghost view = { λ n. arc_str_bytes n.text };

    ghost invariant = { λ n. is_document_name (arc_str_bytes n.text) ≡ true };
}

impl Name {
    /// The name of a document: 1 to 64 characters. Refused with `BadName` where the text is none, or with `NoMemory`.
    pub fn doc(alloc: Global, text: &str) -> Result<Name, Refusal>
        ensures ok { IfOk result (λ name. (name ≡ text.now) × (is_document_name name ≡ true)) }
        ensures bad { IsErrOf result Refusal.BadName ↔ (is_document_name text.now ≡ false) }
        ensures only { IfErr result (λ e. (e ≡ Refusal.BadName) ⊎ (e ≡ Refusal.NoMemory)) }
    {
        if !is_name_of(text, 64) {
            return Err(Refusal::BadName);
        }
        Ok(Name {
            text: ArcStr::from_str(alloc, text)?,
        })
    }

    /// The name of a source: 1 to 32 characters. Refused with `BadName` where the text is none, or with `NoMemory`.
    pub fn source(alloc: Global, text: &str) -> Result<Name, Refusal>
        ensures ok { IfOk result (λ name. (name ≡ text.now) × (is_source_name name ≡ true)) }
        ensures bad { IsErrOf result Refusal.BadName ↔ (is_source_name text.now ≡ false) }
        ensures only { IfErr result (λ e. (e ≡ Refusal.BadName) ⊎ (e ≡ Refusal.NoMemory)) }
    {
        if !is_name_of(text, 32) {
            return Err(Refusal::BadName);
        }
        Name::doc(alloc, text)
    }

    /// The name as text.
    pub fn as_str(&self) -> &str
        ensures text { result.now ≡ self.now }
        ensures valid { is_document_name self.now ≡ true }
    {
        self.text.as_str()
    }

    /// The length in bytes, 1 to 64.
    #[allow(clippy::len_without_is_empty)]
    pub fn len(&self) -> u64
        ensures len { result ≡ length self.now }
        ensures bound { result ≤ 64 }
    {
        self.text.len() as u64
    }

    /// What each name keeps, for the prover. It does nothing.
    pub fn facts(&self)
        ensures valid { is_document_name self.now ≡ true }
        ensures bound { length self.now ≤ 64 }
    {
        let _ = &self.text;
    }

    /// An equal name, which shares its text, or `NoMemory`. It asks for no memory, and is refused only where no more copies can be counted.
    pub fn copy(&self, _alloc: Global) -> Result<Name, AllocError>
        ensures ok { IfOk result (λ name. name ≡ self.now) }
    {
        Ok(Name {
            text: self.text.clone()?,
        })
    }
}

impl PartialEq for Name {
    ghost use Rattle.std.specs.Str.{bytes_eq};
    ghost use Rattle.std.specs.Cmp.{decided, partial_equiv_from_equiv};
    ghost use Rattle.std.specs.Cmp.Lexicographic.{bytes_decides};

    ghost eq = { bytes_eq };

    ghost laws = { partial_equiv_from_equiv (decided bytes_eq bytes_decides) };

    fn eq(&self, other: &Self) -> bool {
        self.text == other.text
    }
}

fn is_name_of(text: &str, longest: usize) -> bool
    ensures { result ≡ is_name longest text.now }
{
    !text.is_empty() && text.len() <= longest && has_name_bytes(text.as_bytes())
}

fn has_name_bytes(text: &[u8]) -> bool
    ensures { result ≡ list_all is_name_byte text.now }
{
    text.iter().all(|b| is_name_byte_of(*b))
}

fn is_name_byte_of(b: u8) -> bool
    ensures { result ≡ is_name_byte b }
{
    (65 <= b && b <= 90)
        || (97 <= b && b <= 122)
        || (48 <= b && b <= 57)
        || b == 46
        || b == 95
        || b == 45
}
