//! Names of attributes and embeds.
ghost use Rattle.std.specs.Prelude.{◌≡◌, ◌↔◌, ◌⊎◌, IfOk, OnOk, IfErr};
ghost use Rattle.attributes.specs.Attributes.{IsKey};

use refusal::Refusal;
use std::alloc::{AllocError, Global};
use std::marker::Model;

/// The longest name, in bytes.
pub const MAX_KEY: usize = 64;

/// A name of an attribute or an embed: 1 to 64 bytes of UTF-8.
#[derive(Debug, Drop)]
pub struct Key {
    text: String,
}

impl Model for Key {
    ghost use Rattle.std.specs.Prelude.{List, ℕ, string_bytes};
    ghost use Rattle.attributes.specs.Attributes.{IsKey};

    ghost Value = { List ℕ };

    ghost view = { λ k. string_bytes k.text };

    ghost invariant = { λ k. IsKey (string_bytes k.text) };
}

impl Key {
    /// The name with this text; refused as BadOps where it has no byte or more than 64.
    pub fn new(alloc: Global, name: &str) -> Result<Self, Refusal>
        ensures name { IfOk result (λ key. key ≡ name.now) }
        ensures kept { OnOk result (IsKey name.now) }
        ensures bad { (result ≡ Err Refusal.BadOps) ↔ ¬ (IsKey name.now) }
        ensures only { IfErr result (λ e. (e ≡ Refusal.BadOps) ⊎ (e ≡ Refusal.NoMemory)) }
    {
        if name.is_empty() || name.len() > MAX_KEY {
            return Err(Refusal::BadOps);
        }
        match String::from_str(alloc, name) {
            Ok(text) => Ok(Key { text }),
            Err(_) => Err(Refusal::NoMemory),
        }
    }

    /// Its text.
    pub fn as_str(&self) -> &str
        ensures text { result.now ≡ self.now }
        ensures kept { IsKey self.now }
    {
        self.text.as_str()
    }

    /// An equal name.
    pub fn copy(&self, alloc: Global) -> Result<Self, AllocError>
        ensures same { IfOk result (λ key. key ≡ self.now) }
    {
        match String::from_str(alloc, self.text.as_str()) {
            Ok(text) => Ok(Key { text }),
            Err(_) => Err(AllocError),
        }
    }
}

impl PartialEq for Key {
    ghost use Rattle.std.specs.Str.{bytes_eq};
    ghost use Rattle.std.specs.Cmp.{decided, partial_equiv_from_equiv};
    ghost use Rattle.std.specs.Cmp.Lexicographic.{bytes_decides};

    ghost eq = { bytes_eq };

    ghost laws = { partial_equiv_from_equiv (decided bytes_eq bytes_decides) };

    fn eq(&self, other: &Self) -> bool {
        self.text == other.text
    }
}
