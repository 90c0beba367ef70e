//! Values of attributes and embeds.
ghost use Rattle.std.specs.Prelude.{◌≡◌, ◌↔◌, IfOk, OnOk, IsOkUnless};
ghost use Rattle.attributes.specs.Scalar.{Scalar, IsExact, text_scalar, whole_scalar, flag_scalar};

use refusal::Refusal;
use std::alloc::{AllocError, Global};
use std::marker::Model;

/// 2^53: every whole number of a smaller magnitude is one that JSON readers keep exactly.
pub const WHOLE_LIMIT: i64 = 9_007_199_254_740_992;

/// A value of an attribute or an embed: text, a whole number of a magnitude below 2^53, true or false.
#[derive(Debug, Drop)]
pub struct Value {
    kind: Kind,
}

#[derive(Debug, Drop)]
enum Kind {
    Text(String),
    Whole(i64),
    Flag(bool),
}

/// A value as it is, to match on.
#[derive(Clone, Copy, Debug)]
pub enum ValueRef<'a> {
    Text(&'a str),
    Whole(i64),
    Flag(bool),
}

impl Model for Value {
    ghost use Rattle.attributes.specs.Scalar.{Scalar, scalar_code};

    ghost Value = { Scalar };

    ghost coded = { scalar_code };

    ghost use Rattle.attributes.specs.Kind.{scalar_of_kind, IsExactKind};

    ghost view = { λ v. scalar_of_kind v.kind };

    ghost invariant = { λ v. IsExactKind v.kind };
}

impl Value {
    ghost use Rattle.attributes.specs.Kind.{scalar_of};
    ghost use Rattle.attributes.specs.Scalar.{IsExactScalar};

    /// A text.
    pub fn text(alloc: Global, text: &str) -> Result<Self, AllocError>
        ensures text { IfOk result (λ value. value ≡ text_scalar text.now) }
    {
        match String::from_str(alloc, text) {
            Ok(text) => Ok(Value {
                kind: Kind::Text(text),
            }),
            Err(_) => Err(AllocError),
        }
    }

    /// A whole number; refused as BadOps where its magnitude is 2^53 or more.
    pub fn whole(number: i64) -> Result<Self, Refusal>
        ensures number { IfOk result (λ value. value ≡ whole_scalar number) }
        ensures kept { OnOk result (IsExact number) }
        ensures bad { (result ≡ Err Refusal.BadOps) ↔ ¬ (IsExact number) }
        ensures only { IsOkUnless result Refusal.BadOps }
    {
        if number <= -WHOLE_LIMIT || number >= WHOLE_LIMIT {
            return Err(Refusal::BadOps);
        }
        Ok(Value {
            kind: Kind::Whole(number),
        })
    }

    /// True or false.
    pub fn flag(flag: bool) -> Self
        ensures { result ≡ flag_scalar flag }
    {
        Value {
            kind: Kind::Flag(flag),
        }
    }

    /// The value as it is.
    pub fn get(&self) -> ValueRef<'_>
        ensures value { scalar_of result ≡ self.now }
        ensures kept { IsExactScalar self.now }
    {
        match &self.kind {
            Kind::Text(text) => ValueRef::Text(text.as_str()),
            Kind::Whole(number) => ValueRef::Whole(*number),
            Kind::Flag(flag) => ValueRef::Flag(*flag),
        }
    }

    /// An equal value.
    pub fn copy(&self, alloc: Global) -> Result<Self, AllocError>
        ensures same { IfOk result (λ value. value ≡ self.now) }
    {
        match &self.kind {
            Kind::Text(text) => Value::text(alloc, text.as_str()),
            Kind::Whole(number) => Ok(Value {
                kind: Kind::Whole(*number),
            }),
            Kind::Flag(flag) => Ok(Value::flag(*flag)),
        }
    }
}

impl PartialEq for Value {
    ghost use Rattle.std.specs.Cmp.{decided, partial_equiv_from_equiv};
    ghost use Rattle.attributes.specs.Scalar.{same_scalar, same_scalar-Decides};

    ghost eq = { same_scalar };

    ghost laws = { partial_equiv_from_equiv (decided same_scalar same_scalar-Decides) };

    fn eq(&self, other: &Self) -> bool {
        match (&self.kind, &other.kind) {
            (Kind::Text(a), Kind::Text(b)) => a == b,
            (Kind::Whole(m), Kind::Whole(n)) => m == n,
            (Kind::Flag(a), Kind::Flag(b)) => a == b,
            _ => false,
        }
    }
}
