//! Names of types, components, alternatives and numbers. Nothing that is read or written depends
//! on them.
ghost use Rattle.std.specs.Prelude.{◌≡◌, ◌≢◌, ◌<◌, ℕ, Some, slice_get, MatchOption};
ghost use Rattle.std.specs.String.{string_bytes};
ghost use Rattle.rasn_types.specs.Truth.{IsWhether};
ghost use Rattle.rasn_schema.specs.declared.types.NamedNumber.{NamedNumber};
ghost use Rattle.rasn_schema.specs.declared.named.TypeName.{TypeName};
ghost use Rattle.rasn_schema.specs.Named.{IsFirstNamed};

use crate::type_id::TypeId;
use crate::types::{Alternative, Component, NamedNumber};

/// The name of a type of a schema.
#[derive(Drop)]
pub struct TypeName {
    /// The name, as it is written in a module.
    pub name: String,
    /// The number of the type.
    pub type_id: TypeId,
}

/// What has a name, as it is written in a module.
pub trait Named {
    ghost use Rattle.std.specs.Prelude.{List};

    ghost name: { Self → List ℕ };

    /// Returns the name.
    fn name(&self) -> &str
        ensures { result.now ≡ name self.now };
}

impl Named for TypeName {
    ghost name = { λ t. string_bytes t.name };

    fn name(&self) -> &str {
        self.name.as_str()
    }
}

impl Named for Component {
    ghost name = { λ c. string_bytes c.name };

    fn name(&self) -> &str {
        self.name.as_str()
    }
}

impl Named for Alternative {
    ghost name = { λ a. string_bytes a.name };

    fn name(&self) -> &str {
        self.name.as_str()
    }
}

impl Named for NamedNumber {
    ghost name = { λ n. string_bytes n.name };

    fn name(&self) -> &str {
        self.name.as_str()
    }
}

/// Returns whether this is the name.
pub fn has_name<N: Named>(named: &N, name: &str) -> bool
    ensures { IsWhether result (N.name named.now ≡ name.now) }
{
    named.name() == name
}

/// Returns the index of the first component, alternative, number or type with this name, if there
/// is one.
pub fn index_named<N: Named>(list: &[N], name: &str) -> Option<usize>
    ensures { MatchOption result
        ((j : ℕ) (n : N) → Some n ≡ slice_get list.now j → N.name n ≢ name.now)
        (λ k. ((n : N) × (Some n ≡ slice_get list.now k) × (N.name n ≡ name.now))
        × ((j : ℕ) (n : N) → j < k → Some n ≡ slice_get list.now j → N.name n ≢ name.now)) }
{
    for (index, named) in list.iter().enumerate() {
        if has_name(named, name) {
            return Some(index);
        }
    }
    None
}

/// Returns the number of the first type with this name, if there is one.
pub fn type_named(names: &[TypeName], name: &str) -> Option<TypeId>
    ensures { MatchOption result
        ((j : ℕ) (n : TypeName) → Some n ≡ slice_get names.now j → string_bytes n.name ≢ name.now)
        (λ id. IsFirstNamed names.now name.now id) }
{
    let index = index_named(names, name)?;
    Some(names[index].type_id)
}

fn has_number(named: &NamedNumber, number: isize) -> bool
    ensures { IsWhether result (named.now.number ≡ number) }
{
    named.number == number
}

/// Returns the first name of a number, if it has one.
pub fn name_of_number(numbers: &[NamedNumber], number: isize) -> Option<&str>
    ensures { MatchOption result
        ((j : ℕ) (n : NamedNumber) → Some n ≡ slice_get numbers.now j → n.number ≢ number)
        (λ name. (j : ℕ) × (n : NamedNumber) × (Some n ≡ slice_get numbers.now j) × (string_bytes n.name ≡ name.now) × (n.number ≡ number)) }
{
    for named in numbers {
        if has_number(named, number) {
            return Some(named.name.as_str());
        }
    }
    None
}
