//! Values of any type.
ghost use Rattle.std.specs.Prelude.{◌≡◌, ℕ, List, IfOk};
ghost use Rattle.rasn_types.specs.Equality.{DecidesSame};
ghost use Rattle.rasn_schema.specs.declared.types.«Type».{«Type»};
ghost use Rattle.rasn_schema.specs.Trees.{tree_of};
ghost use Rattle.rasn_schema.specs.Copies.{IsCopy};
ghost use Rattle.rasn_schema.specs.Fitting.{Fits};

use crate::copy::copy_of;
use crate::equal::is_same;
use rasn_types::types::{BmpString, CowBits, Date, GeneralizedTime, Integer, ObjectIdentifier};
use std::alloc::{AllocError, Global};
use std::borrow::{CowSlice, CowStr};

/// A value of any type. Strings, a BIT STRING among them, and open types borrow from the input
/// where their encoding is primitive.
pub enum Value<'input> {
    /// A BOOLEAN.
    Boolean(bool),
    /// A NULL.
    Null,
    /// The number of an INTEGER or an ENUMERATED.
    Integer(Integer),
    /// The bits of a BIT STRING. If they have names, there are no trailing 0 bits.
    Bits(CowBits<'input>),
    /// The octets of an OCTET STRING, of a string whose characters are octets, or of an open type,
    /// and the contents octets of a time of X.680 38 or, as canonical rules have them, of a REAL.
    Octets(CowSlice<'input, u8>),
    /// The characters of a UTF8String or a UniversalString.
    Text(CowStr<'input>),
    /// The units of a BMPString.
    Units(BmpString),
    /// The arcs of an OBJECT IDENTIFIER, or those that hold the arcs of a RELATIVE-OID: see
    /// [`RelativeOid`](crate::RelativeOid).
    Arcs(ObjectIdentifier),
    /// The instant of a UTCTime or a GeneralizedTime.
    Instant(GeneralizedTime),
    /// The day of a DATE.
    Day(Date),
    /// The components of a SEQUENCE or a SET, in the order of the schema, or the elements of a
    /// SEQUENCE OF.
    Items(Vec<Value<'input>>),
    /// The elements of a SET OF.
    Elements(Vec<Value<'input>>),
    /// The alternative of a CHOICE with this index, counted from 0.
    Chosen(usize, Box<Value<'input>>),
    /// A component that is absent.
    Absent,
}

/// Drops a value. CHOICEs directly in one another take no stack.
impl Drop for Value<'_> {
    fn drop(mut self) {
        loop {
            match self {
                Value::Chosen(_, inner) => self = Box::into_inner(inner),
                Value::Boolean(_) => return,
                Value::Null => return,
                Value::Integer(_) => return,
                Value::Bits(_) => return,
                Value::Octets(_) => return,
                Value::Text(_) => return,
                Value::Units(_) => return,
                Value::Arcs(_) => return,
                Value::Instant(_) => return,
                Value::Day(_) => return,
                Value::Items(_) => return,
                Value::Elements(_) => return,
                Value::Absent => return,
            }
        }
    }
}

impl Value<'_> {
    /// Returns a copy of the value, which borrows nothing: it means the same, and is a value of
    /// each type of which this is one.
    ///
    /// # Errors
    /// `AllocError` if an allocation fails.
    pub fn try_clone<'any>(&self, alloc: Global) -> Result<Value<'any>, AllocError>
        ensures copy { IfOk result (λ copy. IsCopy self.now copy) }
        ensures means { IfOk result (λ copy. tree_of copy ≡ tree_of self.now) }
        ensures fits { IfOk result (λ copy. (types : List «Type») (levels id : ℕ) → Fits types levels id self.now → Fits types levels id copy) }
    {
        copy_of(self, alloc)
    }

    /// Returns whether two values mean the same. The elements of a SET OF may be in any order.
    /// Values of different types are the same if they mean the same number or the same numbers, as
    /// the octets of a string and its characters.
    pub fn means_same(&self, other: &Value<'_>) -> bool
        ensures { DecidesSame result (tree_of self.now) (tree_of other.now) }
    {
        is_same(self, other)
    }
}

impl PartialEq for Value<'_> {
    ghost use Rattle.std.specs.Cmp.{partial_equiv_from_equiv};
    ghost use Rattle.rasn_schema.specs.Equal.{value_eq};
    ghost use Rattle.rasn_schema.specs.Equals.{values_equiv};

    ghost eq = { value_eq };

    ghost laws = { partial_equiv_from_equiv values_equiv };

    fn eq(&self, other: &Self) -> bool {
        is_same(self, other)
    }
}

impl Eq for Value<'_> {
    ghost use Rattle.rasn_schema.specs.Equals.{values_equiv};

    ghost laws = { values_equiv };
}
