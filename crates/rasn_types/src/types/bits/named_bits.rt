//! BIT STRING whose bits have names (X.680 22.7).
ghost use Rattle.std.specs.Prelude.{◌≡◌, false, length, get_or, IfOk};
ghost use Rattle.rasn_types.specs.BitString.{significant};

use crate::types::bits::{BitStr, BitString};
use crate::types::{AsnType, Constraints, Tag, TryClone};
use std::alloc::{AllocError, Global};
use std::fmt;
use std::marker::Model;

/// A BIT STRING whose bits have names: trailing 0 bits don't count (X.680 22.7). It has none, since
/// canonical rules don't write them (X.690 11.2.2).
#[derive(Debug, Drop)]
pub struct NamedBits {
    bits: BitString,
}

impl Model for NamedBits {
    ghost use Rattle.std.specs.Prelude.{◌≡◌, List, Bool};
    ghost use Rattle.rasn_types.specs.BitString.{significant};

    ghost Value = { List Bool };

    ghost view = { λ s. s.bits };

    ghost invariant = { λ s. significant s.bits ≡ s.bits };
}

impl NamedBits {
    /// Returns the bits without the trailing 0 bits.
    pub fn new(bits: BitString) -> NamedBits
        ensures { result ≡ significant bits }
    {
        let len = bits.as_bitstr().significant_len();
        match BitString::new(bits.into_vec(), len) {
            Some(bits) => NamedBits { bits },
            None => unreachable!(),
        }
    }

    /// Returns whether the bit at `place` is 1, counted from 0. Bits that the value lacks are 0.
    pub fn is_set(&self, place: usize) -> bool
        ensures { result ≡ get_or self.now place false }
    {
        match self.bits.get(place) {
            Some(bit) => bit,
            None => false,
        }
    }

    /// Returns a view of the bits up to the last that is 1.
    pub fn as_bitstr(&self) -> BitStr<'_>
        ensures view { result ≡ self.now }
        ensures significant { significant result ≡ result }
    {
        self.bits.as_bitstr()
    }

    /// Returns the bits up to the last that is 1, without a copy.
    pub fn into_bit_string(self) -> BitString
        ensures { result ≡ self }
    {
        let NamedBits { bits } = self;
        bits
    }
}

/// Writes the bits in ASN.1 notation (X.680 12.10): `'101'B`.
impl fmt::Display for NamedBits {
    ghost use Rattle.std.specs.Prelude.{Some};
    ghost use Rattle.rasn_types.specs.Text.{shown_bits};

    ghost output = { λ s. Some (shown_bits s) };

    fn fmt<W: fmt::Write>(&self, f: &mut fmt::Formatter<W>) -> fmt::Result {
        write!(f, "{}", self.as_bitstr())
    }
}

impl PartialEq for NamedBits {
    ghost use Rattle.std.specs.Cmp.{partial_equiv_from_equiv};
    ghost use Rattle.rasn_types.specs.NamedBits.{same_significant, same_significant_equiv};

    ghost eq = { same_significant };

    ghost laws = { partial_equiv_from_equiv same_significant_equiv };

    fn eq(&self, other: &NamedBits) -> bool {
        self.bits == other.bits
    }
}

impl Eq for NamedBits {
    ghost use Rattle.rasn_types.specs.NamedBits.{same_significant_equiv};

    ghost laws = { same_significant_equiv };
}

impl AsnType for NamedBits {
    ghost use Rattle.std.specs.Prelude.{refl};
    ghost use Rattle.rasn_types.specs.Shapes.{leaf, named_bits};
    ghost use Rattle.rasn_types.specs.Tags.{in_universal};
    ghost use Rattle.rasn_types.specs.Trees.{unconstrained};
    ghost use Rattle.rasn_types.specs.NamedBits.{named_bits_tree};

    ghost TAG = { in_universal 3 };

    const TAG: Tag = Tag::BIT_STRING;

    ghost CONSTRAINTS = { unconstrained };

    const CONSTRAINTS: Constraints = Constraints::NONE;

    ghost shape = { leaf named_bits (in_universal 3) unconstrained };

    ghost tree = { named_bits_tree };

    ghost own = { refl };
}

impl TryClone for NamedBits {
    fn try_clone(&self, alloc: Global) -> Result<NamedBits, AllocError>
        ensures { IfOk result (λ v. v ≡ self.now) }
    {
        let bits = self.bits.try_clone(alloc)?;
        Ok(NamedBits { bits })
    }
}
