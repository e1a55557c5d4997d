//! INTEGER as unsigned numbers of a fixed width.
ghost use Rattle.std.specs.Prelude.{refl, false, pos};
ghost use Rattle.rasn_types.specs.Shapes.{leaf, integer, number as number_tree};
ghost use Rattle.rasn_types.specs.Tags.{in_universal};
ghost use Rattle.rasn_types.specs.Trees.{unsigned_range, unconstrained};

use crate::types::twos_complement::{
    i64_octets, i128_octets, signed_i128, u128_octets, unsigned_u128,
};
use crate::types::{AsnType, Constraints, IntegerType, LONGEST_NUMBER, Tag};
use std::alloc::{AllocError, Global};

impl AsnType for u8 {
    ghost TAG = { in_universal 2 };

    const TAG: Tag = Tag::INTEGER;

    ghost CONSTRAINTS = { unconstrained };

    const CONSTRAINTS: Constraints = Constraints::NONE;

    ghost shape = { leaf (integer (unsigned_range 8)) (in_universal 2) unconstrained };

    ghost tree = { λ v. number_tree (pos v) };

    ghost own = { refl };
}

impl IntegerType for u8 {
    ghost WIDTH = { 8 };

    const WIDTH: u32 = 8;

    ghost range = { unsigned_range 8 };

    ghost number = { λ v. pos v };

    ghost takes_memory = { λ z. ⊥ };

    fn from_octets(_alloc: Global, octets: &[u8]) -> Result<Option<u8>, AllocError> {
        Ok(signed_i128(octets).and_then(|number| u8::try_from(number).ok()))
    }

    #[inline(always)]
    fn octets<'a>(&'a self, room: &'a mut [u8; LONGEST_NUMBER]) -> &'a [u8] {
        i64_octets(i64::from(*self), room)
    }
}

impl AsnType for u16 {
    ghost TAG = { in_universal 2 };

    const TAG: Tag = Tag::INTEGER;

    ghost CONSTRAINTS = { unconstrained };

    const CONSTRAINTS: Constraints = Constraints::NONE;

    ghost shape = { leaf (integer (unsigned_range 16)) (in_universal 2) unconstrained };

    ghost tree = { λ v. number_tree (pos v) };

    ghost own = { refl };
}

impl IntegerType for u16 {
    ghost WIDTH = { 16 };

    const WIDTH: u32 = 16;

    ghost range = { unsigned_range 16 };

    ghost number = { λ v. pos v };

    ghost takes_memory = { λ z. ⊥ };

    fn from_octets(_alloc: Global, octets: &[u8]) -> Result<Option<u16>, AllocError> {
        Ok(signed_i128(octets).and_then(|number| u16::try_from(number).ok()))
    }

    #[inline(always)]
    fn octets<'a>(&'a self, room: &'a mut [u8; LONGEST_NUMBER]) -> &'a [u8] {
        i64_octets(i64::from(*self), room)
    }
}

impl AsnType for u32 {
    ghost TAG = { in_universal 2 };

    const TAG: Tag = Tag::INTEGER;

    ghost CONSTRAINTS = { unconstrained };

    const CONSTRAINTS: Constraints = Constraints::NONE;

    ghost shape = { leaf (integer (unsigned_range 32)) (in_universal 2) unconstrained };

    ghost tree = { λ v. number_tree (pos v) };

    ghost own = { refl };
}

impl IntegerType for u32 {
    ghost WIDTH = { 32 };

    const WIDTH: u32 = 32;

    ghost range = { unsigned_range 32 };

    ghost number = { λ v. pos v };

    ghost takes_memory = { λ z. ⊥ };

    fn from_octets(_alloc: Global, octets: &[u8]) -> Result<Option<u32>, AllocError> {
        Ok(signed_i128(octets).and_then(|number| u32::try_from(number).ok()))
    }

    #[inline(always)]
    fn octets<'a>(&'a self, room: &'a mut [u8; LONGEST_NUMBER]) -> &'a [u8] {
        i64_octets(i64::from(*self), room)
    }
}

impl AsnType for u64 {
    ghost TAG = { in_universal 2 };

    const TAG: Tag = Tag::INTEGER;

    ghost CONSTRAINTS = { unconstrained };

    const CONSTRAINTS: Constraints = Constraints::NONE;

    ghost shape = { leaf (integer (unsigned_range 64)) (in_universal 2) unconstrained };

    ghost tree = { λ v. number_tree (pos v) };

    ghost own = { refl };
}

impl IntegerType for u64 {
    ghost WIDTH = { 64 };

    const WIDTH: u32 = 64;

    ghost range = { unsigned_range 64 };

    ghost number = { λ v. pos v };

    ghost takes_memory = { λ z. ⊥ };

    fn from_octets(_alloc: Global, octets: &[u8]) -> Result<Option<u64>, AllocError> {
        Ok(signed_i128(octets).and_then(|number| u64::try_from(number).ok()))
    }

    #[inline(always)]
    fn octets<'a>(&'a self, room: &'a mut [u8; LONGEST_NUMBER]) -> &'a [u8] {
        i128_octets(i128::from(*self), room)
    }
}

impl AsnType for u128 {
    ghost TAG = { in_universal 2 };

    const TAG: Tag = Tag::INTEGER;

    ghost CONSTRAINTS = { unconstrained };

    const CONSTRAINTS: Constraints = Constraints::NONE;

    ghost shape = { leaf (integer (unsigned_range 128)) (in_universal 2) unconstrained };

    ghost tree = { λ v. number_tree (pos v) };

    ghost own = { refl };
}

impl IntegerType for u128 {
    ghost WIDTH = { 128 };

    const WIDTH: u32 = 128;

    ghost range = { unsigned_range 128 };

    ghost number = { λ v. pos v };

    ghost takes_memory = { λ z. ⊥ };

    fn from_octets(_alloc: Global, octets: &[u8]) -> Result<Option<u128>, AllocError> {
        Ok(unsigned_u128(octets))
    }

    #[inline(always)]
    fn octets<'a>(&'a self, room: &'a mut [u8; LONGEST_NUMBER]) -> &'a [u8] {
        u128_octets(*self, room)
    }
}

impl AsnType for usize {
    ghost TAG = { in_universal 2 };

    const TAG: Tag = Tag::INTEGER;

    ghost CONSTRAINTS = { unconstrained };

    const CONSTRAINTS: Constraints = Constraints::NONE;

    ghost shape = { leaf (integer (unsigned_range 64)) (in_universal 2) unconstrained };

    ghost tree = { λ v. number_tree (pos v) };

    ghost own = { refl };
}

impl IntegerType for usize {
    ghost WIDTH = { 64 };

    const WIDTH: u32 = 64;

    ghost range = { unsigned_range 64 };

    ghost number = { λ v. pos v };

    ghost takes_memory = { λ z. ⊥ };

    fn from_octets(_alloc: Global, octets: &[u8]) -> Result<Option<usize>, AllocError> {
        Ok(signed_i128(octets).and_then(|number| usize::try_from(number).ok()))
    }

    #[inline(always)]
    fn octets<'a>(&'a self, room: &'a mut [u8; LONGEST_NUMBER]) -> &'a [u8] {
        i128_octets(*self as i128, room)
    }
}
