//! INTEGER as signed numbers of a fixed width.
ghost use Rattle.std.specs.Prelude.{refl, false};
ghost use Rattle.rasn_types.specs.Shapes.{leaf, integer, number as number_tree};
ghost use Rattle.rasn_types.specs.Tags.{in_universal};
ghost use Rattle.rasn_types.specs.Trees.{signed_range, unconstrained};

use crate::types::twos_complement::{i64_octets, i128_octets, signed_i128};
use crate::types::{AsnType, Constraints, IntegerType, LONGEST_NUMBER, Tag};
use std::alloc::{AllocError, Global};

impl AsnType for i8 {
    ghost TAG = { in_universal 2 };

    const TAG: Tag = Tag::INTEGER;

    ghost CONSTRAINTS = { unconstrained };

    const CONSTRAINTS: Constraints = Constraints::NONE;

    ghost shape = { leaf (integer (signed_range 8)) (in_universal 2) unconstrained };

    ghost tree = { λ v. number_tree v };

    ghost own = { refl };
}

impl IntegerType for i8 {
    ghost WIDTH = { 8 };

    const WIDTH: u32 = 8;

    ghost range = { signed_range 8 };

    ghost number = { λ v. v };

    ghost takes_memory = { λ z. ⊥ };

    fn from_octets(_alloc: Global, octets: &[u8]) -> Result<Option<i8>, AllocError> {
        Ok(signed_i128(octets).and_then(|number| i8::try_from(number).ok()))
    }

    #[inline(always)]
    fn octets<'a>(&'a self, room: &'a mut [u8; LONGEST_NUMBER]) -> &'a [u8] {
        i64_octets(i64::from(*self), room)
    }
}

impl AsnType for i16 {
    ghost TAG = { in_universal 2 };

    const TAG: Tag = Tag::INTEGER;

    ghost CONSTRAINTS = { unconstrained };

    const CONSTRAINTS: Constraints = Constraints::NONE;

    ghost shape = { leaf (integer (signed_range 16)) (in_universal 2) unconstrained };

    ghost tree = { λ v. number_tree v };

    ghost own = { refl };
}

impl IntegerType for i16 {
    ghost WIDTH = { 16 };

    const WIDTH: u32 = 16;

    ghost range = { signed_range 16 };

    ghost number = { λ v. v };

    ghost takes_memory = { λ z. ⊥ };

    fn from_octets(_alloc: Global, octets: &[u8]) -> Result<Option<i16>, AllocError> {
        Ok(signed_i128(octets).and_then(|number| i16::try_from(number).ok()))
    }

    #[inline(always)]
    fn octets<'a>(&'a self, room: &'a mut [u8; LONGEST_NUMBER]) -> &'a [u8] {
        i64_octets(i64::from(*self), room)
    }
}

impl AsnType for i32 {
    ghost TAG = { in_universal 2 };

    const TAG: Tag = Tag::INTEGER;

    ghost CONSTRAINTS = { unconstrained };

    const CONSTRAINTS: Constraints = Constraints::NONE;

    ghost shape = { leaf (integer (signed_range 32)) (in_universal 2) unconstrained };

    ghost tree = { λ v. number_tree v };

    ghost own = { refl };
}

impl IntegerType for i32 {
    ghost WIDTH = { 32 };

    const WIDTH: u32 = 32;

    ghost range = { signed_range 32 };

    ghost number = { λ v. v };

    ghost takes_memory = { λ z. ⊥ };

    fn from_octets(_alloc: Global, octets: &[u8]) -> Result<Option<i32>, AllocError> {
        Ok(signed_i128(octets).and_then(|number| i32::try_from(number).ok()))
    }

    #[inline(always)]
    fn octets<'a>(&'a self, room: &'a mut [u8; LONGEST_NUMBER]) -> &'a [u8] {
        i64_octets(i64::from(*self), room)
    }
}

impl AsnType for i64 {
    ghost TAG = { in_universal 2 };

    const TAG: Tag = Tag::INTEGER;

    ghost CONSTRAINTS = { unconstrained };

    const CONSTRAINTS: Constraints = Constraints::NONE;

    ghost shape = { leaf (integer (signed_range 64)) (in_universal 2) unconstrained };

    ghost tree = { λ v. number_tree v };

    ghost own = { refl };
}

impl IntegerType for i64 {
    ghost WIDTH = { 64 };

    const WIDTH: u32 = 64;

    ghost range = { signed_range 64 };

    ghost number = { λ v. v };

    ghost takes_memory = { λ z. ⊥ };

    fn from_octets(_alloc: Global, octets: &[u8]) -> Result<Option<i64>, AllocError> {
        Ok(signed_i128(octets).and_then(|number| i64::try_from(number).ok()))
    }

    #[inline(always)]
    fn octets<'a>(&'a self, room: &'a mut [u8; LONGEST_NUMBER]) -> &'a [u8] {
        i64_octets(*self, room)
    }
}

impl AsnType for i128 {
    ghost TAG = { in_universal 2 };

    const TAG: Tag = Tag::INTEGER;

    ghost CONSTRAINTS = { unconstrained };

    const CONSTRAINTS: Constraints = Constraints::NONE;

    ghost shape = { leaf (integer (signed_range 128)) (in_universal 2) unconstrained };

    ghost tree = { λ v. number_tree v };

    ghost own = { refl };
}

impl IntegerType for i128 {
    ghost WIDTH = { 128 };

    const WIDTH: u32 = 128;

    ghost range = { signed_range 128 };

    ghost number = { λ v. v };

    ghost takes_memory = { λ z. ⊥ };

    fn from_octets(_alloc: Global, octets: &[u8]) -> Result<Option<i128>, AllocError> {
        Ok(signed_i128(octets))
    }

    #[inline(always)]
    fn octets<'a>(&'a self, room: &'a mut [u8; LONGEST_NUMBER]) -> &'a [u8] {
        i128_octets(*self, room)
    }
}

impl AsnType for isize {
    ghost TAG = { in_universal 2 };

    const TAG: Tag = Tag::INTEGER;

    ghost CONSTRAINTS = { unconstrained };

    const CONSTRAINTS: Constraints = Constraints::NONE;

    ghost shape = { leaf (integer (signed_range 64)) (in_universal 2) unconstrained };

    ghost tree = { λ v. number_tree v };

    ghost own = { refl };
}

impl IntegerType for isize {
    ghost WIDTH = { 64 };

    const WIDTH: u32 = 64;

    ghost range = { signed_range 64 };

    ghost number = { λ v. v };

    ghost takes_memory = { λ z. ⊥ };

    fn from_octets(_alloc: Global, octets: &[u8]) -> Result<Option<isize>, AllocError> {
        Ok(signed_i128(octets).and_then(|number| isize::try_from(number).ok()))
    }

    #[inline(always)]
    fn octets<'a>(&'a self, room: &'a mut [u8; LONGEST_NUMBER]) -> &'a [u8] {
        i64_octets(*self as i64, room)
    }
}
