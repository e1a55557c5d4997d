//! An iterator over bits.
ghost use Rattle.std.specs.Prelude.{◌≡◌};

use crate::types::bits::BitStr;
use std::marker::Model;

/// An iterator over the bits of a list. Contracts see it as the list of the remaining bits.
#[derive(Debug, Drop)]
pub struct BitIter<'a> {
    rest: BitStr<'a>,
}

impl<'a> Model for BitIter<'a> {
    ghost use Rattle.std.specs.Prelude.{List, Bool};

    ghost Value = { List Bool };

    ghost view = { λ i. i.rest };
}

impl<'a> BitIter<'a> {
    // Returns an iterator over all of these bits.
    pub(crate) fn over(bits: BitStr<'a>) -> BitIter<'a>
        ensures { result ≡ bits.entry }
    {
        BitIter { rest: bits }
    }
}

impl Iterator for BitIter<'_> {
    ghost use Rattle.std.specs.Iterator.{YieldsFirst, item_count};

    type Item = bool;

    ghost next_gives = { YieldsFirst (λ bits. bits) };

    ghost remaining = { item_count (λ bits. bits) };

    fn next(&mut self) -> Option<bool> {
        let bit = self.rest.get(0)?;
        let (_, rest) = self.rest.split_at(1);
        self.rest = rest;
        Some(bit)
    }

    fn size_hint(&self) -> (usize, Option<usize>) {
        let left = self.rest.len();
        (left, Some(left))
    }
}
