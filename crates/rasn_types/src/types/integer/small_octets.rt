//! Octets of a number: up to 23 inline, more on the heap.
ghost use Rattle.std.specs.Prelude.{◌≡◌, ◌<◌, ◌≤◌, length, IfOk, IfErr, MatchOption};
ghost use Rattle.rasn_types.specs.Inline.{inline_capacity};

use std::alloc::{AllocError, Global};
use std::fmt;
use std::marker::Model;

// The highest number of octets kept inline: with their number they take as much space as a vector.
const INLINE_CAPACITY: usize = 23;

/// Up to 23 octets, kept inline.
#[derive(Clone, Copy, Drop)]
pub struct InlineOctets {
    octets: [u8; INLINE_CAPACITY],
    count: u8,
    ghost fits: { count ≤ inline_capacity },
}

impl InlineOctets {
    ghost use Rattle.rasn_types.specs.SmallOctets.{inline_octets};

    /// Returns a copy of these octets, or `None` if there are more than 23.
    #[inline]
    fn from_slice(octets: &[u8]) -> Option<InlineOctets>
        ensures { MatchOption result (inline_capacity < length octets.now) (λ few. inline_octets few ≡ octets.now) }
    {
        let count = octets.len();
        if count > INLINE_CAPACITY {
            return None;
        }
        let mut copy = [0; INLINE_CAPACITY];
        copy[..count].copy_from_slice(octets);
        Some(InlineOctets {
            octets: copy,
            count: count as u8,
        })
    }

    /// Returns the octets.
    #[inline(always)]
    fn as_slice(&self) -> &[u8]
        ensures { result.now ≡ inline_octets self.now }
    {
        &self.octets[..usize::from(self.count)]
    }
}

/// The storage of octets.
#[derive(Drop)]
pub enum Storage {
    /// Octets in the value itself.
    Inline(InlineOctets),
    /// Octets on the heap.
    Allocated(Vec<u8>),
}

/// A list of octets: up to 23 inline, more on the heap.
#[derive(Drop)]
pub struct SmallOctets {
    storage: Storage,
}

impl Model for SmallOctets {
    ghost use Rattle.std.specs.Prelude.{List, ℕ};

    ghost Value = { List ℕ };

    ghost use Rattle.rasn_types.specs.SmallOctets.{stored_octets};

    ghost view = { λ a. stored_octets a.storage };
}

impl SmallOctets {
    /// Returns a copy of these octets.
    ///
    /// # Errors
    /// If an allocation fails, for more than 23 octets.
    #[inline]
    pub fn from_slice(alloc: Global, octets: &[u8]) -> Result<SmallOctets, AllocError>
        ensures ok { IfOk result (λ v. v ≡ octets.now) }
        ensures memory { IfErr result (λ _. inline_capacity < length octets.now) }
    {
        let storage = match InlineOctets::from_slice(octets) {
            Some(few) => Storage::Inline(few),
            None => Storage::Allocated(Vec::from_slice(alloc, octets)?),
        };
        Ok(SmallOctets { storage })
    }

    /// Returns the octets.
    #[inline(always)]
    pub fn as_slice(&self) -> &[u8]
        ensures { result.now ≡ self.now }
    {
        match &self.storage {
            Storage::Inline(few) => few.as_slice(),
            Storage::Allocated(octets) => octets.as_slice(),
        }
    }

    /// Returns a copy of the octets.
    ///
    /// # Errors
    /// If an allocation fails, for more than 23 octets.
    #[inline]
    pub fn try_clone(&self, alloc: Global) -> Result<SmallOctets, AllocError>
        ensures ok { IfOk result (λ v. v ≡ self.now) }
        ensures memory { IfErr result (λ _. inline_capacity < length self.now) }
    {
        match &self.storage {
            Storage::Inline(few) => Ok(SmallOctets {
                storage: Storage::Inline(*few),
            }),
            Storage::Allocated(octets) => SmallOctets::from_slice(alloc, octets),
        }
    }
}

impl fmt::Debug for SmallOctets {
    fn fmt<W: fmt::Write>(&self, f: &mut fmt::Formatter<W>) -> fmt::Result {
        f.debug_list().entries(self.as_slice()).finish()
    }
}
