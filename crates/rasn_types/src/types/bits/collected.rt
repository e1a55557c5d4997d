//! Bits collected piece by piece.
ghost use Rattle.std.specs.Prelude.{◌≡◌, ◌≤◌, ◌<◌, ◌*◌, ◌^◌, ◌++◌, [], ◌≢◌, length, OnOk, OnErr, MatchOption};
ghost use Rattle.rasn_types.specs.BitString.{but_last};

use crate::types::BitString;
use crate::types::bits::packing::{push_joined, shorten};
use std::alloc::{AllocError, Global};
use std::marker::Model;

/// A list of bits that is appended to piece by piece, without a limit on its length. Contracts see
/// it as the list of the bits.
#[derive(Debug, Drop)]
pub struct CollectedBits {
    octets: Vec<u8>,
    unused: usize,
}

impl Model for CollectedBits {
    ghost use Rattle.std.specs.Prelude.{List, Bool, ◌*◌, ◌<◌, ◌≤◌, length};
    ghost use Rattle.rasn_types.specs.BitString.{but_last};

    ghost Value = { List Bool };

    ghost view = { λ g. but_last g.unused g.octets.items };

    ghost invariant = { λ g. (g.unused < 8) × (g.unused ≤ 8 * length g.octets.items) };
}

impl CollectedBits {
    /// Returns an empty list.
    pub fn new(alloc: Global) -> CollectedBits
        ensures { result ≡ [] }
    {
        CollectedBits {
            octets: Vec::new(alloc),
            unused: 0,
        }
    }

    /// Appends the bits of the octets, except the last `unused` ones.
    ///
    /// # Errors
    /// `AllocError` if an allocation fails, which happens only if there are bits to append. Nothing
    /// is appended then.
    pub fn append(&mut self, octets: &[u8], unused: usize) -> Result<(), AllocError>
        requires few { unused < 8 }
        requires held { unused ≤ 8 * length octets.now }
        ensures ok { OnOk result (self.new ≡ self.old ++ but_last unused octets.now) }
        ensures err { OnErr result (self.new ≡ self.old) }
        ensures memory { OnErr result (but_last unused octets.now ≢ []) }
    {
        if self.unused == 0 {
            self.octets.extend_from_slice(octets)?;
            self.unused = unused;
            return Ok(());
        }
        self.octets.reserve(octets.len())?;
        push_joined(&mut self.octets, self.unused, octets);
        self.unused = shorten(&mut self.octets, self.unused + unused);
        Ok(())
    }

    /// Returns the bits as a string, or `None` if there are 2^64 bits or more.
    pub fn into_string(self) -> Option<BitString>
        ensures { MatchOption result (2 ^ 64 ≤ length self) (λ s. s ≡ self) }
    {
        let CollectedBits { octets, unused } = self;
        let count = octets.len() as u128 * 8 - unused as u128;
        match usize::try_from(count) {
            Ok(len) => BitString::new(octets, len),
            Err(_) => None,
        }
    }
}
