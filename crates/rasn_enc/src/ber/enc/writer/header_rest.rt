//! The octets of a header after its first two.
ghost use Rattle.std.specs.Prelude.{◌≡◌, ◌≤◌, [], length, take};

/// Up to 15 octets of a header. No header has more, and with their count they fill 16 octets.
#[derive(Clone, Copy, Drop)]
pub struct HeaderRest {
    octets: [u8; 15],
    count: u8,
    ghost fits: { count ≤ 15 },
}

impl HeaderRest {
    ghost use Rattle.rasn_enc.specs.Buffer.HeaderRest.{rest_octets};

    /// Makes an empty `HeaderRest`.
    pub fn new() -> HeaderRest
        ensures { rest_octets result ≡ [] }
    {
        HeaderRest {
            octets: [0; 15],
            count: 0,
        }
    }

    /// Makes a `HeaderRest` of these octets.
    #[inline(always)]
    pub fn from_slice(octets: &[u8]) -> HeaderRest
        requires { length octets.now ≤ 15 }
        ensures { rest_octets result ≡ octets.now }
    {
        let mut all = [0; 15];
        all[..octets.len()].copy_from_slice(octets);
        HeaderRest {
            octets: all,
            count: octets.len() as u8,
        }
    }

    /// Returns the octets.
    pub fn as_slice(&self) -> &[u8]
        ensures { result.now ≡ rest_octets self.now }
    {
        &self.octets[..usize::from(self.count)]
    }

    /// Returns the number of octets.
    pub fn len(&self) -> usize
        ensures { result ≡ length (rest_octets self.now) }
    {
        usize::from(self.count)
    }

    /// Keeps the first `count` octets.
    pub fn truncate(&mut self, count: usize)
        requires { count ≤ length (rest_octets self.old) }
        ensures { rest_octets self.new ≡ take count (rest_octets self.old) }
    {
        self.count = count as u8;
    }
}
