//! The uses of a key that a KeyUsage names (RFC 5280, 4.2.1.3).
ghost use Rattle.std.specs.Prelude.{◌≡◌};
ghost use Rattle.rasn_pkix.specs.Bits.{is_named};

use crate::KeyUsage;

impl KeyUsage {
    /// Returns whether the bit at this position is present and 1.
    fn names(&self, place: usize) -> bool
        ensures { result ≡ is_named place self.now }
    {
        self.value.is_set(place)
    }

    /// Returns whether the key is for signatures on data other than certificates and revocation
    /// lists.
    pub fn digital_signature(&self) -> bool
        ensures { result ≡ is_named 0 self.now }
    {
        self.names(0)
    }

    /// Returns whether the key is for signatures that can't be denied, also called
    /// contentCommitment.
    pub fn non_repudiation(&self) -> bool
        ensures { result ≡ is_named 1 self.now }
    {
        self.names(1)
    }

    /// Returns whether the key is for enciphering keys.
    pub fn key_encipherment(&self) -> bool
        ensures { result ≡ is_named 2 self.now }
    {
        self.names(2)
    }

    /// Returns whether the key is for enciphering data other than keys.
    pub fn data_encipherment(&self) -> bool
        ensures { result ≡ is_named 3 self.now }
    {
        self.names(3)
    }

    /// Returns whether the key is for key agreement.
    pub fn key_agreement(&self) -> bool
        ensures { result ≡ is_named 4 self.now }
    {
        self.names(4)
    }

    /// Returns whether the key is for signatures on certificates.
    pub fn key_cert_sign(&self) -> bool
        ensures { result ≡ is_named 5 self.now }
    {
        self.names(5)
    }

    /// Returns whether the key is for signatures on revocation lists.
    pub fn crl_sign(&self) -> bool
        ensures { result ≡ is_named 6 self.now }
    {
        self.names(6)
    }

    /// Returns whether a key for key agreement is only for enciphering.
    pub fn encipher_only(&self) -> bool
        ensures { result ≡ is_named 7 self.now }
    {
        self.names(7)
    }

    /// Returns whether a key for key agreement is only for deciphering.
    pub fn decipher_only(&self) -> bool
        ensures { result ≡ is_named 8 self.now }
    {
        self.names(8)
    }
}
