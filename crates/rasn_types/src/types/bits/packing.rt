//! Bits packed in octets, the first bit of each octet highest (X.690 8.6.2).
ghost use Rattle.std.specs.Prelude.{◌≡◌, ◌+◌, ◌-◌, ◌*◌, ◌/◌, ◌%◌, ◌<◌, ◌≤◌, ◌++◌, ◌∷◌, length, take, drop, vec_len, vec_capacity, OnOk, OnErr};
ghost use Rattle.rasn_types.specs.Framing.{AreOctets};
ghost use Rattle.rasn_types.specs.Contents.{bits_of};
ghost use Rattle.rasn_types.specs.BitString.{zeros, but_last};
ghost use Rattle.rasn_types.specs.BitPacking.{Shifts, Clears, Joins};

use std::alloc::AllocError;

/// Returns the number of octets that this number of bits takes.
pub(crate) fn octets_for(bits: usize) -> usize
    ensures { result ≡ (bits + 7) / 8 }
{
    if bits % 8 == 0 {
        bits / 8
    } else {
        bits / 8 + 1
    }
}

/// Returns the number of bits that are unused in the last octet of packed bits.
pub(crate) fn unused_by(bits: usize) -> usize
    ensures { result ≡ (8 - bits % 8) % 8 }
{
    (8 - bits % 8) % 8
}

// Returns the octet that begins after the first `bits` bits of two octets.
fn across(first: u8, second: u8, bits: usize) -> u8
    requires { bits < 8 }
    ensures { bits_of result ≡ take 8 (drop bits (bits_of first ++ bits_of second)) }
{
    let both = u16::from(first) * 256 + u16::from(second);
    ((both >> (8 - bits)) % 256) as u8
}

/// Appends the bits of octets except the first `bits` ones, and zeros up to the end of the last
/// octet.
pub(crate) fn push_shifted(out: &mut Vec<u8>, first: u8, more: &[u8], bits: usize)
    requires few { bits < 8 }
    requires room { vec_len out.old + (1 + length more.now) ≤ vec_capacity out.old }
    ensures { Shifts bits (first ∷ more.now) out.old.items out.new.items }
{
    let mut previous = first;
    for octet in more {
        out.push_reserved(across(previous, *octet, bits));
        previous = *octet;
    }
    out.push_reserved(across(previous, 0, bits));
}

// Returns an octet with its last `bits` bits cleared.
fn cleared(octet: u8, bits: usize) -> u8
    requires { bits < 8 }
    ensures { bits_of result ≡ take (8 - bits) (bits_of octet) ++ zeros bits }
{
    octet >> bits << bits
}

// Returns an octet shifted down by `bits` bits.
fn moved_down(octet: u8, bits: usize) -> u8
    requires { bits < 8 }
    ensures { drop bits (bits_of result) ≡ take (8 - bits) (bits_of octet) }
{
    octet >> bits
}

/// Clears the last `bits` bits of the last octet.
pub(crate) fn clear_last(octets: &mut Vec<u8>, bits: usize)
    requires { bits < 8 }
    ensures cleared { Clears bits octets.old.items octets.new.items }
    ensures octets { AreOctets octets.new.items }
{
    if let Some(last) = octets.pop() {
        octets.push_reserved(cleared(last, bits));
    }
}

/// Appends octets, of whose last one the last `bits` bits are cleared.
pub(crate) fn push_cleared(out: &mut Vec<u8>, octets: &[u8], bits: usize) -> Result<(), AllocError>
    requires { bits < 8 }
    ensures ok { OnOk result (Clears bits (out.old.items ++ octets.now) out.new.items) }
    ensures octets { OnOk result (AreOctets out.new.items) }
    ensures err { OnErr result (out.new.items ≡ out.old.items) }
{
    out.extend_from_slice(octets)?;
    clear_last(out, bits);
    Ok(())
}

/// Appends the bits of octets to the bits of others, whose last octet has `unused` unused bits. The
/// bits that are appended follow the used bits without a gap.
pub(crate) fn push_joined(out: &mut Vec<u8>, unused: usize, more: &[u8])
    requires few { unused < 8 }
    requires some { 0 < vec_len out.old }
    requires room { vec_len out.old + length more.now ≤ vec_capacity out.old }
    ensures { Joins unused out.old.items more.now out.new.items }
{
    if let Some(last) = out.pop() {
        push_shifted(out, moved_down(last, unused), more, unused);
    }
}

/// Drops the last octet if none of its bits are used, and returns the number of bits that are
/// unused then.
pub(crate) fn shorten(octets: &mut Vec<u8>, unused: usize) -> usize
    requires few { unused < 16 }
    requires held { unused ≤ 8 * length octets.old.items }
    ensures few { result < 8 }
    ensures held { result ≤ 8 * length octets.new.items }
    ensures same { but_last result octets.new.items ≡ but_last unused octets.old.items }
{
    if unused < 8 {
        return unused;
    }
    octets.pop();
    unused - 8
}
