//! Primitive values, appended to octets: the header and the contents together.
ghost use Rattle.std.specs.Prelude.{ℕ, List, ◌≡◌, ◌≤◌, ◌+◌, ◌++◌, length, take, vec_len, vec_capacity, OnOk, OnErr};
ghost use Rattle.rasn_enc.specs.Buffer.Contents.{AppendsOctets, AppendsPrimitiveOctets};

use crate::ber::enc::writer::headers::{
    identifier_len, length_len, write_identifier, write_length,
};
use rasn_types::ber::is_always_constructed;
use rasn_types::types::Tag;
use std::alloc::AllocError;

/// The contents octets of a primitive encoding. Their number is known before they are written, so
/// that the length octets can be written first.
pub trait Contents {
    ghost use Rattle.std.specs.Prelude.{ℕ, List};

    /// The octets that may be written.
    ghost IsWritten: { Self → List ℕ → Type 0 };

    /// Returns the number of octets.
    fn count(&self) -> usize
        ensures { (l : List ℕ) → IsWritten self.now l → length l ≡ result };

    /// Appends the octets, or some of them if an allocation fails.
    fn append(&self, octets: &mut Vec<u8>) -> Result<(), AllocError>
        requires { (l : List ℕ) → IsWritten self.now l → vec_len octets.old + length l ≤ vec_capacity octets.old }
        ensures ok { OnOk result (AppendsOctets (IsWritten self.now) octets.old.items octets.new.items) }
        ensures err { OnErr result ((l : List ℕ) × (octets.new.items ≡ octets.old.items ++ l)) };
}

/// Contents octets that are already in a slice.
impl Contents for &[u8] {
    ghost use Rattle.std.specs.Prelude.{◌≡◌};

    ghost IsWritten = { λ value l. l ≡ value.now };

    #[inline(always)]
    fn count(&self) -> usize {
        self.len()
    }

    #[inline(always)]
    fn append(&self, octets: &mut Vec<u8>) -> Result<(), AllocError> {
        octets.extend_from_slice(self)
    }
}

/// Appends contents octets. If an allocation fails, nothing is appended.
pub fn append_contents<T: Contents>(octets: &mut Vec<u8>, contents: &T) -> Result<(), AllocError>
    ensures ok { OnOk result (AppendsOctets (T.IsWritten contents.now) octets.old.items octets.new.items) }
    ensures err { OnErr result (octets.new.items ≡ octets.old.items) }
{
    let start = octets.len();
    octets.reserve(contents.count())?;
    append_reserved(octets, contents, start)
}

/// Appends a primitive value: the header, then the contents.
#[inline(always)]
pub fn append_primitive<T: Contents>(
    octets: &mut Vec<u8>,
    tag: Tag,
    contents: &T,
) -> Result<(), AllocError>
    ensures ok { OnOk result (AppendsPrimitiveOctets (T.IsWritten contents.now) tag octets.old.items octets.new.items) }
    ensures err { OnErr result (octets.new.items ≡ octets.old.items) }
{
    let start = octets.len();
    let count = contents.count();
    let header = identifier_len(tag) + length_len(count);
    let Some(all) = header.checked_add(count) else {
        return Err(AllocError);
    };
    octets.reserve(all)?;
    write_identifier(octets, tag, is_always_constructed(tag));
    write_length(octets, count);
    append_reserved(octets, contents, start)
}

/// Appends contents octets for which there is room. If an allocation fails, the octets from `start`
/// on are removed.
#[inline(always)]
fn append_reserved<T: Contents>(
    octets: &mut Vec<u8>,
    contents: &T,
    start: usize,
) -> Result<(), AllocError>
    requires room { (l : List ℕ) → T.IsWritten contents.now l → vec_len octets.old + length l ≤ vec_capacity octets.old }
    requires within { start ≤ vec_len octets.old }
    ensures ok { OnOk result (AppendsOctets (T.IsWritten contents.now) octets.old.items octets.new.items) }
    ensures err { OnErr result (octets.new.items ≡ take start octets.old.items) }
{
    match contents.append(octets) {
        Ok(()) => Ok(()),
        Err(_) => {
            octets.truncate(start);
            Err(AllocError)
        }
    }
}
