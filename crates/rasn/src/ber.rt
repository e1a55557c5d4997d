//! Reading and writing one value by the basic encoding rules (X.690 8).
ghost use Rattle.std.specs.Prelude.{ℕ, List, ◌≡◌, [], IfOk, IfErr, OnOk, OnErr, false};
ghost use Rattle.std.specs.Fn.{FnOnceTakesAtMut};
ghost use Rattle.rasn_types.specs.Bytes.{Bytes};
ghost use Rattle.rasn_types.specs.declared.types.codec.Codec.TheVariants.{Ber};
ghost use Rattle.rasn_de.specs.State.{IsEnd};
ghost use Rattle.rasn_de.specs.Beyond.{got};
ghost use Rattle.rasn.specs.Headline.{Answered, AnsweredFirst, BeyondFirst, ScopeRefuses, EncodingFails};
ghost use Rattle.rasn.specs.Refusals.{FailsFirst};
ghost use Rattle.rasn_enc.specs.View.{started};
ghost use Rattle.rasn_enc.specs.Closures.{OnlyAppends, WritesOutput};

use crate::entry;
pub use rasn_de::ber::de;
use rasn_de::de::Decode;
pub use rasn_enc::ber::enc;
use rasn_enc::ber::enc::{Encoder, EncoderOptions};
use rasn_enc::enc::Encode;
pub use rasn_types::ber::Identifier;
use rasn_types::error::{DecodeError, EncodeError};
use rasn_types::types::Codec;
use std::alloc::Global;

/// Reads the value at the front of the input, and ignores the octets after it.
///
/// # Errors
/// Those of `decode_with_remainder`.
///
/// # Examples
/// ```
/// // VisibleString "Jones" in two segments (X.690 8.23)
/// let octets: &[u8] = &[0x3A, 0x09, 0x04, 0x03, 0x4A, 0x6F, 0x6E, 0x04, 0x02, 0x65, 0x73];
/// let name: VisibleString = rasn::ber::decode(alloc, octets)?;
/// // `name` has the octets 4A 6F 6E 65 73
/// ```
#[inline(always)]
pub fn decode<T: Decode>(alloc: Global, input: &[u8]) -> Result<T, DecodeError>
    ensures exact { AnsweredFirst Ber T.shape T.tree input.now result }
    ensures beyond { IfOk result (λ v. (rest : List ℕ) × BeyondFirst (got (T.beyond T.TAG)) Ber input.now v rest) }
    ensures errors { IfErr result (FailsFirst (T.errors T.TAG T.CONSTRAINTS) Ber input.now) }
    ensures rules { IfErr result (λ e. e.codec ≡ Ber) }
{
    let (value, _) = decode_with_remainder(alloc, input)?;
    Ok(value)
}

/// Reads the value at the front of the input, and returns it with the remaining octets, which are a
/// suffix of the input. The value and the remainder are exactly those to which the grammar relates
/// the input.
///
/// # Errors
/// The error of `T::decode` if the input doesn't begin with a value of the type; `OutOfMemory` if
/// an allocation fails.
///
/// # Examples
/// ```
/// // TRUE in a spelling that DER doesn't have (X.690 8.2.2), and an octet after it
/// let input: &[u8] = &[0x01, 0x01, 0x05, 0x00];
/// let (value, rest) = rasn::ber::decode_with_remainder::<bool>(alloc, input)?;
/// // `value` is true, `rest` has the octet 00
/// ```
#[inline(always)]
pub fn decode_with_remainder<T: Decode>(
    alloc: Global,
    input: &[u8],
) -> Result<(T, &[u8]), DecodeError>
    ensures exact { Answered Ber T.shape T.tree input.now result }
    ensures beyond { IfOk result (λ read. BeyondFirst (got (T.beyond T.TAG)) Ber input.now read.0 read.1.now) }
    ensures errors { IfErr result (FailsFirst (T.errors T.TAG T.CONSTRAINTS) Ber input.now) }
    ensures end { IfOk result (λ read. IsEnd input.now read.1.now) }
    ensures rules { IfErr result (λ e. e.codec ≡ Ber) }
{
    entry::decode_with_remainder(alloc, Codec::Ber, input)
}

/// Returns the value's octets.
///
/// # Errors
/// The error of the value's `encode` if the value has no encoding under these rules; `OutOfMemory`
/// if an allocation fails.
///
/// # Examples
/// ```
/// let octets = rasn::ber::encode(alloc, &true)?;
/// // `octets` are 01 01 FF (X.690 8.2)
/// ```
#[inline(always)]
pub fn encode<T: Encode>(alloc: Global, value: &T) -> Result<Vec<u8>, EncodeError>
    ensures ok { IfOk result (λ octets. Bytes Ber T.shape (T.tree value.now) octets.items) }
    ensures fails { IfErr result (EncodingFails Ber T.shape (T.tree value.now)) }
    ensures rules { IfErr result (λ e. e.codec ≡ Ber) }
{
    entry::encode(alloc, value, EncoderOptions::ber())
}

/// Writes the value's octets into the vector, replacing what it holds.
///
/// # Errors
/// Those of `encode`. The vector is then empty.
///
/// # Examples
/// ```
/// let mut buffer = Vec::new(alloc);
/// rasn::ber::encode_buf(alloc, &false, &mut buffer)?;
/// // `buffer` has the octets 01 01 00 (X.690 8.2)
/// ```
pub fn encode_buf<T: Encode>(
    alloc: Global,
    value: &T,
    buffer: &mut Vec<u8>,
) -> Result<(), EncodeError>
    ensures ok { OnOk result (Bytes Ber T.shape (T.tree value.now) buffer.new.items) }
    ensures emptied { OnErr result (buffer.new.items ≡ []) }
    ensures fails { IfErr result (EncodingFails Ber T.shape (T.tree value.now)) }
    ensures rules { IfErr result (λ e. e.codec ≡ Ber) }
{
    entry::encode_buf(alloc, value, buffer, EncoderOptions::ber())
}

/// Returns the octets of the values that the closure `values` writes, one after the other. It may
/// write any number of values.
///
/// # Errors
/// Any error that `values` returns; `OutOfMemory` if an allocation fails.
///
/// # Examples
/// ```
/// let octets = rasn::ber::encode_scope(alloc, |encoder| {
///     true.encode(encoder)?;
///     false.encode(encoder)
/// })?;
/// // `octets` are 01 01 FF 01 01 00 (X.690 8.2)
/// ```
pub fn encode_scope<F: FnOnce(&mut Encoder) -> Result<(), EncodeError>>(
    alloc: Global,
    values: F,
) -> Result<Vec<u8>, EncodeError>
    requires callable { FnOnceTakesAtMut F.FnOnce values (started Ber false) }
    requires keeps { OnlyAppends F.FnOnce values (started Ber false) }
    ensures ok { IfOk result (λ octets. WritesOutput F.FnOnce values Ber octets.items) }
    ensures fails { IfErr result (ScopeRefuses F.FnOnce values Ber) }
{
    entry::encode_scope(alloc, values, EncoderOptions::ber())
}
