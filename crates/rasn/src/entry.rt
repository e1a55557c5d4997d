//! Reading and writing whole values by rules that are chosen at run time, and what the entry points
//! of the three rules share.
ghost use Rattle.std.specs.Prelude.{◌≡◌, [], IfOk, IfErr, OnOk, OnErr, MatchResult, false};
ghost use Rattle.std.specs.Fn.{FnOnceTakesAtMut, FnOnceReturnsAtMut};
ghost use Rattle.rasn_types.specs.Bytes.{Bytes};
ghost use Rattle.rasn_de.specs.State.{IsEnd};
ghost use Rattle.rasn_de.specs.Beyond.{got};
ghost use Rattle.rasn.specs.Headline.{Answered, AnsweredAlone, BeyondFirst, IsExtraData, ScopeRefuses, EncodingFails};
ghost use Rattle.rasn.specs.Refusals.{FailsFirst, FailsAlone};
ghost use Rattle.rasn_enc.specs.View.{started};
ghost use Rattle.rasn_enc.specs.Closures.{OnlyAppends, WritesOutput};
ghost use Rattle.rasn_enc.specs.Primitive.{IsAllocError};

use rasn_de::ber::de::{Decoder, DecoderOptions};
use rasn_de::de::Decode;
use rasn_enc::ber::enc::{Encoder, EncoderOptions, INITIAL_CAPACITY};
use rasn_enc::enc::Encode;
use rasn_types::error::{DecodeError, DecodeErrorKind, EncodeError, EncodeErrorKind};
use rasn_types::types::Codec;
use std::alloc::Global;
use std::mem;

/// Reads an input that is exactly one value by these rules. The value is exactly the one to which
/// the grammar relates the input with no rest.
///
/// Under DER it does what `der::decode` does. `ber::decode` and `cer::decode` ignore octets after
/// the value, and this function refuses them.
///
/// # Errors
/// The error of `T::decode`, or `UnexpectedExtraData` with the number of octets if octets follow
/// the value (X.690 8.1.1.1), if the input isn't one value of the type; `OutOfMemory` if an
/// allocation fails.
///
/// # Examples
/// ```
/// let value: bool = rasn::decode(alloc, Codec::Ber, &[0x01, 0x01, 0x05])?;
/// // `value` is true
/// let octets: &[u8] = &[0x01, 0x01, 0xFF, 0x00, 0x00];
/// let refused = rasn::decode::<bool>(alloc, Codec::Ber, octets);
/// // `refused` is the error UnexpectedExtraData { length: 2 }
/// ```
#[inline(always)]
pub fn decode<T: Decode>(alloc: Global, codec: Codec, input: &[u8]) -> Result<T, DecodeError>
    ensures exact { AnsweredAlone codec T.shape T.tree input.now result }
    ensures beyond { IfOk result (λ v. BeyondFirst (got (T.beyond T.TAG)) codec input.now v []) }
    ensures errors { IfErr result (FailsAlone (T.errors T.TAG T.CONSTRAINTS) codec T.shape input.now) }
    ensures rules { IfErr result (λ e. e.codec ≡ codec) }
{
    let (value, remainder) = decode_with_remainder(alloc, codec, input)?;
    refuse_remainder(codec, remainder)?;
    Ok(value)
}

/// Reads the value at the front of the input by these rules, and returns it with the remaining
/// octets. The value and the remainder are exactly those to which the grammar relates the input.
///
/// The remainder is a suffix of the input, so the value has `input.len() - remainder.len()` octets.
///
/// # Errors
/// The error of `T::decode` if the input doesn't begin with a value of the type; `OutOfMemory` if
/// an allocation fails.
///
/// # Examples
/// ```
/// let octets: &[u8] = &[0x01, 0x01, 0xFF, 0x00];
/// let (value, remainder) = rasn::decode_with_remainder::<bool>(alloc, Codec::Cer, octets)?;
/// // `value` is true, and `remainder` is the octet 00
/// ```
#[inline(always)]
pub fn decode_with_remainder<T: Decode>(
    alloc: Global,
    codec: Codec,
    input: &[u8],
) -> Result<(T, &[u8]), DecodeError>
    ensures exact { Answered codec T.shape T.tree input.now result }
    ensures beyond { IfOk result (λ read. BeyondFirst (got (T.beyond T.TAG)) codec input.now read.0 read.1.now) }
    ensures errors { IfErr result (FailsFirst (T.errors T.TAG T.CONSTRAINTS) codec input.now) }
    ensures end { IfOk result (λ read. IsEnd input.now read.1.now) }
    ensures rules { IfErr result (λ e. e.codec ≡ codec) }
{
    let mut decoder = Decoder::new(alloc, input, DecoderOptions::of(codec));
    let value = T::decode(&mut decoder)?;
    Ok((value, decoder.remaining()))
}

/// Refuses octets that follow a value, such as the remainder of `decode_with_remainder`
/// (X.690 8.1.1.1).
///
/// # Errors
/// `UnexpectedExtraData` with the number of octets and these rules if there are any octets.
///
/// # Examples
/// ```
/// let (first, remainder) = rasn::decode_with_remainder::<bool>(alloc, Codec::Der, octets)?;
/// let (second, remainder) = rasn::decode_with_remainder::<Integer>(alloc, Codec::Der, remainder)?;
/// rasn::refuse_remainder(Codec::Der, remainder)?;
/// // the octets are these two values, and nothing else
/// ```
#[inline(always)]
pub fn refuse_remainder(codec: Codec, remainder: &[u8]) -> Result<(), DecodeError>
    ensures { MatchResult result (λ _. remainder.now ≡ []) (IsExtraData codec remainder.now) }
{
    if remainder.is_empty() {
        return Ok(());
    }
    Err(DecodeError {
        kind: DecodeErrorKind::UnexpectedExtraData {
            length: remainder.len(),
        },
        codec,
    })
}

/// Returns the value's octets.
#[inline(always)]
pub(crate) fn encode<T: Encode>(
    alloc: Global,
    value: &T,
    options: EncoderOptions,
) -> Result<Vec<u8>, EncodeError>
    ensures ok { IfOk result (λ octets. Bytes options T.shape (T.tree value.now) octets.items) }
    ensures fails { IfErr result (EncodingFails options T.shape (T.tree value.now)) }
    ensures rules { IfErr result (λ e. e.codec ≡ options) }
{
    let Ok(buffer) = Vec::with_capacity(alloc, INITIAL_CAPACITY) else {
        return Err(out_of_memory(options));
    };
    encode_over(alloc, value, buffer, options)
}

// Writes the value's octets into this vector, replacing what it holds, and returns the vector.
#[inline(always)]
fn encode_over<T: Encode>(
    alloc: Global,
    value: &T,
    buffer: Vec<u8>,
    options: EncoderOptions,
) -> Result<Vec<u8>, EncodeError>
    ensures ok { IfOk result (λ octets. Bytes options T.shape (T.tree value.now) octets.items) }
    ensures fails { IfErr result (EncodingFails options T.shape (T.tree value.now)) }
    ensures rules { IfErr result (λ e. e.codec ≡ options) }
{
    let mut encoder = Encoder::over(alloc, options, buffer);
    value.encode(&mut encoder)?;
    encoder.output()
}

/// Writes the value's octets into the vector, replacing what it holds. On error, the vector is
/// empty.
pub(crate) fn encode_buf<T: Encode>(
    alloc: Global,
    value: &T,
    buffer: &mut Vec<u8>,
    options: EncoderOptions,
) -> Result<(), EncodeError>
    ensures ok { OnOk result (Bytes options T.shape (T.tree value.now) buffer.new.items) }
    ensures emptied { OnErr result (buffer.new.items ≡ []) }
    ensures fails { IfErr result (EncodingFails options T.shape (T.tree value.now)) }
    ensures rules { IfErr result (λ e. e.codec ≡ options) }
{
    let mut held = mem::replace(buffer, Vec::new(alloc));
    held.clear();
    match held.reserve(INITIAL_CAPACITY) {
        Ok(()) => {
            *buffer = encode_over(alloc, value, held, options)?;
            Ok(())
        }
        Err(_) => Err(out_of_memory(options)),
    }
}

fn out_of_memory(options: EncoderOptions) -> EncodeError
    ensures { IsAllocError options result }
{
    EncodeError {
        kind: EncodeErrorKind::OutOfMemory,
        codec: options.current_codec(),
    }
}

/// Returns the octets that the closure `values` writes.
pub(crate) fn encode_scope<F: FnOnce(&mut Encoder) -> Result<(), EncodeError>>(
    alloc: Global,
    values: F,
    options: EncoderOptions,
) -> Result<Vec<u8>, EncodeError>
    requires callable { FnOnceTakesAtMut F.FnOnce values (started options false) }
    requires keeps { OnlyAppends F.FnOnce values (started options false) }
    ensures ok { IfOk result (λ octets. WritesOutput F.FnOnce values options octets.items) }
    ensures fails { IfErr result (ScopeRefuses F.FnOnce values options) }
{
    let Ok(buffer) = Vec::with_capacity(alloc, INITIAL_CAPACITY) else {
        return Err(out_of_memory(options));
    };
    let mut encoder = Encoder::over(alloc, options, buffer);
    run(&mut encoder, values)?;
    encoder.output()
}

// Calls a closure that writes.
fn run<F: FnOnce(&mut Encoder) -> Result<(), EncodeError>>(
    encoder: &mut Encoder,
    values: F,
) -> Result<(), EncodeError>
    requires { FnOnceTakesAtMut F.FnOnce values encoder.old }
    ensures { FnOnceReturnsAtMut F.FnOnce values encoder.old result encoder.new }
{
    values(encoder)
}
