//! Values of a known type in an open type (X.681 14, X.690 8.15).
ghost use Rattle.std.specs.Prelude.{[], IfOk, IfErr, MatchResult, ◌≡◌};
ghost use Rattle.rasn_types.specs.declared.types.tag.Tag.{Tag};
ghost use Rattle.rasn_types.specs.Tags.{form};
ghost use Rattle.rasn_types.specs.Framing.{NextTag};
ghost use Rattle.rasn_types.specs.Bytes.{Bytes};
ghost use Rattle.rasn_de.specs.Beyond.{got};
ghost use Rattle.rasn_de.specs.Steps.{PeeksTag};
ghost use Rattle.rasn_types.specs.Errors.{IsOutOfMemory};
ghost use Rattle.rasn.specs.Headline.{AnsweredAlone, BeyondFirst, front, EncodingFails};
ghost use Rattle.rasn.specs.Refusals.{FailsAlone};

use crate::entry;
use rasn_de::ber::de::{Decoder, DecoderOptions};
use rasn_de::de::Decode;
use rasn_enc::ber::enc::EncoderOptions;
use rasn_enc::enc::Encode;
use rasn_types::error::{DecodeError, EncodeError};
use rasn_types::types::{Any, Codec, Tag};
use std::alloc::Global;

/// Returns the value's octets by these rules, as an open type.
///
/// # Errors
/// Those of `ber::encode`, `cer::encode` and `der::encode`.
///
/// # Examples
/// ```
/// let any = rasn::encode_any(alloc, Codec::Der, &true)?;
/// // `any` has the octets 01 01 FF (X.690 8.2, 11.1)
/// ```
pub fn encode_any<T: Encode>(alloc: Global, rules: Codec, value: &T) -> Result<Any, EncodeError>
    ensures ok { IfOk result (λ any. Bytes rules T.shape (T.tree value.now) any) }
    ensures fails { IfErr result (EncodingFails rules T.shape (T.tree value.now)) }
    ensures rules { IfErr result (λ e. e.codec ≡ rules) }
{
    let octets = entry::encode(alloc, value, EncoderOptions::of(rules))?;
    Ok(Any::new(octets))
}

/// Reads the octets of an open type, which must be exactly one value by these rules.
///
/// # Errors
/// Those of `rasn::decode`, such as `UnexpectedExtraData` if octets follow the value
/// (X.690 8.1.1.1).
///
/// # Examples
/// ```
/// let any = rasn::encode_any(alloc, Codec::Der, &true)?;
/// let value = rasn::decode_any::<bool>(alloc, Codec::Der, &any)?;
/// // `value` is true
/// ```
pub fn decode_any<T: Decode>(alloc: Global, rules: Codec, any: &Any) -> Result<T, DecodeError>
    ensures exact { AnsweredAlone rules T.shape T.tree any.now result }
    ensures beyond { IfOk result (λ v. BeyondFirst (got (T.beyond T.TAG)) rules any.now v []) }
    ensures errors { IfErr result (FailsAlone (T.errors T.TAG T.CONSTRAINTS) rules T.shape any.now) }
    ensures rules { IfErr result (λ e. e.codec ≡ rules) }
{
    entry::decode(alloc, rules, any.as_bytes())
}

/// Returns the outermost tag of what an open type holds, by these rules.
///
/// # Errors
/// Those of `Decoder::peek_tag` if the octets don't begin with an identifier (X.690 8.1.2).
///
/// # Examples
/// ```
/// let any = rasn::encode_any(alloc, Codec::Der, &true)?;
/// let tag = rasn::any_tag(alloc, Codec::Der, &any)?;
/// // `tag` is universal 1
/// ```
pub fn any_tag(alloc: Global, rules: Codec, any: &Any) -> Result<Tag, DecodeError>
    ensures next { MatchResult result (λ t. NextTag (form rules) any.now t) (λ e. (t : Tag) → NextTag (form rules) any.now t → ⊥) }
    ensures exact { PeeksTag (front rules any.now) result }
    ensures memory { IfErr result (λ e. IsOutOfMemory e.kind → ⊥) }
    ensures rules { IfErr result (λ e. e.codec ≡ rules) }
{
    Decoder::new(alloc, any.as_bytes(), DecoderOptions::of(rules)).peek_tag()
}
