//! Types of whole messages.
ghost use Rattle.std.specs.Prelude.{◌≡◌, [], IfOk, IfErr};
ghost use Rattle.rasn_types.specs.declared.types.codec.Codec.TheVariants.{Der};
ghost use Rattle.rasn_types.specs.Bytes.{Bytes};
ghost use Rattle.rasn_types.specs.Truth.{IsWhether};
ghost use Rattle.rasn_de.specs.State.{IsEnd};
ghost use Rattle.rasn_de.specs.Beyond.{got};
ghost use Rattle.rasn.specs.Headline.{Answered, AnsweredAlone, BeyondFirst, IsCarriedAsWritten, Identifies, EncodingFails};
ghost use Rattle.rasn.specs.Refusals.{FailsFirst, FailsAlone};
ghost use Rattle.rasn.specs.Messages.{IsReadBack};
ghost use Rattle.rasn.specs.Normal.{IsNormal};

use crate::{der, entry};
use rasn_de::de::Decode;
use rasn_enc::enc::Encode;
use rasn_types::error::{DecodeError, EncodeError};
use rasn_types::types::{Codec, LawfulEq};
use std::alloc::{AllocError, Global};

/// A type of whole messages, such as certificates, with the rules by which they are read. Its shape is lawful, and everything that DER reads of it is carried, so what reading and
/// writing promise needs no premise.
///
/// # Examples
/// ```
/// impl WholeMessage for Account {
///     ghost use Rattle.std.specs.Prelude.{refl};
///     ghost use Rattle.rasn_types.specs.declared.types.codec.Codec.TheVariants.{Der};
///
///     ghost RULES = { Der };
///
///     const RULES: Codec = Codec::Der;
///
///     ghost whole = { refl };
/// }
/// // `refl` is refused if the shape isn't lawful (X.680 25.6, 27.3, 29.3).
/// let account = Account::read(alloc, octets)?;
/// ```
pub trait WholeMessage: Decode + Encode + LawfulEq {
    ghost use Rattle.std.specs.Prelude.{true};
    ghost use Rattle.rasn_types.specs.declared.types.codec.Codec.{Codec};
    ghost use Rattle.rasn.specs.Messages.{is_whole};

    /// The rules by which the standard has messages read. They are written by DER.
    const RULES: Codec;

    ghost RULES: { Codec };

    ghost whole: { is_whole Self.shape ≡ true };

    /// Reads the message that is the whole input, by the rules of the standard. Unless an
    /// allocation fails, the call succeeds exactly if the input is a message by the grammar. If the
    /// rules are DER, `write` returns the same octets of the message.
    ///
    /// # Errors
    /// The error of `decode`, or `UnexpectedExtraData` with the number of octets if octets follow
    /// the message (X.690 8.1.1.1); `OutOfMemory` if an allocation fails.
    ///
    /// # Examples
    /// ```
    /// let certificate = Certificate::read(alloc, octets)?;
    /// // `certificate.write(alloc)?` has the same octets
    /// ```
    #[inline(always)]
    final fn read(alloc: Global, input: &[u8]) -> Result<Self, DecodeError>
        ensures exact { AnsweredAlone RULES Self.shape Self.tree input.now result }
        ensures beyond { IfOk result (λ v. BeyondFirst (got (Self.beyond Self.TAG)) RULES input.now v []) }
        ensures errors { IfErr result (FailsAlone (Self.Decode.errors Self.TAG Self.CONSTRAINTS) RULES Self.shape input.now) }
        ensures written { RULES ≡ Der → IsCarriedAsWritten Self.shape Self.tree input.now result }
        ensures rules { IfErr result (λ e. e.codec ≡ RULES) }
    {
        entry::decode(alloc, Self::RULES, input)
    }

    /// Reads the message at the front of the input, by the rules of the standard, and returns it with
    /// the rest of the input, such as the next message of a connection. Unless an allocation fails,
    /// the call succeeds exactly if the input begins with a message by the grammar.
    ///
    /// # Errors
    /// The error of `decode`, such as `Incomplete` for a message of which octets are still missing;
    /// `OutOfMemory` if an allocation fails.
    ///
    /// # Examples
    /// ```
    /// // What a connection has received: perhaps several messages, the last one in part
    /// let (message, rest) = LdapMessage::read_with_remainder(alloc, received)?;
    /// ```
    #[inline(always)]
    final fn read_with_remainder(alloc: Global, input: &[u8]) -> Result<(Self, &[u8]), DecodeError>
        ensures exact { Answered RULES Self.shape Self.tree input.now result }
        ensures beyond { IfOk result (λ read. BeyondFirst (got (Self.beyond Self.TAG)) RULES input.now read.0 read.1.now) }
        ensures errors { IfErr result (FailsFirst (Self.Decode.errors Self.TAG Self.CONSTRAINTS) RULES input.now) }
        ensures end { IfOk result (λ read. IsEnd input.now read.1.now) }
        ensures rules { IfErr result (λ e. e.codec ≡ RULES) }
    {
        entry::decode_with_remainder(alloc, Self::RULES, input)
    }

    /// Reads the message that is the whole input, by DER, whatever the rules of the standard are.
    /// Unless an allocation fails, the call succeeds exactly if the input is a message by the
    /// grammar of DER, and then `write` returns the same octets of the message.
    ///
    /// # Errors
    /// As `read`, under DER.
    ///
    /// # Examples
    /// ```
    /// // LDAP is read by BER, and a stored message has to be in DER.
    /// let message = LdapMessage::read_der(alloc, octets)?;
    /// ```
    #[inline(always)]
    final fn read_der(alloc: Global, input: &[u8]) -> Result<Self, DecodeError>
        ensures exact { AnsweredAlone Der Self.shape Self.tree input.now result }
        ensures beyond { IfOk result (λ v. BeyondFirst (got (Self.beyond Self.TAG)) Der input.now v []) }
        ensures errors { IfErr result (FailsAlone (Self.Decode.errors Self.TAG Self.CONSTRAINTS) Der Self.shape input.now) }
        ensures written { IsCarriedAsWritten Self.shape Self.tree input.now result }
        ensures rules { IfErr result (λ e. e.codec ≡ Der) }
    {
        der::decode(alloc, input)
    }

    /// Returns the DER octets of the message. Two carried messages have the same octets exactly if
    /// the messages are the same. DER and BER read the octets back as the same message, whatever
    /// follows them, unless it is nested more than 128 deep or a number has too many octets.
    ///
    /// # Errors
    /// The error of `encode` if the message has no DER octets, such as one with elements of a
    /// SET OF out of order (X.690 11.6); `OutOfMemory` if an allocation fails.
    ///
    /// # Examples
    /// ```
    /// let octets = certificate.write(alloc)?;
    /// // DER reads `octets` as a certificate that is the same
    /// ```
    #[inline(always)]
    final fn write(&self, alloc: Global) -> Result<Vec<u8>, EncodeError>
        ensures ok { IfOk result (λ octets. Bytes Der Self.shape (Self.tree self.now) octets.items) }
        ensures canonical { IfOk result (λ octets. Identifies Self.shape (Self.tree self.now) octets.items) }
        ensures read_back { IfOk result (λ octets. IsReadBack Self.shape (Self.tree self.now) octets.items) }
        ensures fails { IfErr result (EncodingFails Der Self.shape (Self.tree self.now)) }
        ensures rules { IfErr result (λ e. e.codec ≡ Der) }
    {
        der::encode(alloc, self)
    }

    /// Returns whether the octets are the one DER encoding of a message (X.690 10, 11).
    ///
    /// # Errors
    /// `AllocError` if an allocation fails.
    ///
    /// # Examples
    /// ```
    /// let is_der = LdapMessage::is_canonical(alloc, octets)?;
    /// // false of a message that only BER reads
    /// ```
    final fn is_canonical(alloc: Global, octets: &[u8]) -> Result<bool, AllocError>
        ensures { IfOk result (λ answer. IsWhether answer (IsNormal Der Self.shape octets.now octets.now)) }
    {
        der::is_canonical::<Self>(alloc, octets)
    }
}
