//! The traits of types that can be decoded.
ghost use Rattle.std.specs.Prelude.{◌≡◌, IfErr};
ghost use Rattle.rasn_types.specs.Framing.{NextTag};
ghost use Rattle.rasn_types.specs.Tags.{form};
ghost use Rattle.rasn_types.specs.Shapes.{tagged_as};
ghost use Rattle.rasn_de.specs.Decodes.{Decodes};

use crate::ber::de::Decoder;
pub use error::Error;
use rasn_types::error::DecodeError;
use rasn_types::types::{AsnType, Constraints, Tag};

mod error;

/// A type whose values can be decoded. Unless an allocation fails, a call succeeds exactly if the
/// grammar relates the remaining input to a tree and a rest; the value then has this tree, and the
/// rest remains.
pub trait Decode: AsnType {
    ghost use Rattle.rasn_types.specs.declared.types.tag.Tag.{Tag};
    ghost use Rattle.rasn_types.specs.declared.types.constraints.Constraints.{Constraints};
    ghost use Rattle.rasn_de.specs.State.{Call};
    ghost use Rattle.rasn_de.specs.ValueErrors.{Errors};

    /// What a contract says, besides the tree, of a call that reads a value under a tag: what the
    /// value keeps of its octets, such as the offset of a time. By default it says nothing.
    ghost beyond: { Tag → Call Self } = { λ _ _ _ _. Unit {0} };

    /// What a contract says of an error, besides that the value can't be read or an allocation
    /// fails: which errors a call has under a tag and constraints. By default it says nothing.
    ghost errors: { Tag → Constraints → Errors } = { λ _ _ _ _ _. Unit {0} };

    /// Reads a value that has this outermost tag and these constraints in place of the type's own.
    ///
    /// # Errors
    /// Returns an error if no such value follows, or if an allocation fails.
    fn decode_with_tag_and_constraints(
        decoder: &mut Decoder<'_>,
        tag: Tag,
        constraints: &Constraints,
    ) -> Result<Self, DecodeError>
        ensures reads { Decodes (tagged_as tag constraints.now Self.shape) Self.tree decoder.old result decoder.new }
        ensures beyond { Self.beyond tag decoder.old result decoder.new }
        ensures errors { IfErr result (λ e. Self.errors tag constraints.now decoder.old e decoder.new) }
        ensures rules { IfErr result (λ e. e.codec ≡ decoder.old.rule) };

    /// Reads a value.
    ///
    /// # Errors
    /// As `decode_with_tag_and_constraints`.
    #[inline(always)]
    final fn decode(decoder: &mut Decoder<'_>) -> Result<Self, DecodeError>
        ensures reads { Decodes Self.shape Self.tree decoder.old result decoder.new }
        ensures beyond { Self.beyond Self.TAG decoder.old result decoder.new }
        ensures errors { IfErr result (λ e. Self.errors Self.TAG Self.CONSTRAINTS decoder.old e decoder.new) }
        ensures rules { IfErr result (λ e. e.codec ≡ decoder.old.rule) }
    {
        Self::decode_with_tag_and_constraints(decoder, Self::TAG, &Self::CONSTRAINTS)
    }

    /// Reads a value that has this outermost tag in place of the type's own.
    ///
    /// # Errors
    /// As `decode_with_tag_and_constraints`.
    final fn decode_with_tag(decoder: &mut Decoder<'_>, tag: Tag) -> Result<Self, DecodeError>
        ensures reads { Decodes (tagged_as tag Self.CONSTRAINTS Self.shape) Self.tree decoder.old result decoder.new }
        ensures beyond { Self.beyond tag decoder.old result decoder.new }
        ensures errors { IfErr result (λ e. Self.errors tag Self.CONSTRAINTS decoder.old e decoder.new) }
        ensures rules { IfErr result (λ e. e.codec ≡ decoder.old.rule) }
    {
        Self::decode_with_tag_and_constraints(decoder, tag, &Self::CONSTRAINTS)
    }

    /// Reads a value that has these constraints in place of the type's own.
    ///
    /// # Errors
    /// As `decode_with_tag_and_constraints`.
    final fn decode_with_constraints(
        decoder: &mut Decoder<'_>,
        constraints: &Constraints,
    ) -> Result<Self, DecodeError>
        ensures reads { Decodes (tagged_as Self.TAG constraints.now Self.shape) Self.tree decoder.old result decoder.new }
        ensures beyond { Self.beyond Self.TAG decoder.old result decoder.new }
        ensures errors { IfErr result (λ e. Self.errors Self.TAG constraints.now decoder.old e decoder.new) }
        ensures rules { IfErr result (λ e. e.codec ≡ decoder.old.rule) }
    {
        Self::decode_with_tag_and_constraints(decoder, Self::TAG, constraints)
    }
}

/// A CHOICE that can be decoded (X.680 29). Its shape consists of the alternatives, none of which
/// is optional, with an extension marker or without one.
pub trait DecodeChoice: AsnType {
    ghost use Rattle.std.specs.Prelude.{◌≡◌, Bool, false};
    ghost use Rattle.rasn_types.specs.Shapes.{Parts, choice_by};
    ghost use Rattle.rasn_de.specs.State.{Call};
    ghost use Rattle.rasn_de.specs.ValueErrors.{Errors};

    ghost alternatives: { Parts };

    /// Whether the CHOICE has an extension marker.
    ghost extensible: { Bool } = { false };

    /// What a contract says, besides the tree, of a call that reads an alternative, as `beyond` of
    /// `Decode` does. By default it says nothing.
    ghost beyond: { Call Self } = { λ _ _ _. Unit {0} };

    /// Which errors a call that reads an alternative has, as `errors` of `Decode`. By default it
    /// says nothing.
    ghost errors: { Errors } = { λ _ _ _. Unit {0} };

    /// Reads the alternative that begins with this tag. The caller has already looked at the tag:
    /// it is that of the next value, as returned by `Decoder::peek_tag`, and isn't universal 0.
    /// `Decoder::decode_choice` calls the function in this way.
    ///
    /// # Errors
    /// The error of the alternative. If no alternative has the tag, `NoValidChoice` or, with an
    /// extension marker, the error of `Decoder::decode_any` without a tag.
    fn from_tag(decoder: &mut Decoder<'_>, tag: Tag) -> Result<Self, DecodeError>
        requires { NextTag (form decoder.old.rule) decoder.old.rest tag }
        ensures reads { Decodes Self.shape Self.tree decoder.old result decoder.new }
        ensures beyond { Self.beyond decoder.old result decoder.new }
        ensures errors { IfErr result (λ e. Self.errors decoder.old e decoder.new) }
        ensures rules { IfErr result (λ e. e.codec ≡ decoder.old.rule) };

    ghost chooses: { Self.AsnType.shape ≡ choice_by extensible alternatives };
}
