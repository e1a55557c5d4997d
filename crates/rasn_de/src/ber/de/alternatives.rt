//! A CHOICE whose alternatives are described by a type (X.690 8.13): the first, or one of the
//! others.
ghost use Rattle.std.specs.Prelude.{◌≡◌, true, IfOk, IfErr};
ghost use Rattle.rasn_types.specs.Framing.{NextTag};
ghost use Rattle.rasn_types.specs.Tags.{form};
ghost use Rattle.rasn_types.specs.Shapes.{choice_by, chosen, IsFirstOf};
ghost use Rattle.rasn_types.specs.Truth.{IsWhether};
ghost use Rattle.rasn_de.specs.Decodes.{Decodes};
ghost use Rattle.rasn_de.specs.AlternativeTypes.{DecodesNumbered, FailsAtAlternativeBy, DecodesAlternativeBy};
ghost use Rattle.rasn_de.specs.ValueErrors.{IsErrorByTag};

use crate::ber::de::Decoder;
use crate::de::{Decode, Error};
use rasn_types::error::DecodeError;
use rasn_types::types::{Any, Last, OneOf, Tag};

/// Alternatives, each of which has a tag of its own: [`OneOf`] for each one with those after it,
/// and [`Last`] for the last. If the CHOICE has an extension marker (X.680 29), the list ends with
/// [`Any`] in place of `Last`: a value with any other tag is an alternative that the type doesn't
/// name, and is kept as its octets.
pub trait DecodeAlternatives: Drop {
    ghost use Rattle.std.specs.Prelude.{Bool, false, ℕ};
    ghost use Rattle.rasn_de.specs.State.{State};
    ghost use Rattle.rasn_types.specs.Shapes.{Parts, Tree};
    ghost use Rattle.rasn_types.specs.declared.types.tag.Tag.{Tag};
    ghost use Rattle.rasn_de.specs.ValueErrors.{Errors};

    ghost parts: { Parts };

    /// Whether the CHOICE has an extension marker.
    ghost extensible: { Bool } = { false };

    ghost number: { Self → ℕ };

    ghost inner: { Self → Tree };

    /// What the alternative keeps of its octets beyond its tree.
    ghost beyond: { State → Self → State → Type 0 } = { λ _ _ _. Unit {0} };

    /// Which errors a call has that reads the alternative with this tag, besides what `fails` says.
    ghost errors: { Tag → Errors } = { λ _ _ _ _. Unit {0} };

    /// Whether each alternative has a tag of its own, which no other has.
    ghost tags_differ: { Bool };

    /// Returns whether an alternative has this tag. The unknown alternative has none of its own.
    fn has_tag(tag: Tag) -> bool
        requires differ { tags_differ ≡ true }
        ensures { IsWhether result (IsFirstOf parts tag) };

    /// Reads the alternative that has this tag, which must be the next tag.
    ///
    /// # Errors
    /// The error of the alternative. If no alternative has the tag, `NoValidChoice` with this name
    /// or, with an extension marker, the error of `Decoder::decode_any` without a tag.
    fn decode_alternative(
        decoder: &mut Decoder<'_>,
        tag: Tag,
        name: &str,
    ) -> Result<Self, DecodeError>
        requires next { NextTag (form decoder.old.rule) decoder.old.rest tag }
        requires differ { tags_differ ≡ true }
        ensures reads { DecodesNumbered extensible parts number inner decoder.old result decoder.new }
        ensures fails { IfErr result (λ e. FailsAtAlternativeBy extensible parts name.now tag decoder.old e decoder.new) }
        ensures errors { IfErr result (λ e. errors tag decoder.old e decoder.new) }
        ensures beyond { IfOk result (λ v. beyond decoder.old v decoder.new) }
        ensures rules { IfErr result (λ e. e.codec ≡ decoder.old.rule) };
}

impl<A: Decode> DecodeAlternatives for Last<A> {
    ghost use Rattle.std.specs.Prelude.{true, ◌&&◌, Ok};
    ghost use Rattle.rasn_types.specs.Shapes.{part, required};
    ghost use Rattle.rasn_types.specs.Shapes.Parts.{none};
    ghost use Rattle.rasn_de.specs.AlternativeTypes.{is_first_alone};
    ghost use Rattle.rasn_de.specs.ValueErrors.{IsErrorOfAlternative};

    ghost parts = { part required A.shape none };

    ghost number = { λ v. 0 };

    ghost inner = { λ v. A.tree v.0 };

    ghost beyond = { λ old v new. A.beyond A.TAG old (Ok v.0) new };

    ghost errors = { IsErrorOfAlternative A.TAG (A.errors A.TAG A.CONSTRAINTS) (λ _ _ _ _. Unit {0}) };

    ghost tags_differ = { is_first_alone A.shape A.TAG none && true };

    fn has_tag(tag: Tag) -> bool {
        tag == A::TAG
    }

    fn decode_alternative(
        decoder: &mut Decoder<'_>,
        tag: Tag,
        name: &str,
    ) -> Result<Last<A>, DecodeError> {
        if tag == A::TAG {
            let value = A::decode(decoder)?;
            return Ok(Last(value));
        }
        Err(DecodeError::no_valid_choice(decoder.alloc(), name, decoder.codec()))
    }
}

/// The unknown alternative of a CHOICE with an extension marker (X.680 29): one complete encoding
/// with a tag that no alternative has.
impl DecodeAlternatives for Any {
    ghost use Rattle.std.specs.Prelude.{true};
    ghost use Rattle.rasn_types.specs.Shapes.{numbers};
    ghost use Rattle.rasn_types.specs.Shapes.Parts.{none};

    ghost parts = { none };

    ghost extensible = { true };

    ghost number = { λ v. 0 };

    ghost inner = { numbers };

    ghost tags_differ = { true };

    fn has_tag(_tag: Tag) -> bool {
        false
    }

    fn decode_alternative(
        decoder: &mut Decoder<'_>,
        _tag: Tag,
        _name: &str,
    ) -> Result<Any, DecodeError> {
        decoder.decode_any(Tag::EOC)
    }
}

impl<A: Decode, R: DecodeAlternatives> DecodeAlternatives for OneOf<A, R> {
    ghost use Rattle.std.specs.Prelude.{◌&&◌};
    ghost use Rattle.rasn_types.specs.Shapes.{part, required};
    ghost use Rattle.rasn_types.specs.OwnTypes.{one_of_number, one_of_tree};
    ghost use Rattle.rasn_de.specs.Beyond.{got, BeyondOneOf};
    ghost use Rattle.rasn_de.specs.AlternativeTypes.{is_first_alone};
    ghost use Rattle.rasn_de.specs.ValueErrors.{IsErrorOfAlternative};

    ghost parts = { part required A.shape R.parts };

    ghost extensible = { R.extensible };

    ghost number = { one_of_number R.number };

    ghost inner = { one_of_tree A.tree R.inner };

    ghost beyond = { BeyondOneOf (got (A.beyond A.TAG)) R.beyond };

    ghost errors = { IsErrorOfAlternative A.TAG (A.errors A.TAG A.CONSTRAINTS) R.errors };

    ghost tags_differ = { is_first_alone A.shape A.TAG R.parts && R.tags_differ };

    fn has_tag(tag: Tag) -> bool {
        tag == A::TAG || R::has_tag(tag)
    }

    fn decode_alternative(
        decoder: &mut Decoder<'_>,
        tag: Tag,
        name: &str,
    ) -> Result<OneOf<A, R>, DecodeError> {
        if tag == A::TAG {
            let value = A::decode(decoder)?;
            return Ok(OneOf::This(value));
        }
        let other = R::decode_alternative(decoder, tag, name)?;
        Ok(OneOf::Other(other))
    }
}

impl<'input> Decoder<'input> {
    /// Reads the alternative of a CHOICE that the next tag belongs to (X.690 8.13). `name` is the
    /// name of the type, which the error for any other tag contains. If the alternatives end with
    /// [`Any`], the CHOICE has an extension marker (X.680 29): a value with any other tag is kept
    /// as its octets, which are read as `decode_any` reads a value without a tag of its own.
    ///
    /// # Errors
    /// An error in the next identifier or `NoValidChoice`, which consume nothing, or the error of
    /// the alternative. With an extension marker, the error of `decode_any` in place of
    /// `NoValidChoice`.
    pub fn read_choice<P: DecodeAlternatives>(&mut self, name: &str) -> Result<P, DecodeError>
        requires { P.tags_differ ≡ true }
        ensures exact { DecodesAlternativeBy P.extensible P.parts (λ v. chosen (P.number v) (P.inner v)) name.now self.old result self.new }
        ensures reads { Decodes (choice_by P.extensible P.parts) (λ v. chosen (P.number v) (P.inner v)) self.old result self.new }
        ensures errors { IfErr result (λ e. IsErrorByTag P.errors self.old e self.new) }
        ensures beyond { IfOk result (λ v. P.beyond self.old v self.new) }
        ensures rules { IfErr result (λ e. e.codec ≡ self.old.rule) }
    {
        let tag = self.peek_tag()?;
        P::decode_alternative(self, tag, name)
    }
}
