//! A SEQUENCE whose parts are described by a type (X.690 8.9): nested to the right, each with its
//! presence (X.680 25).
ghost use Rattle.std.specs.Prelude.{◌≡◌, true, IfOk, IfErr};
ghost use Rattle.rasn_types.specs.Shapes.{seq};
ghost use Rattle.rasn_de.specs.Decodes.{Decodes, DecodesParts};
ghost use Rattle.rasn_de.specs.Beyond.{BeyondInside};
ghost use Rattle.rasn_de.specs.Constructed.{sequence_header};
ghost use Rattle.rasn_de.specs.PartTypes.{needs_no_initializer, FailsAtPart, DecodesInParts, DecodesSequenceParts};

use crate::ber::de::Decoder;
use crate::ber::de::constructed::ConstructedHeader;
use crate::de::Decode;
use rasn_types::error::DecodeError;
use rasn_types::types::{AsnType, DefaultValue, End, ExplicitDefault, FirstTags, Tag};
use std::alloc::AllocError;

/// Parts that are read in their order: [`Required`], [`Optional`], [`OptionalChoice`],
/// [`Defaulted`], [`DefaultedChoice`], [`DefaultedExplicit`] and [`Addition`], each with those
/// after it, and [`End`] after the last.
pub trait DecodeParts: Drop {
    ghost use Rattle.std.specs.Prelude.{Bool};
    ghost use Rattle.rasn_types.specs.Shapes.{Parts, Tree};
    ghost use Rattle.rasn_de.specs.State.{State};
    ghost use Rattle.rasn_de.specs.ValueErrors.{Errors};

    ghost parts: { Parts };

    ghost tree: { Self → Tree };

    /// What the parts keep of their octets beyond their trees.
    ghost beyond: { State → Self → State → Type 0 } = { λ _ _ _. Unit {0} };

    /// Which errors a call that reads the parts has, besides what `fails` says.
    ghost errors: { Errors } = { λ _ _ _. Unit {0} };

    /// Whether each part that may be left out is looked for by its own tag, unless it is a CHOICE
    /// that is looked for by its first tags.
    ghost tags_agree: { Bool };

    /// Reads the parts.
    ///
    /// # Errors
    /// The error of the first part that can't be read.
    fn decode_parts(decoder: &mut Decoder<'_>) -> Result<Self, DecodeError>
        requires { tags_agree ≡ true }
        ensures reads { DecodesParts parts tree decoder.old result decoder.new }
        ensures fails { IfErr result (λ e. FailsAtPart parts decoder.old e decoder.new) }
        ensures errors { IfErr result (λ e. errors decoder.old e decoder.new) }
        ensures beyond { IfOk result (λ v. beyond decoder.old v decoder.new) }
        ensures rules { IfErr result (λ e. e.codec ≡ decoder.old.rule) };
}

/// A part that must be present, and those after it.
#[derive(Debug, Drop)]
pub struct Required<A, R>(pub A, pub R);

/// A part that may be left out (X.680 25.5), and those after it.
#[derive(Debug, Drop)]
pub struct Optional<A, R>(pub Option<A>, pub R);

/// A CHOICE that may be left out (X.680 25.5), and those after it. It is present if one of the
/// first tags of its type follows.
#[derive(Debug, Drop)]
pub struct OptionalChoice<A, R>(pub Option<A>, pub R);

/// A part that has a default if it is left out (X.680 25.8), and those after it.
#[derive(Drop)]
pub struct Defaulted<V: DefaultValue, R>(pub V::Value, pub R);

/// A CHOICE that has a default if it is left out (X.680 25.8), and those after it. It is present if
/// one of the first tags of its type follows.
#[derive(Drop)]
pub struct DefaultedChoice<V: DefaultValue, R>(pub V::Value, pub R);

/// A part under an explicit tag that has a default if it is left out (X.680 25.8, 31.2.7), and
/// those after it. The value is stored without the tag.
#[derive(Drop)]
pub struct DefaultedExplicit<V: ExplicitDefault, R>(pub V::Value, pub R);

/// An extension addition under an explicit tag, which must be present (X.680 25.4), and the parts
/// after it. The value is never `None`.
#[derive(Debug, Drop)]
pub struct Addition<A, R>(pub Option<A>, pub R);

impl DecodeParts for End {
    ghost use Rattle.std.specs.Prelude.{true};
    ghost use Rattle.rasn_types.specs.Shapes.{done};
    ghost use Rattle.rasn_types.specs.Shapes.Parts.{none};

    ghost parts = { none };

    ghost tree = { λ e. done };

    ghost errors = { λ _ _ _. ⊥ };

    ghost tags_agree = { true };

    #[inline(always)]
    fn decode_parts(_decoder: &mut Decoder<'_>) -> Result<End, DecodeError> {
        Ok(End)
    }
}

impl<A: Decode, R: DecodeParts> DecodeParts for Required<A, R> {
    ghost use Rattle.rasn_de.specs.Beyond.{got, BeyondPart};
    ghost use Rattle.rasn_types.specs.Shapes.{part, required, joined};
    ghost use Rattle.rasn_de.specs.PartTypes.{IsErrorOfParts};

    ghost parts = { part required A.shape R.parts };

    ghost tree = { λ p. joined (A.tree p.0) (R.tree p.1) };

    ghost beyond = { λ old p new. BeyondPart required A.shape A.tree (got (A.beyond A.TAG)) R.beyond old p.0 p.1 new };

    ghost errors = { IsErrorOfParts required A.shape (A.errors A.TAG A.CONSTRAINTS) R.errors };

    ghost tags_agree = { R.tags_agree };

    #[inline(always)]
    fn decode_parts(decoder: &mut Decoder<'_>) -> Result<Required<A, R>, DecodeError> {
        let value = A::decode(decoder)?;
        let rest = R::decode_parts(decoder)?;
        Ok(Required(value, rest))
    }
}

impl<A: Decode, R: DecodeParts> DecodeParts for Optional<A, R> {
    ghost use Rattle.rasn_de.specs.Beyond.{got, BeyondOptional, BeyondPart};
    ghost use Rattle.std.specs.Prelude.{◌&&◌};
    ghost use Rattle.rasn_types.specs.Shapes.{part, optional, joined};
    ghost use Rattle.rasn_types.specs.Trees.{option_tree};
    ghost use Rattle.rasn_de.specs.PartTypes.{is_looked_for, IsErrorOfParts};
    ghost use Rattle.rasn_de.specs.Optional.{DecodesIfPresent};
    ghost use Rattle.rasn_de.specs.ValueErrors.{errors_of, DecodesOr};

    ghost parts = { part optional A.shape R.parts };

    ghost tree = { λ p. joined (option_tree A.tree p.0) (R.tree p.1) };

    ghost beyond = { λ old p new. BeyondPart optional A.shape (option_tree A.tree) (BeyondOptional (got (A.beyond A.TAG))) R.beyond old p.0 p.1 new };

    ghost errors = { IsErrorOfParts optional A.shape (errors_of (DecodesIfPresent (DecodesOr A.shape A.tree (A.errors A.TAG A.CONSTRAINTS)) A.TAG)) R.errors };

    ghost tags_agree = { is_looked_for A.shape A.TAG && R.tags_agree };

    fn decode_parts(decoder: &mut Decoder<'_>) -> Result<Optional<A, R>, DecodeError> {
        let value = decoder.decode_optional::<A>()?;
        let rest = R::decode_parts(decoder)?;
        Ok(Optional(value, rest))
    }
}

impl<A: Decode + FirstTags, R: DecodeParts> DecodeParts for OptionalChoice<A, R> {
    ghost use Rattle.rasn_de.specs.Beyond.{got, BeyondOptional, BeyondPart};
    ghost use Rattle.rasn_types.specs.Shapes.{part, optional_choice, joined, IsFirst, any_of};
    ghost use Rattle.rasn_types.specs.Trees.{option_tree};
    ghost use Rattle.rasn_de.specs.Optional.{DecodesIfSought};
    ghost use Rattle.rasn_de.specs.PartTypes.{IsErrorOfParts};
    ghost use Rattle.rasn_de.specs.ValueErrors.{errors_of, DecodesOr};

    ghost parts = { part optional_choice A.shape R.parts };

    ghost tree = { λ p. joined (option_tree A.tree p.0) (R.tree p.1) };

    ghost beyond = { λ old p new. BeyondPart optional_choice A.shape (option_tree A.tree) (BeyondOptional (got (A.beyond A.TAG))) R.beyond old p.0 p.1 new };

    ghost errors = { IsErrorOfParts optional_choice A.shape (errors_of (DecodesIfSought (DecodesOr A.shape A.tree (A.errors A.TAG A.CONSTRAINTS)) (any_of (IsFirst A.shape)))) R.errors };

    ghost tags_agree = { R.tags_agree };

    fn decode_parts(decoder: &mut Decoder<'_>) -> Result<OptionalChoice<A, R>, DecodeError> {
        let value = decoder.decode_optional_choice::<A>()?;
        let rest = R::decode_parts(decoder)?;
        Ok(OptionalChoice(value, rest))
    }
}

impl<V: DefaultValue, R: DecodeParts> DecodeParts for Defaulted<V, R>
where
    V::Value: Decode,
{
    ghost use Rattle.rasn_de.specs.Beyond.{got, BeyondDefault, BeyondPart};
    ghost use Rattle.std.specs.Prelude.{◌&&◌, ◌≡◌, IfOk};
    ghost use Rattle.rasn_types.specs.Shapes.{part, default, joined};
    ghost use Rattle.rasn_de.specs.PartTypes.{is_looked_for, IsErrorOfParts};
    ghost use Rattle.rasn_de.specs.Optional.{DecodesOrDefault};
    ghost use Rattle.rasn_de.specs.ValueErrors.{errors_of, DecodesOr};

    ghost parts = { part (default V.default_tree) V.Value.shape R.parts };

    ghost tree = { λ p. joined (V.Value.tree p.0) (R.tree p.1) };

    ghost beyond = { λ old p new. BeyondPart (default V.default_tree) V.Value.shape V.Value.tree (BeyondDefault (got (V.Value.beyond V.Value.TAG))) R.beyond old p.0 p.1 new };

    ghost errors = { IsErrorOfParts (default V.default_tree) V.Value.shape (errors_of (DecodesOrDefault (DecodesOr V.Value.shape V.Value.tree (V.Value.errors V.Value.TAG V.Value.CONSTRAINTS)) V.Value.tree (λ made. IfOk made (λ v. V.Value.tree v ≡ V.default_tree)) V.Value.TAG)) R.errors };

    ghost tags_agree = { is_looked_for V.Value.shape V.Value.TAG && R.tags_agree };

    fn decode_parts(decoder: &mut Decoder<'_>) -> Result<Defaulted<V, R>, DecodeError> {
        let alloc = decoder.alloc();
        let value = decoder.decode_default::<V::Value, _>(
            || -> Result<V::Value, AllocError>
                ensures { IfOk result (λ v. V.Value.tree v ≡ V.default_tree) }
            { V::default_value(alloc) },
        )?;
        let rest = R::decode_parts(decoder)?;
        Ok(Defaulted(value, rest))
    }
}

impl<V: DefaultValue, R: DecodeParts> DecodeParts for DefaultedChoice<V, R>
where
    V::Value: Decode + FirstTags,
{
    ghost use Rattle.rasn_de.specs.Beyond.{got, BeyondDefault, BeyondPart};
    ghost use Rattle.rasn_types.specs.Shapes.{part, default_choice, joined, IsFirst, any_of};
    ghost use Rattle.std.specs.Prelude.{◌≡◌, IfOk};
    ghost use Rattle.rasn_de.specs.Optional.{DecodesSoughtOrDefault};
    ghost use Rattle.rasn_de.specs.PartTypes.{IsErrorOfParts};
    ghost use Rattle.rasn_de.specs.ValueErrors.{errors_of, DecodesOr};

    ghost parts = { part (default_choice V.default_tree) V.Value.shape R.parts };

    ghost tree = { λ p. joined (V.Value.tree p.0) (R.tree p.1) };

    ghost beyond = { λ old p new. BeyondPart (default_choice V.default_tree) V.Value.shape V.Value.tree (BeyondDefault (got (V.Value.beyond V.Value.TAG))) R.beyond old p.0 p.1 new };

    ghost errors = { IsErrorOfParts (default_choice V.default_tree) V.Value.shape (errors_of (DecodesSoughtOrDefault (DecodesOr V.Value.shape V.Value.tree (V.Value.errors V.Value.TAG V.Value.CONSTRAINTS)) V.Value.tree (λ made. IfOk made (λ v. V.Value.tree v ≡ V.default_tree)) (any_of (IsFirst V.Value.shape)))) R.errors };

    ghost tags_agree = { R.tags_agree };

    fn decode_parts(decoder: &mut Decoder<'_>) -> Result<DefaultedChoice<V, R>, DecodeError> {
        let alloc = decoder.alloc();
        let value = decoder.decode_default_choice::<V::Value, _>(
            || -> Result<V::Value, AllocError>
                ensures { IfOk result (λ v. V.Value.tree v ≡ V.default_tree) }
            { V::default_value(alloc) },
        )?;
        let rest = R::decode_parts(decoder)?;
        Ok(DefaultedChoice(value, rest))
    }
}

impl<V: ExplicitDefault, R: DecodeParts> DecodeParts for DefaultedExplicit<V, R>
where
    V::Value: Decode,
{
    ghost use Rattle.rasn_de.specs.Beyond.{got, BeyondDefault, BeyondPart, BeyondPrefix};
    ghost use Rattle.std.specs.Prelude.{◌&&◌, ◌≡◌, IfOk};
    ghost use Rattle.rasn_types.specs.Shapes.{part, default, prefix, joined};
    ghost use Rattle.rasn_de.specs.PartTypes.{is_looked_for, IsErrorOfParts};
    ghost use Rattle.rasn_de.specs.Optional.{DecodesOrDefault};
    ghost use Rattle.rasn_de.specs.Prefix.{DecodesPrefixBy};
    ghost use Rattle.rasn_de.specs.ValueErrors.{errors_of};

    ghost parts = { part (default V.default_tree) (prefix V.Prefix.TAG V.Value.shape) R.parts };

    ghost tree = { λ p. joined (V.Value.tree p.0) (R.tree p.1) };

    ghost beyond = { λ old p new. BeyondPart (default V.default_tree) (prefix V.Prefix.TAG V.Value.shape) V.Value.tree (BeyondDefault (BeyondPrefix (got (V.Value.beyond V.Value.TAG)) V.Prefix.TAG)) R.beyond old p.0 p.1 new };

    ghost errors = { IsErrorOfParts (default V.default_tree) (prefix V.Prefix.TAG V.Value.shape) (errors_of (DecodesOrDefault (DecodesPrefixBy V.Value.shape V.Value.tree (V.Value.errors V.Value.TAG V.Value.CONSTRAINTS) V.Prefix.TAG) V.Value.tree (λ made. IfOk made (λ v. V.Value.tree v ≡ V.default_tree)) V.Prefix.TAG)) R.errors };

    ghost tags_agree = { is_looked_for (prefix V.Prefix.TAG V.Value.shape) V.Prefix.TAG && R.tags_agree };

    fn decode_parts(decoder: &mut Decoder<'_>) -> Result<DefaultedExplicit<V, R>, DecodeError> {
        let alloc = decoder.alloc();
        let value = decoder.decode_default_with_explicit_prefix::<V::Value, _>(
            V::Prefix::TAG,
            || -> Result<V::Value, AllocError>
                ensures { IfOk result (λ v. V.Value.tree v ≡ V.default_tree) }
            { V::default_value(alloc) },
        )?;
        let rest = R::decode_parts(decoder)?;
        Ok(DefaultedExplicit(value, rest))
    }
}

impl<A: Decode, R: DecodeParts> DecodeParts for Addition<A, R> {
    ghost use Rattle.rasn_de.specs.Beyond.{got, BeyondOptional, BeyondPart};
    ghost use Rattle.rasn_types.specs.Shapes.{part, addition, joined};
    ghost use Rattle.rasn_types.specs.Trees.{option_tree};
    ghost use Rattle.rasn_de.specs.PartTypes.{IsErrorOfParts};

    ghost parts = { part addition A.shape R.parts };

    ghost tree = { λ p. joined (option_tree A.tree p.0) (R.tree p.1) };

    ghost beyond = { λ old p new. BeyondPart addition A.shape (option_tree A.tree) (BeyondOptional (got (A.beyond A.TAG))) R.beyond old p.0 p.1 new };

    ghost errors = { IsErrorOfParts addition A.shape (A.errors A.TAG A.CONSTRAINTS) R.errors };

    ghost tags_agree = { R.tags_agree };

    fn decode_parts(decoder: &mut Decoder<'_>) -> Result<Addition<A, R>, DecodeError> {
        let value = A::decode(decoder)?;
        let rest = R::decode_parts(decoder)?;
        Ok(Addition(Some(value), rest))
    }
}

impl<'input> Decoder<'input> {
    /// Reads the parts of a SEQUENCE (X.690 8.9). If the contents are empty, all parts that may be
    /// left out are left out.
    ///
    /// # Errors
    /// - `ExceedsMaxParseDepth`, which is checked before the header, and framing errors: nothing is
    ///   consumed.
    /// - `InvalidConstructedIdentifier`: the value is consumed.
    /// - The error of a part, and `UnexpectedExtraData` if definite contents remain: the header and
    ///   the contents are consumed, or only the header if the length is indefinite.
    /// - Missing end-of-contents octets (`Incomplete`, `MissingEndOfContents`): what was read
    ///   inside is consumed too.
    #[inline(always)]
    pub fn read_sequence<P: DecodeParts>(&mut self, tag: Tag) -> Result<P, DecodeError>
        requires tags_agree { P.tags_agree ≡ true }
        requires no_initializer { needs_no_initializer P.parts ≡ true }
        ensures exact { DecodesSequenceParts P.parts P.tree P.errors tag self.old result self.new }
        ensures reads { Decodes (seq tag P.parts) P.tree self.old result self.new }
        ensures beyond { IfOk result (λ v. BeyondInside P.beyond (sequence_header tag) self.old v) }
        ensures rules { IfErr result (λ e. e.codec ≡ self.old.rule) }
    {
        self.inside(
            ConstructedHeader::sequence(tag),
            |inner| -> Result<P, DecodeError>
                requires { P.tags_agree ≡ true }
                ensures exact { DecodesInParts P.parts P.tree P.errors inner.old result inner.new }
                ensures reads { DecodesParts P.parts P.tree inner.old result inner.new }
                ensures rules { IfErr result (λ e. e.codec ≡ inner.old.rule) }
                ensures beyond { IfOk result (λ v. P.beyond inner.old v inner.new) }
            { P::decode_parts(inner) },
        )
    }
}
