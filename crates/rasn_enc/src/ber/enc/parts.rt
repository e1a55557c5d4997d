//! Writing a SEQUENCE or a SET whose parts are types (X.690 8.9, 8.11), nested to the right, each
//! with its presence (X.680 25).
ghost use Rattle.std.specs.Prelude.{◌≡◌, ◌⊎◌, IfOk, IfErr, OnOk, OnErr};
ghost use Rattle.rasn_types.specs.Shapes.{seq, set};
ghost use Rattle.rasn_enc.specs.Encoding.{AppendsEncoding, EncodeFails};
ghost use Rattle.rasn_enc.specs.Sequence.{EncodesParts};
ghost use Rattle.rasn_enc.specs.Set.{FailsAtSet};
ghost use Rattle.rasn_enc.specs.Primitive.{IsOrderError};
ghost use Rattle.rasn_enc.specs.ValueErrors.{IsAllocErrorOr};

use crate::ber::enc::Encoder;
use crate::enc::Encode;
use rasn_types::error::EncodeError;
use rasn_types::types::{AsnType, DefaultValue, End, ExplicitDefault, Identifier, Tag};
use std::alloc::AllocError;

/// Parts that are written in their order: [`Put`], [`PutOptional`], [`PutOptionalChoice`],
/// [`PutDefault`], [`PutDefaultChoice`], [`PutDefaultExplicit`] and [`PutAddition`], each with the
/// parts after it, and [`End`] after the last.
pub trait EncodeParts: Drop {
    ghost use Rattle.rasn_types.specs.Shapes.{Parts, Tree};
    ghost use Rattle.rasn_types.specs.declared.types.codec.Codec.{Codec};
    ghost use Rattle.rasn_types.specs.declared.error.encode.EncodeError.{EncodeError};

    ghost parts: { Parts };

    ghost tree: { Self → Tree };

    /// Which errors the parts have under these rules.
    ghost errors: { Self → Codec → EncodeError → Type 0 };

    /// Writes the parts.
    ///
    /// # Errors
    /// The error of a part.
    fn encode_parts(self, encoder: &mut Encoder) -> Result<(), EncodeError>
        ensures writes { EncodesParts parts (tree self) encoder.old result encoder.new }
        ensures errors { IfErr result (errors self encoder.old.rule) }
        ensures rules { IfErr result (λ e. e.codec ≡ encoder.old.rule) };
}

/// A required part, and the parts after it.
#[derive(Drop)]
pub struct Put<'a, A, R>(pub &'a A, pub R);

/// A part that may be left out (X.680 25.5), and the parts after it.
#[derive(Drop)]
pub struct PutOptional<'a, A, R>(pub &'a Option<A>, pub R);

/// A CHOICE that may be left out (X.680 25.5), and the parts after it. It is written as
/// [`PutOptional`] writes it, and read as a part that is recognized by its first tags.
#[derive(Drop)]
pub struct PutOptionalChoice<'a, A, R>(pub &'a Option<A>, pub R);

/// A part that is left out if it equals its default (X.690 11.5), and the parts after it.
#[derive(Drop)]
pub struct PutDefault<'a, V: DefaultValue, R>(pub &'a V::Value, pub R);

/// A CHOICE that is left out if it equals its default (X.690 11.5), and the parts after it. It is
/// written as [`PutDefault`] writes it, and read as a part that is recognized by its first tags.
#[derive(Drop)]
pub struct PutDefaultChoice<'a, V: DefaultValue, R>(pub &'a V::Value, pub R);

/// A part under an explicit tag that is left out if it equals its default
/// (X.690 11.5; X.680 31.2.7), and the parts after it.
#[derive(Drop)]
pub struct PutDefaultExplicit<'a, V: ExplicitDefault, R>(pub &'a V::Value, pub R);

/// An extension addition under an explicit tag (X.680 25.4), which is left out if there is no
/// value, and the parts after it.
#[derive(Drop)]
pub struct PutAddition<'a, A, R>(pub &'a Option<A>, pub R);

impl EncodeParts for End {
    ghost use Rattle.rasn_types.specs.Shapes.{done};
    ghost use Rattle.rasn_types.specs.Shapes.Parts.{none};

    ghost parts = { none };

    ghost tree = { λ e. done };

    ghost errors = { λ e rule x. ⊥ };

    fn encode_parts(self, _encoder: &mut Encoder) -> Result<(), EncodeError> {
        Ok(())
    }
}

impl<'a, A: Encode, R: EncodeParts> EncodeParts for Put<'a, A, R> {
    ghost use Rattle.rasn_enc.specs.ValueErrors.{IsErrorOfParts};
    ghost use Rattle.rasn_types.specs.Shapes.{part, required, joined};

    ghost parts = { part required A.shape R.parts };

    ghost tree = { λ p. joined (A.tree p.0.now) (R.tree p.1) };

    ghost errors = { λ p rule. IsErrorOfParts rule required A.shape (A.tree p.0.now) (A.errors A.TAG A.CONSTRAINTS p.0.now rule) (R.errors p.1 rule) };

    fn encode_parts(self, encoder: &mut Encoder) -> Result<(), EncodeError> {
        let Put(value, rest) = self;
        value.encode(encoder)?;
        rest.encode_parts(encoder)
    }
}

impl<'a, A: Encode, R: EncodeParts> EncodeParts for PutOptional<'a, A, R> {
    ghost use Rattle.rasn_enc.specs.ValueErrors.{IsErrorOfOption, IsErrorOfParts};
    ghost use Rattle.rasn_types.specs.Shapes.{part, optional, joined};
    ghost use Rattle.rasn_types.specs.Trees.{option_tree};

    ghost parts = { part optional A.shape R.parts };

    ghost tree = { λ p. joined (option_tree A.tree p.0.now) (R.tree p.1) };

    ghost errors = { λ p rule. IsErrorOfParts rule optional A.shape (option_tree A.tree p.0.now) (IsErrorOfOption (λ v. A.errors A.TAG A.CONSTRAINTS v rule) p.0.now) (R.errors p.1 rule) };

    fn encode_parts(self, encoder: &mut Encoder) -> Result<(), EncodeError> {
        let PutOptional(value, rest) = self;
        value.encode(encoder)?;
        rest.encode_parts(encoder)
    }
}

impl<'a, A: Encode, R: EncodeParts> EncodeParts for PutOptionalChoice<'a, A, R> {
    ghost use Rattle.rasn_enc.specs.ValueErrors.{IsErrorOfOption, IsErrorOfParts};
    ghost use Rattle.rasn_types.specs.Shapes.{part, optional_choice, joined};
    ghost use Rattle.rasn_types.specs.Trees.{option_tree};

    ghost parts = { part optional_choice A.shape R.parts };

    ghost tree = { λ p. joined (option_tree A.tree p.0.now) (R.tree p.1) };

    ghost errors = { λ p rule. IsErrorOfParts rule optional_choice A.shape (option_tree A.tree p.0.now) (IsErrorOfOption (λ v. A.errors A.TAG A.CONSTRAINTS v rule) p.0.now) (R.errors p.1 rule) };

    fn encode_parts(self, encoder: &mut Encoder) -> Result<(), EncodeError> {
        let PutOptionalChoice(value, rest) = self;
        value.encode(encoder)?;
        rest.encode_parts(encoder)
    }
}

impl<'a, V: DefaultValue, R: EncodeParts> EncodeParts for PutDefault<'a, V, R>
where
    V::Value: Encode,
{
    ghost use Rattle.rasn_enc.specs.ValueErrors.{IsAllocErrorOr, IsErrorOfParts};
    ghost use Rattle.rasn_types.specs.Shapes.{part, default, joined};

    ghost parts = { part (default V.default_tree) V.Value.shape R.parts };

    ghost tree = { λ p. joined (V.Value.tree p.0.now) (R.tree p.1) };

    ghost errors = { λ p rule. IsErrorOfParts rule (default V.default_tree) V.Value.shape (V.Value.tree p.0.now) (IsAllocErrorOr rule (V.Value.errors V.Value.TAG V.Value.CONSTRAINTS p.0.now rule)) (R.errors p.1 rule) };

    fn encode_parts(self, encoder: &mut Encoder) -> Result<(), EncodeError> {
        let PutDefault(value, rest) = self;
        let alloc = encoder.alloc();
        encoder.encode_default(
            value,
            move || -> Result<V::Value, AllocError>
                ensures { IfOk result (λ v. V.Value.tree v ≡ V.default_tree) }
            { V::default_value(alloc) },
            Identifier::EMPTY,
        )?;
        rest.encode_parts(encoder)
    }
}

impl<'a, V: DefaultValue, R: EncodeParts> EncodeParts for PutDefaultChoice<'a, V, R>
where
    V::Value: Encode,
{
    ghost use Rattle.rasn_enc.specs.ValueErrors.{IsAllocErrorOr, IsErrorOfParts};
    ghost use Rattle.rasn_types.specs.Shapes.{part, default_choice, joined};

    ghost parts = { part (default_choice V.default_tree) V.Value.shape R.parts };

    ghost tree = { λ p. joined (V.Value.tree p.0.now) (R.tree p.1) };

    ghost errors = { λ p rule. IsErrorOfParts rule (default_choice V.default_tree) V.Value.shape (V.Value.tree p.0.now) (IsAllocErrorOr rule (V.Value.errors V.Value.TAG V.Value.CONSTRAINTS p.0.now rule)) (R.errors p.1 rule) };

    fn encode_parts(self, encoder: &mut Encoder) -> Result<(), EncodeError> {
        let PutDefaultChoice(value, rest) = self;
        let alloc = encoder.alloc();
        encoder.encode_default(
            value,
            move || -> Result<V::Value, AllocError>
                ensures { IfOk result (λ v. V.Value.tree v ≡ V.default_tree) }
            { V::default_value(alloc) },
            Identifier::EMPTY,
        )?;
        rest.encode_parts(encoder)
    }
}

impl<'a, V: ExplicitDefault, R: EncodeParts> EncodeParts for PutDefaultExplicit<'a, V, R>
where
    V::Value: Encode,
{
    ghost use Rattle.rasn_enc.specs.ValueErrors.{IsAllocErrorOr, IsErrorOfParts};
    ghost use Rattle.rasn_types.specs.Shapes.{part, default, prefix, joined};

    ghost parts = { part (default V.default_tree) (prefix V.Prefix.TAG V.Value.shape) R.parts };

    ghost tree = { λ p. joined (V.Value.tree p.0.now) (R.tree p.1) };

    ghost errors = { λ p rule. IsErrorOfParts rule (default V.default_tree) (prefix V.Prefix.TAG V.Value.shape) (V.Value.tree p.0.now) (IsAllocErrorOr rule (V.Value.errors V.Value.TAG V.Value.CONSTRAINTS p.0.now rule)) (R.errors p.1 rule) };

    fn encode_parts(self, encoder: &mut Encoder) -> Result<(), EncodeError> {
        let PutDefaultExplicit(value, rest) = self;
        let alloc = encoder.alloc();
        encoder.encode_default_with_explicit_prefix(
            V::Prefix::TAG,
            value,
            move || -> Result<V::Value, AllocError>
                ensures { IfOk result (λ v. V.Value.tree v ≡ V.default_tree) }
            { V::default_value(alloc) },
            Identifier::EMPTY,
        )?;
        rest.encode_parts(encoder)
    }
}

impl<'a, A: Encode, R: EncodeParts> EncodeParts for PutAddition<'a, A, R> {
    ghost use Rattle.rasn_enc.specs.ValueErrors.{IsErrorOfOption, IsErrorOfParts};
    ghost use Rattle.rasn_types.specs.Shapes.{part, addition, joined};
    ghost use Rattle.rasn_types.specs.Trees.{option_tree};

    ghost parts = { part addition A.shape R.parts };

    ghost tree = { λ p. joined (option_tree A.tree p.0.now) (R.tree p.1) };

    ghost errors = { λ p rule. IsErrorOfParts rule addition A.shape (option_tree A.tree p.0.now) (IsErrorOfOption (λ v. A.errors A.TAG A.CONSTRAINTS v rule) p.0.now) (R.errors p.1 rule) };

    fn encode_parts(self, encoder: &mut Encoder) -> Result<(), EncodeError> {
        let PutAddition(value, rest) = self;
        value.encode(encoder)?;
        rest.encode_parts(encoder)
    }
}

impl Encoder {
    /// Writes a SEQUENCE (X.690 8.9) of these parts.
    ///
    /// # Errors
    /// The error of a part, otherwise only `OutOfMemory`. On error, nothing is written.
    pub fn write_sequence<P: EncodeParts>(&mut self, tag: Tag, parts: P) -> Result<(), EncodeError>
        ensures ok { OnOk result (AppendsEncoding (seq tag P.parts) (P.tree parts) self.old self.new) }
        ensures err { OnErr result (self.new ≡ self.old) }
        ensures refused { IfErr result (EncodeFails (seq tag P.parts) (P.tree parts) self.old) }
        ensures errors { IfErr result (IsAllocErrorOr self.old.rule (P.errors parts self.old.rule)) }
        ensures rules { IfErr result (λ e. e.codec ≡ self.old.rule) }
    {
        self.enclose(
            tag,
            false,
            |inner: &mut Encoder| -> Result<(), EncodeError>
                ensures writes { EncodesParts P.parts (P.tree parts) inner.old result inner.new }
                ensures errors { IfErr result (P.errors parts inner.old.rule) }
                ensures rules { IfErr result (λ e. e.codec ≡ inner.old.rule) }
            { parts.encode_parts(inner) },
        )
    }

    /// Writes a SET (X.690 8.11) of these parts. Under all rules they are written in the order
    /// given, and their outermost tags must be in ascending order (X.690 9.3, 10.3; X.680 8.6).
    ///
    /// # Errors
    /// The error of a part; `SetOutOfOrder` if a tag is below the one before it; otherwise only
    /// `OutOfMemory`. On error, nothing is written.
    pub fn write_set<P: EncodeParts>(&mut self, tag: Tag, parts: P) -> Result<(), EncodeError>
        ensures ok { OnOk result (AppendsEncoding (set tag P.parts) (P.tree parts) self.old self.new) }
        ensures err { OnErr result (self.new ≡ self.old) }
        ensures refused { IfErr result (EncodeFails (set tag P.parts) (P.tree parts) self.old) }
        ensures fails { IfErr result (FailsAtSet P.parts (P.tree parts) self.old) }
        ensures errors { IfErr result (IsAllocErrorOr self.old.rule (λ e. IsOrderError self.old.rule e ⊎ P.errors parts self.old.rule e)) }
        ensures rules { IfErr result (λ e. e.codec ≡ self.old.rule) }
    {
        self.enclose_in_order(
            tag,
            |inner: &mut Encoder| -> Result<(), EncodeError>
                ensures writes { EncodesParts P.parts (P.tree parts) inner.old result inner.new }
                ensures errors { IfErr result (P.errors parts inner.old.rule) }
                ensures rules { IfErr result (λ e. e.codec ≡ inner.old.rule) }
            { parts.encode_parts(inner) },
        )
    }
}
