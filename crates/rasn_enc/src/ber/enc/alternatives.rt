//! Writing a CHOICE whose alternatives are types (X.690 8.13): the first alternative, or one of the
//! others.
ghost use Rattle.std.specs.Prelude.{◌≡◌, IfErr, OnOk, OnErr};
ghost use Rattle.rasn_types.specs.Shapes.{choice_by, chosen};
ghost use Rattle.rasn_enc.specs.Encoding.{AppendsEncoding, EncodeFails};

use crate::ber::enc::Encoder;
use crate::enc::Encode;
use rasn_types::error::EncodeError;
use rasn_types::types::{Any, Identifier, Last, OneOf, Tag};

/// An alternative of a CHOICE: [`OneOf`] for each alternative except the last, of a reference to
/// its value and the alternatives after it, and [`Last`] for the last. If the CHOICE has an
/// extension marker (X.680 29), the list ends with a reference to [`Any`] in place of `Last`: an
/// alternative that the type doesn't name, which is kept as its octets.
pub trait EncodeAlternative: Drop {
    ghost use Rattle.std.specs.Prelude.{ℕ, Bool, false};
    ghost use Rattle.rasn_types.specs.Shapes.{Parts, Shape, Tree};
    ghost use Rattle.rasn_enc.specs.Choice.{IsAlternativeBy};
    ghost use Rattle.rasn_types.specs.declared.types.codec.Codec.{Codec};
    ghost use Rattle.rasn_types.specs.declared.error.encode.EncodeError.{EncodeError};

    ghost parts: { Parts };

    /// Whether the CHOICE has an extension marker.
    ghost extensible: { Bool } = { false };

    ghost number: { Self → ℕ };

    ghost shape: { Self → Shape };

    ghost inner: { Self → Tree };

    /// Which errors the alternative has under these rules.
    ghost errors: { Self → Codec → EncodeError → Type 0 };

    /// Writes the alternative.
    ///
    /// # Errors
    /// The error of the alternative. On error, nothing is written.
    fn encode_alternative(self, encoder: &mut Encoder) -> Result<(), EncodeError>
        ensures ok { OnOk result (AppendsEncoding (shape self) (inner self) encoder.old encoder.new) }
        ensures err { OnErr result (encoder.new ≡ encoder.old) }
        ensures refused { IfErr result (EncodeFails (shape self) (inner self) encoder.old) }
        ensures errors { IfErr result (errors self encoder.old.rule) }
        ensures rules { IfErr result (λ e. e.codec ≡ encoder.old.rule) };

    /// The alternative has this number among the parts, or the one after theirs if it is unknown.
    ghost stands: { (v : Self) → IsAlternativeBy extensible parts (number v) (shape v) };
}

impl<'a, A: Encode> EncodeAlternative for Last<&'a A> {
    ghost use Rattle.std.proofs.Common.{refl, inl};
    ghost use Rattle.rasn_types.specs.Shapes.{part, required};
    ghost use Rattle.rasn_types.specs.Shapes.Parts.{none};

    ghost parts = { part required A.shape none };

    ghost number = { λ v. 0 };

    ghost shape = { λ v. A.shape };

    ghost inner = { λ v. A.tree v.0.now };

    ghost errors = { λ v. A.errors A.TAG A.CONSTRAINTS v.0.now };

    fn encode_alternative(self, encoder: &mut Encoder) -> Result<(), EncodeError> {
        self.0.encode(encoder)
    }

    ghost stands = { λ v. inl refl };
}

/// The unknown alternative of a CHOICE with an extension marker (X.680 29), written as its octets.
impl<'a> EncodeAlternative for &'a Any {
    ghost use Rattle.std.proofs.Common.{true, None, ◌⊎◌, refl, inr};
    ghost use Rattle.rasn_types.specs.Shapes.{any, numbers};
    ghost use Rattle.rasn_types.specs.Shapes.Parts.{none};
    ghost use Rattle.rasn_enc.specs.Primitive.{IsAllocError};
    ghost use Rattle.rasn_enc.specs.Any.{IsUntaggedInSetError};

    ghost parts = { none };

    ghost extensible = { true };

    ghost number = { λ v. 0 };

    ghost shape = { λ v. any None };

    ghost inner = { λ v. numbers v.now };

    ghost errors = { λ v rule e. IsUntaggedInSetError rule e ⊎ IsAllocError rule e };

    fn encode_alternative(self, encoder: &mut Encoder) -> Result<(), EncodeError> {
        encoder.encode_any(Tag::EOC, self, Identifier::EMPTY)
    }

    ghost stands = { λ v. inr (refl, refl) };
}

impl<'a, A: Encode, R: EncodeAlternative> EncodeAlternative for OneOf<&'a A, R> {
    ghost use Rattle.rasn_types.specs.Shapes.{part, required};
    ghost use Rattle.rasn_types.specs.OwnTypes.{one_of_number, one_of_tree};
    ghost use Rattle.rasn_enc.specs.AlternativeTypes.{one_of_shape, one_of_stands};
    ghost use Rattle.rasn_enc.specs.ValueErrors.{one_of_errors};

    ghost parts = { part required A.shape R.parts };

    ghost extensible = { R.extensible };

    ghost number = { one_of_number R.number };

    ghost shape = { one_of_shape A.shape R.shape };

    ghost inner = { one_of_tree (λ a. A.tree a.now) R.inner };

    ghost errors = { one_of_errors (λ a. A.errors A.TAG A.CONSTRAINTS a.now) R.errors };

    fn encode_alternative(self, encoder: &mut Encoder) -> Result<(), EncodeError> {
        match self {
            OneOf::This(value) => value.encode(encoder),
            OneOf::Other(other) => other.encode_alternative(encoder),
        }
    }

    ghost stands = { one_of_stands R.extensible A.shape R.parts R.number R.shape R.stands };
}

impl Encoder {
    /// Writes the chosen alternative of a CHOICE (X.690 8.13). If the alternatives end with
    /// [`Any`], the CHOICE has an extension marker (X.680 29): the octets of an unknown alternative
    /// are written as they are, as `encode_any` writes a value without a tag of its own.
    ///
    /// # Errors
    /// The error of the alternative, which is that of `encode_any` for an unknown one. On error,
    /// nothing is written.
    pub fn write_choice<P: EncodeAlternative>(&mut self, value: P) -> Result<(), EncodeError>
        ensures ok { OnOk result (AppendsEncoding (choice_by P.extensible P.parts) (chosen (P.number value) (P.inner value)) self.old self.new) }
        ensures err { OnErr result (self.new ≡ self.old) }
        ensures refused { IfErr result (EncodeFails (choice_by P.extensible P.parts) (chosen (P.number value) (P.inner value)) self.old) }
        ensures errors { IfErr result (P.errors value self.old.rule) }
        ensures rules { IfErr result (λ e. e.codec ≡ self.old.rule) }
    {
        value.encode_alternative(self)
    }
}
