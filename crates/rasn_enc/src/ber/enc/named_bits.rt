//! Writing BIT STRING whose bits have names (X.680 22.7).
ghost use Rattle.std.specs.Prelude.{◌≡◌, IfErr, OnOk, OnErr};
ghost use Rattle.rasn_types.specs.BitString.{significant};
ghost use Rattle.rasn_types.specs.NamedBits.{named_bits_tree};
ghost use Rattle.rasn_types.specs.Shapes.{leaf, named_bits};
ghost use Rattle.rasn_enc.specs.Encoding.{AppendsEncoding, EncodeFails};
ghost use Rattle.rasn_enc.specs.Errors.{FailsAtNamedBits};

use crate::ber::enc::Encoder;
use crate::enc::Encode;
use rasn_types::error::{EncodeError, EncodeErrorKind};
use rasn_types::types::{BitStr, Constraints, Identifier, NamedBits, Tag};

impl Encoder {
    /// Writes a BIT STRING whose bits have names: those up to the last that is 1, since trailing 0
    /// bits don't count (X.680 22.7) and canonical rules have none (X.690 11.2.2).
    ///
    /// # Errors
    /// `SizeConstraintNotSatisfied` if these bits are out of bounds with any number of trailing 0
    /// bits, otherwise only `OutOfMemory`.
    pub fn encode_named_bits(
        &mut self,
        tag: Tag,
        constraints: &Constraints,
        value: &BitStr<'_>,
        identifier: Identifier,
    ) -> Result<(), EncodeError>
        ensures ok { OnOk result (AppendsEncoding (leaf named_bits tag constraints.now) (named_bits_tree value.now) self.old self.new) }
        ensures err { OnErr result (self.new ≡ self.old) }
        ensures refused { IfErr result (EncodeFails (leaf named_bits tag constraints.now) (named_bits_tree value.now) self.old) }
        ensures fails { IfErr result (FailsAtNamedBits constraints.now (significant value.now) self.old.rule) }
        ensures rules { IfErr result (λ e. e.codec ≡ self.old.rule) }
    {
        let (bits, _) = value.split_at(value.significant_len());
        if !constraints.admits_padded_size(bits.len()) {
            return Err(EncodeError {
                kind: EncodeErrorKind::SizeConstraintNotSatisfied {
                    size: bits.len(),
                    expected: constraints.size_bounds(),
                },
                codec: self.codec(),
            });
        }
        self.encode_bit_string(tag, &Constraints::NONE, &bits, identifier)
    }
}

impl Encode for NamedBits {
    ghost use Rattle.rasn_types.specs.BitString.{significant};
    ghost use Rattle.rasn_enc.specs.Errors.{FailsAtNamedBits};

    ghost errors = { λ tag c v rule e. FailsAtNamedBits c (significant v) rule e };

    fn encode_with_tag_and_constraints(
        &self,
        encoder: &mut Encoder,
        tag: Tag,
        constraints: &Constraints,
        identifier: Identifier,
    ) -> Result<(), EncodeError> {
        encoder.encode_named_bits(tag, constraints, &self.as_bitstr(), identifier)
    }

    fn is_present(&self) -> bool {
        true
    }
}
