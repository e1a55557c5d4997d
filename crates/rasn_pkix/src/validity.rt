// Written by `soqavise generate` from the ASN.1 of Certificates, Revocation, Requests,
// CertificateExtensions: change that, and write it again.
//! `Validity ::= SEQUENCE`
use crate::Time;
use rasn::prelude::*;

/// `Validity ::= SEQUENCE`
#[derive(Debug, PartialEq, Eq, Drop)]
pub struct Validity {
    /// `notBefore Time`
    pub not_before: Time,
    /// `notAfter Time`
    pub not_after: Time,
}

/// The components, as they are read.
type Parts = Required<Time, Parts1>;

type Parts1 = Required<Time, End>;

impl AsnType for Validity {
    ghost use Rattle.std.specs.Prelude.{refl};
    ghost use Rattle.rasn_types.specs.Tags.{in_universal};
    ghost use Rattle.rasn_types.specs.Shapes.{seq};
    ghost use Rattle.rasn_types.specs.Trees.{unconstrained};

    ghost TAG = { in_universal 16 };

    const TAG: Tag = Tag::SEQUENCE;

    ghost CONSTRAINTS = { unconstrained };

    const CONSTRAINTS: Constraints = Constraints::NONE;

    ghost shape = { seq (in_universal 16) ⟦<Parts as DecodeParts>⟧.parts };

    ghost tree = { λ a. ⟦<Parts as DecodeParts>⟧.tree (record { 0 = a.not_before; 1 = record { 0 = a.not_after; 1 = record {} } }) };

    ghost own = { refl };
}

impl LawfulEq for Validity {
    ghost use Rattle.rasn_types.specs.Deciding.{deciding};
    ghost use Rattle.rasn_pkix.specs.contracts.time.TimeLawfulEq.TheImpl.Laws.{decides-law as time_law};

    ghost decides = { Prim.search (time_law, deciding) depth 64 };
}

impl Present for Validity {
    ghost use Rattle.rasn_types.specs.Equality.{parts_not_absent};

    ghost present = { λ _. parts_not_absent };
}

impl Decode for Validity {
    ghost use Rattle.std.specs.Prelude.{IfOk};
    ghost use Rattle.rasn_de.specs.Beyond.{BeyondInside};
    ghost use Rattle.rasn_de.specs.Constructed.{sequence_header};

    ghost beyond = { λ tag old result _. IfOk result (λ a. BeyondInside ⟦<Parts as DecodeParts>⟧.beyond (sequence_header tag) old (record { 0 = a.not_before; 1 = record { 0 = a.not_after; 1 = record {} } })) };

    ghost use Rattle.rasn_de.specs.PartTypes.{DecodesSequenceParts};
    ghost use Rattle.rasn_de.specs.ValueErrors.{errors_of};

    ghost errors = { λ tag _. errors_of (DecodesSequenceParts ⟦<Parts as DecodeParts>⟧.parts ⟦<Parts as DecodeParts>⟧.tree ⟦<Parts as DecodeParts>⟧.errors tag) };

    fn decode_with_tag_and_constraints(
        decoder: &mut Decoder<'_>,
        tag: Tag,
        _constraints: &Constraints,
    ) -> Result<Validity, DecodeError> {
        let parts = match decoder.read_sequence::<Parts>(tag) {
            Ok(parts) => parts,
            Err(error) => return Err(error),
        };
        let Required(not_before, rest) = parts;
        let Required(not_after, End) = rest;
        Ok(Validity {
            not_before,
            not_after,
        })
    }
}

impl Encode for Validity {
    fn encode_with_tag_and_constraints(
        &self,
        encoder: &mut Encoder,
        tag: Tag,
        _constraints: &Constraints,
        _identifier: Identifier,
    ) -> Result<(), EncodeError> {
        let rest = Put(&self.not_after, End);
        encoder.write_sequence(tag, Put(&self.not_before, rest))
    }

    fn is_present(&self) -> bool {
        true
    }
}
