// Written by `soqavise generate` from the ASN.1 of SNMP: change that, and write it again.
//! `ScopedPduData ::= CHOICE`
use crate::ScopedPdu;
use rasn::parts::OneOf::{Other, This};
use rasn::prelude::*;

/// `ScopedPduData ::= CHOICE`
#[derive(Debug, PartialEq, Eq, Drop)]
pub enum ScopedPduData {
    /// `plaintext ScopedPDU`
    Plaintext(ScopedPdu),
    /// `encryptedPDU OCTET STRING`
    EncryptedPdu(OctetString),
}

/// The alternatives, as they are read.
type Alternatives = OneOf<ScopedPdu, Alternatives1>;

type Alternatives1 = Last<OctetString>;

impl AsnType for ScopedPduData {
    ghost use Rattle.std.specs.Prelude.{refl};
    ghost use Rattle.rasn_types.specs.Shapes.{choice, chosen};
    ghost use Rattle.rasn_types.specs.Tags.{eoc};
    ghost use Rattle.rasn_types.specs.Trees.{unconstrained};
    ghost use Rattle.rasn_snmp.specs.declared.scoped_pdu_data.ScopedPduData.TheVariants.{Plaintext, EncryptedPdu};

    ghost TAG = { eoc };

    const TAG: Tag = Tag::EOC;

    ghost CONSTRAINTS = { unconstrained };

    const CONSTRAINTS: Constraints = Constraints::NONE;

    ghost shape = { choice ⟦<Alternatives as DecodeAlternatives>⟧.parts };

    ghost tree = { elim [ Plaintext x ↦ chosen 0 (⟦<ScopedPdu as AsnType>⟧.tree x) | EncryptedPdu x ↦ chosen 1 (⟦<OctetString as AsnType>⟧.tree x) ] };

    ghost own = { refl };
}

impl LawfulEq for ScopedPduData {
    ghost use Rattle.rasn_types.specs.Deciding.{deciding};
    ghost use Rattle.rasn_types.specs.Equality.{choice_decided, alternative};
    ghost use Rattle.rasn_snmp.specs.contracts.scoped_pdu_data.ScopedPduData.{enum as own_enum};
    ghost use Rattle.rasn_snmp.specs.contracts.scoped_pdu.ScopedPduLawfulEq.TheImpl.Laws.{decides-law as scoped_pdu_law};

    ghost decides = { choice_decided own_enum _ _ (alternative (λ x. x.0) (Prim.search (scoped_pdu_law, deciding) depth 64), (alternative (λ x. x.0) (Prim.search (scoped_pdu_law, deciding) depth 64), tt)) };
}

impl Present for ScopedPduData {
    ghost use Rattle.rasn_types.specs.Equality.{chosen_not_absent};
    ghost use Rattle.rasn_snmp.specs.declared.scoped_pdu_data.ScopedPduData.TheVariants.{Plaintext, EncryptedPdu};

    ghost present = { elim [ Plaintext x ↦ chosen_not_absent | EncryptedPdu x ↦ chosen_not_absent ] };
}

impl FirstTags for ScopedPduData {
    fn is_first_tag(tag: Tag) -> bool {
        <Alternatives as DecodeAlternatives>::has_tag(tag)
    }
}

impl Decode for ScopedPduData {
    ghost use Rattle.std.specs.Prelude.{codes};
    ghost use Rattle.rasn_de.specs.AlternativeTypes.{DecodesAlternativeBy};
    ghost use Rattle.rasn_de.specs.ValueErrors.{errors_of, IsErrorByTag};

    ghost errors = { λ _ _ old e new. errors_of (DecodesAlternativeBy ⟦<Alternatives as DecodeAlternatives>⟧.extensible ⟦<Alternatives as DecodeAlternatives>⟧.parts ⟦<Alternatives as DecodeAlternatives>⟧.inner (codes "ScopedPduData")) old e new × IsErrorByTag ⟦<Alternatives as DecodeAlternatives>⟧.errors old e new };

    fn decode_with_tag_and_constraints(
        decoder: &mut Decoder<'_>,
        _tag: Tag,
        _constraints: &Constraints,
    ) -> Result<ScopedPduData, DecodeError> {
        match decoder.read_choice::<Alternatives>("ScopedPduData") {
            Ok(This(value)) => Ok(ScopedPduData::Plaintext(value)),
            Ok(Other(Last(value))) => Ok(ScopedPduData::EncryptedPdu(value)),
            Err(error) => Err(error),
        }
    }
}

/// The alternatives, as they are written.
type Written<'a> = OneOf<&'a ScopedPdu, Written1<'a>>;

type Written1<'a> = Last<&'a OctetString>;

impl Encode for ScopedPduData {
    fn encode_with_tag_and_constraints(
        &self,
        encoder: &mut Encoder,
        _tag: Tag,
        _constraints: &Constraints,
        _identifier: Identifier,
    ) -> Result<(), EncodeError> {
        match self {
            ScopedPduData::Plaintext(value) => encoder.write_choice::<Written<'_>>(This(value)),
            ScopedPduData::EncryptedPdu(value) => encoder.write_choice::<Written<'_>>(Other(Last(
                value,
            ))),
        }
    }

    fn is_present(&self) -> bool {
        true
    }
}
