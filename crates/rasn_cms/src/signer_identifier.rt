// Written by `soqavise generate` from the ASN.1 of CmsMessages, CMS: change that, and write it
// again.
//! `SignerIdentifier ::= CHOICE`
use crate::IssuerAndSerialNumber;
use rasn::parts::OneOf::{Other, This};
use rasn::prelude::*;

/// `SignerIdentifier ::= CHOICE`
#[derive(Debug, PartialEq, Eq, Drop)]
pub enum SignerIdentifier {
    /// `issuerAndSerialNumber IssuerAndSerialNumber`
    IssuerAndSerialNumber(IssuerAndSerialNumber),
    /// `subjectKeyIdentifier [0] IMPLICIT OCTET STRING`
    SubjectKeyIdentifier(Implicit<ContextTag<0>, OctetString>),
}

/// The alternatives, as they are read.
type Alternatives = OneOf<IssuerAndSerialNumber, Alternatives1>;

type Alternatives1 = Last<Implicit<ContextTag<0>, OctetString>>;

impl AsnType for SignerIdentifier {
    ghost use Rattle.std.specs.Prelude.{refl};
    ghost use Rattle.rasn_types.specs.Shapes.{choice, chosen};
    ghost use Rattle.rasn_types.specs.Tags.{eoc};
    ghost use Rattle.rasn_types.specs.Trees.{unconstrained};
    ghost use Rattle.rasn_cms.specs.declared.signer_identifier.SignerIdentifier.TheVariants.{IssuerAndSerialNumber, SubjectKeyIdentifier};

    ghost TAG = { eoc };

    const TAG: Tag = Tag::EOC;

    ghost CONSTRAINTS = { unconstrained };

    const CONSTRAINTS: Constraints = Constraints::NONE;

    ghost shape = { choice ⟦<Alternatives as DecodeAlternatives>⟧.parts };

    ghost tree = { elim [ IssuerAndSerialNumber x ↦ chosen 0 (⟦<IssuerAndSerialNumber as AsnType>⟧.tree x) | SubjectKeyIdentifier x ↦ chosen 1 (⟦<Implicit<ContextTag<0>, OctetString> as AsnType>⟧.tree x) ] };

    ghost own = { refl };
}

impl LawfulEq for SignerIdentifier {
    ghost use Rattle.rasn_types.specs.Deciding.{deciding};
    ghost use Rattle.rasn_types.specs.Equality.{choice_decided, alternative};
    ghost use Rattle.rasn_cms.specs.contracts.signer_identifier.SignerIdentifier.{enum as own_enum};
    ghost use Rattle.rasn_cms.specs.contracts.issuer_and_serial_number.IssuerAndSerialNumberLawfulEq.TheImpl.Laws.{decides-law as issuer_and_serial_number_law};

    ghost decides = { choice_decided own_enum _ _ (alternative (λ x. x.0) (Prim.search (issuer_and_serial_number_law, deciding) depth 64), (alternative (λ x. x.0) (Prim.search (issuer_and_serial_number_law, deciding) depth 64), tt)) };
}

impl Present for SignerIdentifier {
    ghost use Rattle.rasn_types.specs.Equality.{chosen_not_absent};
    ghost use Rattle.rasn_cms.specs.declared.signer_identifier.SignerIdentifier.TheVariants.{IssuerAndSerialNumber, SubjectKeyIdentifier};

    ghost present = { elim [ IssuerAndSerialNumber x ↦ chosen_not_absent | SubjectKeyIdentifier x ↦ chosen_not_absent ] };
}

impl FirstTags for SignerIdentifier {
    fn is_first_tag(tag: Tag) -> bool {
        <Alternatives as DecodeAlternatives>::has_tag(tag)
    }
}

impl Decode for SignerIdentifier {
    ghost use Rattle.std.specs.Prelude.{codes};
    ghost use Rattle.rasn_de.specs.AlternativeTypes.{DecodesAlternativeBy};
    ghost use Rattle.rasn_de.specs.ValueErrors.{errors_of, IsErrorByTag};

    ghost errors = { λ _ _ old e new. errors_of (DecodesAlternativeBy ⟦<Alternatives as DecodeAlternatives>⟧.extensible ⟦<Alternatives as DecodeAlternatives>⟧.parts ⟦<Alternatives as DecodeAlternatives>⟧.inner (codes "SignerIdentifier")) old e new × IsErrorByTag ⟦<Alternatives as DecodeAlternatives>⟧.errors old e new };

    fn decode_with_tag_and_constraints(
        decoder: &mut Decoder<'_>,
        _tag: Tag,
        _constraints: &Constraints,
    ) -> Result<SignerIdentifier, DecodeError> {
        match decoder.read_choice::<Alternatives>("SignerIdentifier") {
            Ok(This(value)) => Ok(SignerIdentifier::IssuerAndSerialNumber(value)),
            Ok(Other(Last(value))) => Ok(SignerIdentifier::SubjectKeyIdentifier(value)),
            Err(error) => Err(error),
        }
    }
}

/// The alternatives, as they are written.
type Written<'a> = OneOf<&'a IssuerAndSerialNumber, Written1<'a>>;

type Written1<'a> = Last<&'a Implicit<ContextTag<0>, OctetString>>;

impl Encode for SignerIdentifier {
    fn encode_with_tag_and_constraints(
        &self,
        encoder: &mut Encoder,
        _tag: Tag,
        _constraints: &Constraints,
        _identifier: Identifier,
    ) -> Result<(), EncodeError> {
        match self {
            SignerIdentifier::IssuerAndSerialNumber(value) => encoder.write_choice::<Written<'_>>(
                This(value),
            ),
            SignerIdentifier::SubjectKeyIdentifier(value) => encoder.write_choice::<Written<'_>>(
                Other(Last(value)),
            ),
        }
    }

    fn is_present(&self) -> bool {
        true
    }
}
