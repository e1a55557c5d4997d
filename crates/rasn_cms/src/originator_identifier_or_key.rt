// Written by `soqavise generate` from the ASN.1 of CmsMessages, CMS: change that, and write it
// again.
//! `OriginatorIdentifierOrKey ::= CHOICE`
use crate::{IssuerAndSerialNumber, OriginatorPublicKey};
use rasn::parts::OneOf::{Other, This};
use rasn::prelude::*;

/// `OriginatorIdentifierOrKey ::= CHOICE`
#[derive(Debug, PartialEq, Eq, Drop)]
pub enum OriginatorIdentifierOrKey {
    /// `issuerAndSerialNumber IssuerAndSerialNumber`
    IssuerAndSerialNumber(IssuerAndSerialNumber),
    /// `subjectKeyIdentifier [0] IMPLICIT OCTET STRING`
    SubjectKeyIdentifier(Implicit<ContextTag<0>, OctetString>),
    /// `originatorKey [1] IMPLICIT OriginatorPublicKey`
    OriginatorKey(Implicit<ContextTag<1>, OriginatorPublicKey>),
}

/// The alternatives, as they are read.
type Alternatives = OneOf<IssuerAndSerialNumber, Alternatives1>;

type Alternatives1 = OneOf<Implicit<ContextTag<0>, OctetString>, Alternatives2>;

type Alternatives2 = Last<Implicit<ContextTag<1>, OriginatorPublicKey>>;

impl AsnType for OriginatorIdentifierOrKey {
    ghost use Rattle.std.specs.Prelude.{refl};
    ghost use Rattle.rasn_types.specs.Shapes.{choice, chosen};
    ghost use Rattle.rasn_types.specs.Tags.{eoc};
    ghost use Rattle.rasn_types.specs.Trees.{unconstrained};
    ghost use Rattle.rasn_cms.specs.declared.originator_identifier_or_key.OriginatorIdentifierOrKey.TheVariants.{IssuerAndSerialNumber, SubjectKeyIdentifier, OriginatorKey};

    ghost TAG = { eoc };

    const TAG: Tag = Tag::EOC;

    ghost CONSTRAINTS = { unconstrained };

    const CONSTRAINTS: Constraints = Constraints::NONE;

    ghost shape = { choice ⟦<Alternatives as DecodeAlternatives>⟧.parts };

    ghost tree = { elim [ IssuerAndSerialNumber x ↦ chosen 0 (⟦<IssuerAndSerialNumber as AsnType>⟧.tree x) | SubjectKeyIdentifier x ↦ chosen 1 (⟦<Implicit<ContextTag<0>, OctetString> as AsnType>⟧.tree x) | OriginatorKey x ↦ chosen 2 (⟦<Implicit<ContextTag<1>, OriginatorPublicKey> as AsnType>⟧.tree x) ] };

    ghost own = { refl };
}

impl LawfulEq for OriginatorIdentifierOrKey {
    ghost use Rattle.rasn_types.specs.Deciding.{deciding};
    ghost use Rattle.rasn_types.specs.Equality.{choice_decided, alternative};
    ghost use Rattle.rasn_cms.specs.contracts.originator_identifier_or_key.OriginatorIdentifierOrKey.{enum as own_enum};
    ghost use Rattle.rasn_cms.specs.contracts.issuer_and_serial_number.IssuerAndSerialNumberLawfulEq.TheImpl.Laws.{decides-law as issuer_and_serial_number_law};
    ghost use Rattle.rasn_cms.specs.contracts.originator_public_key.OriginatorPublicKeyLawfulEq.TheImpl.Laws.{decides-law as originator_public_key_law};

    ghost decides = { choice_decided own_enum _ _ (alternative (λ x. x.0) (Prim.search (issuer_and_serial_number_law, originator_public_key_law, deciding) depth 64), (alternative (λ x. x.0) (Prim.search (issuer_and_serial_number_law, originator_public_key_law, deciding) depth 64), (alternative (λ x. x.0) (Prim.search (issuer_and_serial_number_law, originator_public_key_law, deciding) depth 64), tt))) };
}

impl Present for OriginatorIdentifierOrKey {
    ghost use Rattle.rasn_types.specs.Equality.{chosen_not_absent};
    ghost use Rattle.rasn_cms.specs.declared.originator_identifier_or_key.OriginatorIdentifierOrKey.TheVariants.{IssuerAndSerialNumber, SubjectKeyIdentifier, OriginatorKey};

    ghost present = { elim [ IssuerAndSerialNumber x ↦ chosen_not_absent | SubjectKeyIdentifier x ↦ chosen_not_absent | OriginatorKey x ↦ chosen_not_absent ] };
}

impl FirstTags for OriginatorIdentifierOrKey {
    fn is_first_tag(tag: Tag) -> bool {
        <Alternatives as DecodeAlternatives>::has_tag(tag)
    }
}

impl Decode for OriginatorIdentifierOrKey {
    ghost use Rattle.std.specs.Prelude.{codes};
    ghost use Rattle.rasn_de.specs.AlternativeTypes.{DecodesAlternativeBy};
    ghost use Rattle.rasn_de.specs.ValueErrors.{errors_of, IsErrorByTag};

    ghost errors = { λ _ _ old e new. errors_of (DecodesAlternativeBy ⟦<Alternatives as DecodeAlternatives>⟧.extensible ⟦<Alternatives as DecodeAlternatives>⟧.parts ⟦<Alternatives as DecodeAlternatives>⟧.inner (codes "OriginatorIdentifierOrKey")) old e new × IsErrorByTag ⟦<Alternatives as DecodeAlternatives>⟧.errors old e new };

    fn decode_with_tag_and_constraints(
        decoder: &mut Decoder<'_>,
        _tag: Tag,
        _constraints: &Constraints,
    ) -> Result<OriginatorIdentifierOrKey, DecodeError> {
        match decoder.read_choice::<Alternatives>("OriginatorIdentifierOrKey") {
            Ok(This(value)) => Ok(OriginatorIdentifierOrKey::IssuerAndSerialNumber(value)),
            Ok(Other(This(value))) => Ok(OriginatorIdentifierOrKey::SubjectKeyIdentifier(value)),
            Ok(Other(Other(Last(value)))) => Ok(OriginatorIdentifierOrKey::OriginatorKey(value)),
            Err(error) => Err(error),
        }
    }
}

/// The alternatives, as they are written.
type Written<'a> = OneOf<&'a IssuerAndSerialNumber, Written1<'a>>;

type Written1<'a> = OneOf<&'a Implicit<ContextTag<0>, OctetString>, Written2<'a>>;

type Written2<'a> = Last<&'a Implicit<ContextTag<1>, OriginatorPublicKey>>;

impl Encode for OriginatorIdentifierOrKey {
    fn encode_with_tag_and_constraints(
        &self,
        encoder: &mut Encoder,
        _tag: Tag,
        _constraints: &Constraints,
        _identifier: Identifier,
    ) -> Result<(), EncodeError> {
        match self {
            OriginatorIdentifierOrKey::IssuerAndSerialNumber(value) => encoder.write_choice::<
                Written<'_>,
            >(This(value)),
            OriginatorIdentifierOrKey::SubjectKeyIdentifier(value) => encoder.write_choice::<
                Written<'_>,
            >(Other(This(value))),
            OriginatorIdentifierOrKey::OriginatorKey(value) => encoder.write_choice::<Written<'_>>(
                Other(Other(Last(value))),
            ),
        }
    }

    fn is_present(&self) -> bool {
        true
    }
}
