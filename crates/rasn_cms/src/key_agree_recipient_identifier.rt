// Written by `soqavise generate` from the ASN.1 of CmsMessages, CMS: change that, and write it
// again.
//! `KeyAgreeRecipientIdentifier ::= CHOICE`
use crate::{IssuerAndSerialNumber, RecipientKeyIdentifier};
use rasn::parts::OneOf::{Other, This};
use rasn::prelude::*;

/// `KeyAgreeRecipientIdentifier ::= CHOICE`
#[derive(Debug, PartialEq, Eq, Drop)]
pub enum KeyAgreeRecipientIdentifier {
    /// `issuerAndSerialNumber IssuerAndSerialNumber`
    IssuerAndSerialNumber(IssuerAndSerialNumber),
    /// `rKeyId [0] IMPLICIT RecipientKeyIdentifier`
    RKeyId(Implicit<ContextTag<0>, RecipientKeyIdentifier>),
}

/// The alternatives, as they are read.
type Alternatives = OneOf<IssuerAndSerialNumber, Alternatives1>;

type Alternatives1 = Last<Implicit<ContextTag<0>, RecipientKeyIdentifier>>;

impl AsnType for KeyAgreeRecipientIdentifier {
    ghost use Rattle.std.specs.Prelude.{refl};
    ghost use Rattle.rasn_types.specs.Shapes.{choice, chosen};
    ghost use Rattle.rasn_types.specs.Tags.{eoc};
    ghost use Rattle.rasn_types.specs.Trees.{unconstrained};
    ghost use Rattle.rasn_cms.specs.declared.key_agree_recipient_identifier.KeyAgreeRecipientIdentifier.TheVariants.{IssuerAndSerialNumber, RKeyId};

    ghost TAG = { eoc };

    const TAG: Tag = Tag::EOC;

    ghost CONSTRAINTS = { unconstrained };

    const CONSTRAINTS: Constraints = Constraints::NONE;

    ghost shape = { choice ⟦<Alternatives as DecodeAlternatives>⟧.parts };

    ghost tree = { elim [ IssuerAndSerialNumber x ↦ chosen 0 (⟦<IssuerAndSerialNumber as AsnType>⟧.tree x) | RKeyId x ↦ chosen 1 (⟦<Implicit<ContextTag<0>, RecipientKeyIdentifier> as AsnType>⟧.tree x) ] };

    ghost own = { refl };
}

impl LawfulEq for KeyAgreeRecipientIdentifier {
    ghost use Rattle.rasn_types.specs.Deciding.{deciding};
    ghost use Rattle.rasn_types.specs.Equality.{choice_decided, alternative};
    ghost use Rattle.rasn_cms.specs.contracts.key_agree_recipient_identifier.KeyAgreeRecipientIdentifier.{enum as own_enum};
    ghost use Rattle.rasn_cms.specs.contracts.issuer_and_serial_number.IssuerAndSerialNumberLawfulEq.TheImpl.Laws.{decides-law as issuer_and_serial_number_law};
    ghost use Rattle.rasn_cms.specs.contracts.recipient_key_identifier.RecipientKeyIdentifierLawfulEq.TheImpl.Laws.{decides-law as recipient_key_identifier_law};

    ghost decides = { choice_decided own_enum _ _ (alternative (λ x. x.0) (Prim.search (issuer_and_serial_number_law, recipient_key_identifier_law, deciding) depth 64), (alternative (λ x. x.0) (Prim.search (issuer_and_serial_number_law, recipient_key_identifier_law, deciding) depth 64), tt)) };
}

impl Present for KeyAgreeRecipientIdentifier {
    ghost use Rattle.rasn_types.specs.Equality.{chosen_not_absent};
    ghost use Rattle.rasn_cms.specs.declared.key_agree_recipient_identifier.KeyAgreeRecipientIdentifier.TheVariants.{IssuerAndSerialNumber, RKeyId};

    ghost present = { elim [ IssuerAndSerialNumber x ↦ chosen_not_absent | RKeyId x ↦ chosen_not_absent ] };
}

impl FirstTags for KeyAgreeRecipientIdentifier {
    fn is_first_tag(tag: Tag) -> bool {
        <Alternatives as DecodeAlternatives>::has_tag(tag)
    }
}

impl Decode for KeyAgreeRecipientIdentifier {
    ghost use Rattle.std.specs.Prelude.{codes};
    ghost use Rattle.rasn_de.specs.AlternativeTypes.{DecodesAlternativeBy};
    ghost use Rattle.rasn_de.specs.ValueErrors.{errors_of, IsErrorByTag};
    ghost use Rattle.std.specs.Prelude.{IfOk};
    ghost use Rattle.rasn_de.specs.Beyond.{got};
    ghost use Rattle.rasn_cms.specs.declared.key_agree_recipient_identifier.KeyAgreeRecipientIdentifier.TheVariants.{IssuerAndSerialNumber, RKeyId};

    ghost beyond = { λ _ old result new. IfOk result (elim [ IssuerAndSerialNumber x ↦ Unit {0} | RKeyId x ↦ got (⟦<Implicit<ContextTag<0>, RecipientKeyIdentifier> as Decode>⟧.beyond ⟦<Implicit<ContextTag<0>, RecipientKeyIdentifier> as AsnType>⟧.TAG) old x new ]) };

    ghost errors = { λ _ _ old e new. errors_of (DecodesAlternativeBy ⟦<Alternatives as DecodeAlternatives>⟧.extensible ⟦<Alternatives as DecodeAlternatives>⟧.parts ⟦<Alternatives as DecodeAlternatives>⟧.inner (codes "KeyAgreeRecipientIdentifier")) old e new × IsErrorByTag ⟦<Alternatives as DecodeAlternatives>⟧.errors old e new };

    fn decode_with_tag_and_constraints(
        decoder: &mut Decoder<'_>,
        _tag: Tag,
        _constraints: &Constraints,
    ) -> Result<KeyAgreeRecipientIdentifier, DecodeError> {
        match decoder.read_choice::<Alternatives>("KeyAgreeRecipientIdentifier") {
            Ok(This(value)) => Ok(KeyAgreeRecipientIdentifier::IssuerAndSerialNumber(value)),
            Ok(Other(Last(value))) => Ok(KeyAgreeRecipientIdentifier::RKeyId(value)),
            Err(error) => Err(error),
        }
    }
}

/// The alternatives, as they are written.
type Written<'a> = OneOf<&'a IssuerAndSerialNumber, Written1<'a>>;

type Written1<'a> = Last<&'a Implicit<ContextTag<0>, RecipientKeyIdentifier>>;

impl Encode for KeyAgreeRecipientIdentifier {
    fn encode_with_tag_and_constraints(
        &self,
        encoder: &mut Encoder,
        _tag: Tag,
        _constraints: &Constraints,
        _identifier: Identifier,
    ) -> Result<(), EncodeError> {
        match self {
            KeyAgreeRecipientIdentifier::IssuerAndSerialNumber(value) => encoder.write_choice::<
                Written<'_>,
            >(This(value)),
            KeyAgreeRecipientIdentifier::RKeyId(value) => encoder.write_choice::<Written<'_>>(Other(
                Last(value),
            )),
        }
    }

    fn is_present(&self) -> bool {
        true
    }
}
