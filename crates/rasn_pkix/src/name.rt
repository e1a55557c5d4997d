// Written by `soqavise generate` from the ASN.1 of Certificates, Revocation, Requests,
// CertificateExtensions: change that, and write it again.
//! `Name ::= CHOICE`
use crate::RdnSequence;
use rasn::prelude::*;

/// `Name ::= CHOICE`
#[derive(Debug, PartialEq, Eq, Drop)]
pub enum Name {
    /// `rdnSequence RDNSequence`
    RdnSequence(RdnSequence),
}

/// The alternatives, as they are read.
type Alternatives = Last<RdnSequence>;

impl AsnType for Name {
    ghost use Rattle.std.specs.Prelude.{refl};
    ghost use Rattle.rasn_types.specs.Shapes.{choice, chosen};
    ghost use Rattle.rasn_types.specs.Tags.{eoc};
    ghost use Rattle.rasn_types.specs.Trees.{unconstrained};
    ghost use Rattle.rasn_pkix.specs.declared.name.Name.TheVariants.{RdnSequence};

    ghost TAG = { eoc };

    const TAG: Tag = Tag::EOC;

    ghost CONSTRAINTS = { unconstrained };

    const CONSTRAINTS: Constraints = Constraints::NONE;

    ghost shape = { choice ⟦<Alternatives as DecodeAlternatives>⟧.parts };

    ghost tree = { elim [ RdnSequence x ↦ chosen 0 (⟦<RdnSequence as AsnType>⟧.tree x) ] };

    ghost own = { refl };
}

impl LawfulEq for Name {
    ghost use Rattle.rasn_types.specs.Deciding.{deciding};
    ghost use Rattle.rasn_types.specs.Equality.{choice_decided, alternative};
    ghost use Rattle.rasn_pkix.specs.contracts.name.Name.{enum as own_enum};
    ghost use Rattle.rasn_pkix.specs.contracts.relative_distinguished_name.RelativeDistinguishedNameLawfulEq.TheImpl.Laws.{decides-law as relative_distinguished_name_law};

    ghost decides = { choice_decided own_enum _ _ (alternative (λ x. x.0) (Prim.search (relative_distinguished_name_law, deciding) depth 64), tt) };
}

impl Present for Name {
    ghost use Rattle.rasn_types.specs.Equality.{chosen_not_absent};
    ghost use Rattle.rasn_pkix.specs.declared.name.Name.TheVariants.{RdnSequence};

    ghost present = { elim [ RdnSequence x ↦ chosen_not_absent ] };
}

impl FirstTags for Name {
    fn is_first_tag(tag: Tag) -> bool {
        <Alternatives as DecodeAlternatives>::has_tag(tag)
    }
}

impl Decode for Name {
    ghost use Rattle.std.specs.Prelude.{codes};
    ghost use Rattle.rasn_de.specs.AlternativeTypes.{DecodesAlternativeBy};
    ghost use Rattle.rasn_de.specs.ValueErrors.{errors_of, IsErrorByTag};

    ghost errors = { λ _ _ old e new. errors_of (DecodesAlternativeBy ⟦<Alternatives as DecodeAlternatives>⟧.extensible ⟦<Alternatives as DecodeAlternatives>⟧.parts ⟦<Alternatives as DecodeAlternatives>⟧.inner (codes "Name")) old e new × IsErrorByTag ⟦<Alternatives as DecodeAlternatives>⟧.errors old e new };

    fn decode_with_tag_and_constraints(
        decoder: &mut Decoder<'_>,
        _tag: Tag,
        _constraints: &Constraints,
    ) -> Result<Name, DecodeError> {
        match decoder.read_choice::<Alternatives>("Name") {
            Ok(Last(value)) => Ok(Name::RdnSequence(value)),
            Err(error) => Err(error),
        }
    }
}

/// The alternatives, as they are written.
type Written<'a> = Last<&'a RdnSequence>;

impl Encode for Name {
    fn encode_with_tag_and_constraints(
        &self,
        encoder: &mut Encoder,
        _tag: Tag,
        _constraints: &Constraints,
        _identifier: Identifier,
    ) -> Result<(), EncodeError> {
        match self {
            Name::RdnSequence(value) => encoder.write_choice::<Written<'_>>(Last(value)),
        }
    }

    fn is_present(&self) -> bool {
        true
    }
}
