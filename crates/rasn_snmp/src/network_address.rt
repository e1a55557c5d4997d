// Written by `soqavise generate` from the ASN.1 of SNMP: change that, and write it again.
//! `NetworkAddress ::= CHOICE`
use crate::IpAddress;
use rasn::prelude::*;

/// `NetworkAddress ::= CHOICE`
#[derive(Debug, PartialEq, Eq, Drop)]
pub enum NetworkAddress {
    /// `internet IpAddress`
    Internet(IpAddress),
}

/// The alternatives, as they are read.
type Alternatives = Last<IpAddress>;

impl AsnType for NetworkAddress {
    ghost use Rattle.std.specs.Prelude.{refl};
    ghost use Rattle.rasn_types.specs.Shapes.{choice, chosen};
    ghost use Rattle.rasn_types.specs.Tags.{eoc};
    ghost use Rattle.rasn_types.specs.Trees.{unconstrained};
    ghost use Rattle.rasn_snmp.specs.declared.network_address.NetworkAddress.TheVariants.{Internet};

    ghost TAG = { eoc };

    const TAG: Tag = Tag::EOC;

    ghost CONSTRAINTS = { unconstrained };

    const CONSTRAINTS: Constraints = Constraints::NONE;

    ghost shape = { choice ⟦<Alternatives as DecodeAlternatives>⟧.parts };

    ghost tree = { elim [ Internet x ↦ chosen 0 (⟦<IpAddress as AsnType>⟧.tree x) ] };

    ghost own = { refl };
}

impl LawfulEq for NetworkAddress {
    ghost use Rattle.rasn_types.specs.Deciding.{deciding};
    ghost use Rattle.rasn_types.specs.Equality.{choice_decided, alternative};
    ghost use Rattle.rasn_snmp.specs.contracts.network_address.NetworkAddress.{enum as own_enum};
    ghost use Rattle.rasn_snmp.specs.contracts.ip_address.IpAddressLawfulEq.TheImpl.Laws.{decides-law as ip_address_law};

    ghost decides = { choice_decided own_enum _ _ (alternative (λ x. x.0) (Prim.search (ip_address_law, deciding) depth 64), tt) };
}

impl Present for NetworkAddress {
    ghost use Rattle.rasn_types.specs.Equality.{chosen_not_absent};
    ghost use Rattle.rasn_snmp.specs.declared.network_address.NetworkAddress.TheVariants.{Internet};

    ghost present = { elim [ Internet x ↦ chosen_not_absent ] };
}

impl FirstTags for NetworkAddress {
    fn is_first_tag(tag: Tag) -> bool {
        <Alternatives as DecodeAlternatives>::has_tag(tag)
    }
}

impl Decode for NetworkAddress {
    ghost use Rattle.std.specs.Prelude.{codes};
    ghost use Rattle.rasn_de.specs.AlternativeTypes.{DecodesAlternativeBy};
    ghost use Rattle.rasn_de.specs.ValueErrors.{errors_of, IsErrorByTag};

    ghost errors = { λ _ _ old e new. errors_of (DecodesAlternativeBy ⟦<Alternatives as DecodeAlternatives>⟧.extensible ⟦<Alternatives as DecodeAlternatives>⟧.parts ⟦<Alternatives as DecodeAlternatives>⟧.inner (codes "NetworkAddress")) old e new × IsErrorByTag ⟦<Alternatives as DecodeAlternatives>⟧.errors old e new };

    fn decode_with_tag_and_constraints(
        decoder: &mut Decoder<'_>,
        _tag: Tag,
        _constraints: &Constraints,
    ) -> Result<NetworkAddress, DecodeError> {
        match decoder.read_choice::<Alternatives>("NetworkAddress") {
            Ok(Last(value)) => Ok(NetworkAddress::Internet(value)),
            Err(error) => Err(error),
        }
    }
}

/// The alternatives, as they are written.
type Written<'a> = Last<&'a IpAddress>;

impl Encode for NetworkAddress {
    fn encode_with_tag_and_constraints(
        &self,
        encoder: &mut Encoder,
        _tag: Tag,
        _constraints: &Constraints,
        _identifier: Identifier,
    ) -> Result<(), EncodeError> {
        match self {
            NetworkAddress::Internet(value) => encoder.write_choice::<Written<'_>>(Last(value)),
        }
    }

    fn is_present(&self) -> bool {
        true
    }
}
