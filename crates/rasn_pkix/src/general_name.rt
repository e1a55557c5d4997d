// Written by `soqavise generate` from the ASN.1 of Certificates, Revocation, Requests,
// CertificateExtensions: change that, and write it again.
//! `GeneralName ::= CHOICE`
use crate::{AnotherName, EdiPartyName, Name, OrAddress};
use rasn::parts::OneOf::{Other, This};
use rasn::prelude::*;

/// `GeneralName ::= CHOICE`
#[derive(Debug, PartialEq, Eq, Drop)]
pub enum GeneralName {
    /// `otherName [0] IMPLICIT AnotherName`
    OtherName(Implicit<ContextTag<0>, AnotherName>),
    /// `rfc822Name [1] IMPLICIT IA5String`
    Rfc822Name(Implicit<ContextTag<1>, Ia5String>),
    /// `dNSName [2] IMPLICIT IA5String`
    DnsName(Implicit<ContextTag<2>, Ia5String>),
    /// `x400Address [3] IMPLICIT ORAddress`
    X400Address(Implicit<ContextTag<3>, OrAddress>),
    /// `directoryName [4] EXPLICIT Name`
    DirectoryName(Explicit<ContextTag<4>, Name>),
    /// `ediPartyName [5] IMPLICIT EDIPartyName`
    EdiPartyName(Implicit<ContextTag<5>, EdiPartyName>),
    /// `uniformResourceIdentifier [6] IMPLICIT IA5String`
    UniformResourceIdentifier(Implicit<ContextTag<6>, Ia5String>),
    /// `iPAddress [7] IMPLICIT OCTET STRING`
    IpAddress(Implicit<ContextTag<7>, OctetString>),
    /// `registeredID [8] IMPLICIT OBJECT IDENTIFIER`
    RegisteredId(Implicit<ContextTag<8>, ObjectIdentifier>),
}

/// The alternatives, as they are read.
type Alternatives = OneOf<Implicit<ContextTag<0>, AnotherName>, Alternatives1>;

type Alternatives1 = OneOf<Implicit<ContextTag<1>, Ia5String>, Alternatives2>;

type Alternatives2 = OneOf<Implicit<ContextTag<2>, Ia5String>, Alternatives3>;

type Alternatives3 = OneOf<Implicit<ContextTag<3>, OrAddress>, Alternatives4>;

type Alternatives4 = OneOf<Explicit<ContextTag<4>, Name>, Alternatives5>;

type Alternatives5 = OneOf<Implicit<ContextTag<5>, EdiPartyName>, Alternatives6>;

type Alternatives6 = OneOf<Implicit<ContextTag<6>, Ia5String>, Alternatives7>;

type Alternatives7 = OneOf<Implicit<ContextTag<7>, OctetString>, Alternatives8>;

type Alternatives8 = Last<Implicit<ContextTag<8>, ObjectIdentifier>>;

impl AsnType for GeneralName {
    ghost use Rattle.std.specs.Prelude.{refl};
    ghost use Rattle.rasn_types.specs.Shapes.{choice, chosen};
    ghost use Rattle.rasn_types.specs.Tags.{eoc};
    ghost use Rattle.rasn_types.specs.Trees.{unconstrained};
    ghost use Rattle.rasn_pkix.specs.declared.general_name.GeneralName.TheVariants.{OtherName, Rfc822Name, DnsName, X400Address, DirectoryName, EdiPartyName, UniformResourceIdentifier, IpAddress, RegisteredId};

    ghost TAG = { eoc };

    const TAG: Tag = Tag::EOC;

    ghost CONSTRAINTS = { unconstrained };

    const CONSTRAINTS: Constraints = Constraints::NONE;

    ghost shape = { choice ⟦<Alternatives as DecodeAlternatives>⟧.parts };

    ghost tree = { elim [ OtherName x ↦ chosen 0 (⟦<Implicit<ContextTag<0>, AnotherName> as AsnType>⟧.tree x) | Rfc822Name x ↦ chosen 1 (⟦<Implicit<ContextTag<1>, Ia5String> as AsnType>⟧.tree x) | DnsName x ↦ chosen 2 (⟦<Implicit<ContextTag<2>, Ia5String> as AsnType>⟧.tree x) | X400Address x ↦ chosen 3 (⟦<Implicit<ContextTag<3>, OrAddress> as AsnType>⟧.tree x) | DirectoryName x ↦ chosen 4 (⟦<Explicit<ContextTag<4>, Name> as AsnType>⟧.tree x) | EdiPartyName x ↦ chosen 5 (⟦<Implicit<ContextTag<5>, EdiPartyName> as AsnType>⟧.tree x) | UniformResourceIdentifier x ↦ chosen 6 (⟦<Implicit<ContextTag<6>, Ia5String> as AsnType>⟧.tree x) | IpAddress x ↦ chosen 7 (⟦<Implicit<ContextTag<7>, OctetString> as AsnType>⟧.tree x) | RegisteredId x ↦ chosen 8 (⟦<Implicit<ContextTag<8>, ObjectIdentifier> as AsnType>⟧.tree x) ] };

    ghost own = { refl };
}

impl LawfulEq for GeneralName {
    ghost use Rattle.rasn_types.specs.Deciding.{deciding};
    ghost use Rattle.rasn_types.specs.Equality.{choice_decided, alternative};
    ghost use Rattle.rasn_pkix.specs.contracts.general_name.GeneralName.{enum as own_enum};
    ghost use Rattle.rasn_pkix.specs.contracts.another_name.AnotherNameLawfulEq.TheImpl.Laws.{decides-law as another_name_law};
    ghost use Rattle.rasn_pkix.specs.contracts.edi_party_name.EdiPartyNameLawfulEq.TheImpl.Laws.{decides-law as edi_party_name_law};
    ghost use Rattle.rasn_pkix.specs.contracts.name.NameLawfulEq.TheImpl.Laws.{decides-law as name_law};
    ghost use Rattle.rasn_pkix.specs.contracts.or_address.OrAddressLawfulEq.TheImpl.Laws.{decides-law as or_address_law};

    ghost decides = { choice_decided own_enum _ _ (alternative (λ x. x.0) (Prim.search (another_name_law, edi_party_name_law, name_law, or_address_law, deciding) depth 64), (alternative (λ x. x.0) (Prim.search (another_name_law, edi_party_name_law, name_law, or_address_law, deciding) depth 64), (alternative (λ x. x.0) (Prim.search (another_name_law, edi_party_name_law, name_law, or_address_law, deciding) depth 64), (alternative (λ x. x.0) (Prim.search (another_name_law, edi_party_name_law, name_law, or_address_law, deciding) depth 64), (alternative (λ x. x.0) (Prim.search (another_name_law, edi_party_name_law, name_law, or_address_law, deciding) depth 64), (alternative (λ x. x.0) (Prim.search (another_name_law, edi_party_name_law, name_law, or_address_law, deciding) depth 64), (alternative (λ x. x.0) (Prim.search (another_name_law, edi_party_name_law, name_law, or_address_law, deciding) depth 64), (alternative (λ x. x.0) (Prim.search (another_name_law, edi_party_name_law, name_law, or_address_law, deciding) depth 64), (alternative (λ x. x.0) (Prim.search (another_name_law, edi_party_name_law, name_law, or_address_law, deciding) depth 64), tt))))))))) };
}

impl Present for GeneralName {
    ghost use Rattle.rasn_types.specs.Equality.{chosen_not_absent};
    ghost use Rattle.rasn_pkix.specs.declared.general_name.GeneralName.TheVariants.{OtherName, Rfc822Name, DnsName, X400Address, DirectoryName, EdiPartyName, UniformResourceIdentifier, IpAddress, RegisteredId};

    ghost present = { elim [ OtherName x ↦ chosen_not_absent | Rfc822Name x ↦ chosen_not_absent | DnsName x ↦ chosen_not_absent | X400Address x ↦ chosen_not_absent | DirectoryName x ↦ chosen_not_absent | EdiPartyName x ↦ chosen_not_absent | UniformResourceIdentifier x ↦ chosen_not_absent | IpAddress x ↦ chosen_not_absent | RegisteredId x ↦ chosen_not_absent ] };
}

impl FirstTags for GeneralName {
    fn is_first_tag(tag: Tag) -> bool {
        <Alternatives as DecodeAlternatives>::has_tag(tag)
    }
}

impl Decode for GeneralName {
    ghost use Rattle.std.specs.Prelude.{codes};
    ghost use Rattle.rasn_de.specs.AlternativeTypes.{DecodesAlternativeBy};
    ghost use Rattle.rasn_de.specs.ValueErrors.{errors_of, IsErrorByTag};

    ghost errors = { λ _ _ old e new. errors_of (DecodesAlternativeBy ⟦<Alternatives as DecodeAlternatives>⟧.extensible ⟦<Alternatives as DecodeAlternatives>⟧.parts ⟦<Alternatives as DecodeAlternatives>⟧.inner (codes "GeneralName")) old e new × IsErrorByTag ⟦<Alternatives as DecodeAlternatives>⟧.errors old e new };

    fn decode_with_tag_and_constraints(
        decoder: &mut Decoder<'_>,
        _tag: Tag,
        _constraints: &Constraints,
    ) -> Result<GeneralName, DecodeError> {
        match decoder.read_choice::<Alternatives>("GeneralName") {
            Ok(This(value)) => Ok(GeneralName::OtherName(value)),
            Ok(Other(This(value))) => Ok(GeneralName::Rfc822Name(value)),
            Ok(Other(Other(This(value)))) => Ok(GeneralName::DnsName(value)),
            Ok(Other(Other(Other(This(value))))) => Ok(GeneralName::X400Address(value)),
            Ok(Other(Other(Other(Other(This(value)))))) => Ok(GeneralName::DirectoryName(value)),
            Ok(Other(Other(Other(Other(Other(This(value))))))) => Ok(GeneralName::EdiPartyName(
                value,
            )),
            Ok(Other(Other(Other(Other(Other(Other(This(value)))))))) => Ok(
                GeneralName::UniformResourceIdentifier(value),
            ),
            Ok(Other(Other(Other(Other(Other(Other(Other(This(value))))))))) => Ok(
                GeneralName::IpAddress(value),
            ),
            Ok(Other(Other(Other(Other(Other(Other(Other(Other(Last(value)))))))))) => Ok(
                GeneralName::RegisteredId(value),
            ),
            Err(error) => Err(error),
        }
    }
}

/// The alternatives, as they are written.
type Written<'a> = OneOf<&'a Implicit<ContextTag<0>, AnotherName>, Written1<'a>>;

type Written1<'a> = OneOf<&'a Implicit<ContextTag<1>, Ia5String>, Written2<'a>>;

type Written2<'a> = OneOf<&'a Implicit<ContextTag<2>, Ia5String>, Written3<'a>>;

type Written3<'a> = OneOf<&'a Implicit<ContextTag<3>, OrAddress>, Written4<'a>>;

type Written4<'a> = OneOf<&'a Explicit<ContextTag<4>, Name>, Written5<'a>>;

type Written5<'a> = OneOf<&'a Implicit<ContextTag<5>, EdiPartyName>, Written6<'a>>;

type Written6<'a> = OneOf<&'a Implicit<ContextTag<6>, Ia5String>, Written7<'a>>;

type Written7<'a> = OneOf<&'a Implicit<ContextTag<7>, OctetString>, Written8<'a>>;

type Written8<'a> = Last<&'a Implicit<ContextTag<8>, ObjectIdentifier>>;

impl Encode for GeneralName {
    fn encode_with_tag_and_constraints(
        &self,
        encoder: &mut Encoder,
        _tag: Tag,
        _constraints: &Constraints,
        _identifier: Identifier,
    ) -> Result<(), EncodeError> {
        match self {
            GeneralName::OtherName(value) => encoder.write_choice::<Written<'_>>(This(value)),
            GeneralName::Rfc822Name(value) => encoder.write_choice::<Written<'_>>(Other(This(
                value,
            ))),
            GeneralName::DnsName(value) => encoder.write_choice::<Written<'_>>(Other(Other(This(
                value,
            )))),
            GeneralName::X400Address(value) => encoder.write_choice::<Written<'_>>(Other(Other(
                Other(This(value)),
            ))),
            GeneralName::DirectoryName(value) => encoder.write_choice::<Written<'_>>(Other(Other(
                Other(Other(This(value))),
            ))),
            GeneralName::EdiPartyName(value) => encoder.write_choice::<Written<'_>>(Other(Other(
                Other(Other(Other(This(value)))),
            ))),
            GeneralName::UniformResourceIdentifier(value) => encoder.write_choice::<Written<'_>>(
                Other(Other(Other(Other(Other(Other(This(value))))))),
            ),
            GeneralName::IpAddress(value) => encoder.write_choice::<Written<'_>>(Other(Other(Other(
                Other(Other(Other(Other(This(value))))),
            )))),
            GeneralName::RegisteredId(value) => encoder.write_choice::<Written<'_>>(Other(Other(
                Other(Other(Other(Other(Other(Other(Last(value))))))),
            ))),
        }
    }

    fn is_present(&self) -> bool {
        true
    }
}
