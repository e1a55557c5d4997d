// Written by `soqavise generate` from the ASN.1 of SNMP: change that, and write it again.
//! `PDUs ::= CHOICE`
use crate::{BulkPdu, Pdu, TrapPdu};
use rasn::parts::OneOf::{Other, This};
use rasn::prelude::*;

/// `PDUs ::= CHOICE`
#[derive(Debug, PartialEq, Eq, Drop)]
pub enum Pdus {
    /// `get-request [0] IMPLICIT PDU`
    GetRequest(Implicit<ContextTag<0>, Pdu>),
    /// `get-next-request [1] IMPLICIT PDU`
    GetNextRequest(Implicit<ContextTag<1>, Pdu>),
    /// `response [2] IMPLICIT PDU`
    Response(Implicit<ContextTag<2>, Pdu>),
    /// `set-request [3] IMPLICIT PDU`
    SetRequest(Implicit<ContextTag<3>, Pdu>),
    /// `trap [4] IMPLICIT Trap-PDU`
    Trap(Implicit<ContextTag<4>, TrapPdu>),
    /// `get-bulk-request [5] IMPLICIT BulkPDU`
    GetBulkRequest(Implicit<ContextTag<5>, BulkPdu>),
    /// `inform-request [6] IMPLICIT PDU`
    InformRequest(Implicit<ContextTag<6>, Pdu>),
    /// `snmpV2-trap [7] IMPLICIT PDU`
    SnmpV2Trap(Implicit<ContextTag<7>, Pdu>),
    /// `report [8] IMPLICIT PDU`
    Report(Implicit<ContextTag<8>, Pdu>),
}

/// The alternatives, as they are read.
type Alternatives = OneOf<Implicit<ContextTag<0>, Pdu>, Alternatives1>;

type Alternatives1 = OneOf<Implicit<ContextTag<1>, Pdu>, Alternatives2>;

type Alternatives2 = OneOf<Implicit<ContextTag<2>, Pdu>, Alternatives3>;

type Alternatives3 = OneOf<Implicit<ContextTag<3>, Pdu>, Alternatives4>;

type Alternatives4 = OneOf<Implicit<ContextTag<4>, TrapPdu>, Alternatives5>;

type Alternatives5 = OneOf<Implicit<ContextTag<5>, BulkPdu>, Alternatives6>;

type Alternatives6 = OneOf<Implicit<ContextTag<6>, Pdu>, Alternatives7>;

type Alternatives7 = OneOf<Implicit<ContextTag<7>, Pdu>, Alternatives8>;

type Alternatives8 = Last<Implicit<ContextTag<8>, Pdu>>;

impl AsnType for Pdus {
    ghost use Rattle.std.specs.Prelude.{refl};
    ghost use Rattle.rasn_types.specs.Shapes.{choice, chosen};
    ghost use Rattle.rasn_types.specs.Tags.{eoc};
    ghost use Rattle.rasn_types.specs.Trees.{unconstrained};
    ghost use Rattle.rasn_snmp.specs.declared.pdus.Pdus.TheVariants.{GetRequest, GetNextRequest, Response, SetRequest, Trap, GetBulkRequest, InformRequest, SnmpV2Trap, Report};

    ghost TAG = { eoc };

    const TAG: Tag = Tag::EOC;

    ghost CONSTRAINTS = { unconstrained };

    const CONSTRAINTS: Constraints = Constraints::NONE;

    ghost shape = { choice ⟦<Alternatives as DecodeAlternatives>⟧.parts };

    ghost tree = { elim [ GetRequest x ↦ chosen 0 (⟦<Implicit<ContextTag<0>, Pdu> as AsnType>⟧.tree x) | GetNextRequest x ↦ chosen 1 (⟦<Implicit<ContextTag<1>, Pdu> as AsnType>⟧.tree x) | Response x ↦ chosen 2 (⟦<Implicit<ContextTag<2>, Pdu> as AsnType>⟧.tree x) | SetRequest x ↦ chosen 3 (⟦<Implicit<ContextTag<3>, Pdu> as AsnType>⟧.tree x) | Trap x ↦ chosen 4 (⟦<Implicit<ContextTag<4>, TrapPdu> as AsnType>⟧.tree x) | GetBulkRequest x ↦ chosen 5 (⟦<Implicit<ContextTag<5>, BulkPdu> as AsnType>⟧.tree x) | InformRequest x ↦ chosen 6 (⟦<Implicit<ContextTag<6>, Pdu> as AsnType>⟧.tree x) | SnmpV2Trap x ↦ chosen 7 (⟦<Implicit<ContextTag<7>, Pdu> as AsnType>⟧.tree x) | Report x ↦ chosen 8 (⟦<Implicit<ContextTag<8>, Pdu> as AsnType>⟧.tree x) ] };

    ghost own = { refl };
}

impl LawfulEq for Pdus {
    ghost use Rattle.rasn_types.specs.Deciding.{deciding};
    ghost use Rattle.rasn_types.specs.Equality.{choice_decided, alternative};
    ghost use Rattle.rasn_snmp.specs.contracts.pdus.Pdus.{enum as own_enum};
    ghost use Rattle.rasn_snmp.specs.contracts.bulk_pdu.BulkPduLawfulEq.TheImpl.Laws.{decides-law as bulk_pdu_law};
    ghost use Rattle.rasn_snmp.specs.contracts.pdu.PduLawfulEq.TheImpl.Laws.{decides-law as pdu_law};
    ghost use Rattle.rasn_snmp.specs.contracts.trap_pdu.TrapPduLawfulEq.TheImpl.Laws.{decides-law as trap_pdu_law};

    ghost decides = { choice_decided own_enum _ _ (alternative (λ x. x.0) (Prim.search (bulk_pdu_law, pdu_law, trap_pdu_law, deciding) depth 64), (alternative (λ x. x.0) (Prim.search (bulk_pdu_law, pdu_law, trap_pdu_law, deciding) depth 64), (alternative (λ x. x.0) (Prim.search (bulk_pdu_law, pdu_law, trap_pdu_law, deciding) depth 64), (alternative (λ x. x.0) (Prim.search (bulk_pdu_law, pdu_law, trap_pdu_law, deciding) depth 64), (alternative (λ x. x.0) (Prim.search (bulk_pdu_law, pdu_law, trap_pdu_law, deciding) depth 64), (alternative (λ x. x.0) (Prim.search (bulk_pdu_law, pdu_law, trap_pdu_law, deciding) depth 64), (alternative (λ x. x.0) (Prim.search (bulk_pdu_law, pdu_law, trap_pdu_law, deciding) depth 64), (alternative (λ x. x.0) (Prim.search (bulk_pdu_law, pdu_law, trap_pdu_law, deciding) depth 64), (alternative (λ x. x.0) (Prim.search (bulk_pdu_law, pdu_law, trap_pdu_law, deciding) depth 64), tt))))))))) };
}

impl Present for Pdus {
    ghost use Rattle.rasn_types.specs.Equality.{chosen_not_absent};
    ghost use Rattle.rasn_snmp.specs.declared.pdus.Pdus.TheVariants.{GetRequest, GetNextRequest, Response, SetRequest, Trap, GetBulkRequest, InformRequest, SnmpV2Trap, Report};

    ghost present = { elim [ GetRequest x ↦ chosen_not_absent | GetNextRequest x ↦ chosen_not_absent | Response x ↦ chosen_not_absent | SetRequest x ↦ chosen_not_absent | Trap x ↦ chosen_not_absent | GetBulkRequest x ↦ chosen_not_absent | InformRequest x ↦ chosen_not_absent | SnmpV2Trap x ↦ chosen_not_absent | Report x ↦ chosen_not_absent ] };
}

impl FirstTags for Pdus {
    fn is_first_tag(tag: Tag) -> bool {
        <Alternatives as DecodeAlternatives>::has_tag(tag)
    }
}

impl Decode for Pdus {
    ghost use Rattle.std.specs.Prelude.{codes};
    ghost use Rattle.rasn_de.specs.AlternativeTypes.{DecodesAlternativeBy};
    ghost use Rattle.rasn_de.specs.ValueErrors.{errors_of, IsErrorByTag};

    ghost errors = { λ _ _ old e new. errors_of (DecodesAlternativeBy ⟦<Alternatives as DecodeAlternatives>⟧.extensible ⟦<Alternatives as DecodeAlternatives>⟧.parts ⟦<Alternatives as DecodeAlternatives>⟧.inner (codes "Pdus")) old e new × IsErrorByTag ⟦<Alternatives as DecodeAlternatives>⟧.errors old e new };

    fn decode_with_tag_and_constraints(
        decoder: &mut Decoder<'_>,
        _tag: Tag,
        _constraints: &Constraints,
    ) -> Result<Pdus, DecodeError> {
        match decoder.read_choice::<Alternatives>("Pdus") {
            Ok(This(value)) => Ok(Pdus::GetRequest(value)),
            Ok(Other(This(value))) => Ok(Pdus::GetNextRequest(value)),
            Ok(Other(Other(This(value)))) => Ok(Pdus::Response(value)),
            Ok(Other(Other(Other(This(value))))) => Ok(Pdus::SetRequest(value)),
            Ok(Other(Other(Other(Other(This(value)))))) => Ok(Pdus::Trap(value)),
            Ok(Other(Other(Other(Other(Other(This(value))))))) => Ok(Pdus::GetBulkRequest(value)),
            Ok(Other(Other(Other(Other(Other(Other(This(value)))))))) => Ok(Pdus::InformRequest(
                value,
            )),
            Ok(Other(Other(Other(Other(Other(Other(Other(This(value))))))))) => Ok(Pdus::SnmpV2Trap(
                value,
            )),
            Ok(Other(Other(Other(Other(Other(Other(Other(Other(Last(value)))))))))) => Ok(
                Pdus::Report(value),
            ),
            Err(error) => Err(error),
        }
    }
}

/// The alternatives, as they are written.
type Written<'a> = OneOf<&'a Implicit<ContextTag<0>, Pdu>, Written1<'a>>;

type Written1<'a> = OneOf<&'a Implicit<ContextTag<1>, Pdu>, Written2<'a>>;

type Written2<'a> = OneOf<&'a Implicit<ContextTag<2>, Pdu>, Written3<'a>>;

type Written3<'a> = OneOf<&'a Implicit<ContextTag<3>, Pdu>, Written4<'a>>;

type Written4<'a> = OneOf<&'a Implicit<ContextTag<4>, TrapPdu>, Written5<'a>>;

type Written5<'a> = OneOf<&'a Implicit<ContextTag<5>, BulkPdu>, Written6<'a>>;

type Written6<'a> = OneOf<&'a Implicit<ContextTag<6>, Pdu>, Written7<'a>>;

type Written7<'a> = OneOf<&'a Implicit<ContextTag<7>, Pdu>, Written8<'a>>;

type Written8<'a> = Last<&'a Implicit<ContextTag<8>, Pdu>>;

impl Encode for Pdus {
    fn encode_with_tag_and_constraints(
        &self,
        encoder: &mut Encoder,
        _tag: Tag,
        _constraints: &Constraints,
        _identifier: Identifier,
    ) -> Result<(), EncodeError> {
        match self {
            Pdus::GetRequest(value) => encoder.write_choice::<Written<'_>>(This(value)),
            Pdus::GetNextRequest(value) => encoder.write_choice::<Written<'_>>(Other(This(value))),
            Pdus::Response(value) => encoder.write_choice::<Written<'_>>(Other(Other(This(value)))),
            Pdus::SetRequest(value) => encoder.write_choice::<Written<'_>>(Other(Other(Other(This(
                value,
            ))))),
            Pdus::Trap(value) => encoder.write_choice::<Written<'_>>(Other(Other(Other(Other(This(
                value,
            )))))),
            Pdus::GetBulkRequest(value) => encoder.write_choice::<Written<'_>>(Other(Other(Other(
                Other(Other(This(value))),
            )))),
            Pdus::InformRequest(value) => encoder.write_choice::<Written<'_>>(Other(Other(Other(
                Other(Other(Other(This(value)))),
            )))),
            Pdus::SnmpV2Trap(value) => encoder.write_choice::<Written<'_>>(Other(Other(Other(Other(
                Other(Other(Other(This(value)))),
            ))))),
            Pdus::Report(value) => encoder.write_choice::<Written<'_>>(Other(Other(Other(Other(
                Other(Other(Other(Other(Last(value))))),
            ))))),
        }
    }

    fn is_present(&self) -> bool {
        true
    }
}
