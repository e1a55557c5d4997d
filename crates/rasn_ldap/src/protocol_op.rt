// Written by `soqavise generate` from the ASN.1 of LDAP: change that, and write it again.
//! `ProtocolOp ::= CHOICE`
use crate::{
    AbandonRequest, AddRequest, AddResponse, BindRequest, BindResponse, CompareRequest,
    CompareResponse, DelRequest, DelResponse, ExtendedRequest, ExtendedResponse,
    IntermediateResponse, ModifyDnRequest, ModifyDnResponse, ModifyRequest, ModifyResponse,
    SearchRequest, SearchResultDone, SearchResultEntry, SearchResultReference, UnbindRequest,
};
use rasn::parts::OneOf::{Other, This};
use rasn::prelude::*;

/// `ProtocolOp ::= CHOICE`
#[derive(Debug, PartialEq, Eq, Drop)]
pub enum ProtocolOp {
    /// `bindRequest BindRequest`
    BindRequest(BindRequest),
    /// `bindResponse BindResponse`
    BindResponse(BindResponse),
    /// `unbindRequest UnbindRequest`
    UnbindRequest(UnbindRequest),
    /// `searchRequest SearchRequest`
    SearchRequest(SearchRequest),
    /// `searchResEntry SearchResultEntry`
    SearchResEntry(SearchResultEntry),
    /// `searchResDone SearchResultDone`
    SearchResDone(SearchResultDone),
    /// `searchResRef SearchResultReference`
    SearchResRef(SearchResultReference),
    /// `modifyRequest ModifyRequest`
    ModifyRequest(ModifyRequest),
    /// `modifyResponse ModifyResponse`
    ModifyResponse(ModifyResponse),
    /// `addRequest AddRequest`
    AddRequest(AddRequest),
    /// `addResponse AddResponse`
    AddResponse(AddResponse),
    /// `delRequest DelRequest`
    DelRequest(DelRequest),
    /// `delResponse DelResponse`
    DelResponse(DelResponse),
    /// `modDNRequest ModifyDNRequest`
    ModDnRequest(ModifyDnRequest),
    /// `modDNResponse ModifyDNResponse`
    ModDnResponse(ModifyDnResponse),
    /// `compareRequest CompareRequest`
    CompareRequest(CompareRequest),
    /// `compareResponse CompareResponse`
    CompareResponse(CompareResponse),
    /// `abandonRequest AbandonRequest`
    AbandonRequest(AbandonRequest),
    /// `extendedReq ExtendedRequest`
    ExtendedReq(ExtendedRequest),
    /// `extendedResp ExtendedResponse`
    ExtendedResp(ExtendedResponse),
    /// `intermediateResponse IntermediateResponse`
    IntermediateResponse(IntermediateResponse),
    /// `...`
    Unknown(Any),
}

/// The alternatives, as they are read.
type Alternatives = OneOf<BindRequest, Alternatives1>;

type Alternatives1 = OneOf<BindResponse, Alternatives2>;

type Alternatives2 = OneOf<UnbindRequest, Alternatives3>;

type Alternatives3 = OneOf<SearchRequest, Alternatives4>;

type Alternatives4 = OneOf<SearchResultEntry, Alternatives5>;

type Alternatives5 = OneOf<SearchResultDone, Alternatives6>;

type Alternatives6 = OneOf<SearchResultReference, Alternatives7>;

type Alternatives7 = OneOf<ModifyRequest, Alternatives8>;

type Alternatives8 = OneOf<ModifyResponse, Alternatives9>;

type Alternatives9 = OneOf<AddRequest, Alternatives10>;

type Alternatives10 = OneOf<AddResponse, Alternatives11>;

type Alternatives11 = OneOf<DelRequest, Alternatives12>;

type Alternatives12 = OneOf<DelResponse, Alternatives13>;

type Alternatives13 = OneOf<ModifyDnRequest, Alternatives14>;

type Alternatives14 = OneOf<ModifyDnResponse, Alternatives15>;

type Alternatives15 = OneOf<CompareRequest, Alternatives16>;

type Alternatives16 = OneOf<CompareResponse, Alternatives17>;

type Alternatives17 = OneOf<AbandonRequest, Alternatives18>;

type Alternatives18 = OneOf<ExtendedRequest, Alternatives19>;

type Alternatives19 = OneOf<ExtendedResponse, Alternatives20>;

type Alternatives20 = OneOf<IntermediateResponse, Alternatives21>;

type Alternatives21 = Any;

impl AsnType for ProtocolOp {
    ghost use Rattle.std.specs.Prelude.{refl};
    ghost use Rattle.rasn_types.specs.Shapes.{open_choice, chosen};
    ghost use Rattle.rasn_types.specs.Tags.{eoc};
    ghost use Rattle.rasn_types.specs.Trees.{unconstrained};
    ghost use Rattle.rasn_ldap.specs.declared.protocol_op.ProtocolOp.TheVariants.{BindRequest, BindResponse, UnbindRequest, SearchRequest, SearchResEntry, SearchResDone, SearchResRef, ModifyRequest, ModifyResponse, AddRequest, AddResponse, DelRequest, DelResponse, ModDnRequest, ModDnResponse, CompareRequest, CompareResponse, AbandonRequest, ExtendedReq, ExtendedResp, IntermediateResponse, Unknown};

    ghost TAG = { eoc };

    const TAG: Tag = Tag::EOC;

    ghost CONSTRAINTS = { unconstrained };

    const CONSTRAINTS: Constraints = Constraints::NONE;

    ghost shape = { open_choice ⟦<Alternatives as DecodeAlternatives>⟧.parts };

    ghost tree = { elim [ BindRequest x ↦ chosen 0 (⟦<BindRequest as AsnType>⟧.tree x) | BindResponse x ↦ chosen 1 (⟦<BindResponse as AsnType>⟧.tree x) | UnbindRequest x ↦ chosen 2 (⟦<UnbindRequest as AsnType>⟧.tree x) | SearchRequest x ↦ chosen 3 (⟦<SearchRequest as AsnType>⟧.tree x) | SearchResEntry x ↦ chosen 4 (⟦<SearchResultEntry as AsnType>⟧.tree x) | SearchResDone x ↦ chosen 5 (⟦<SearchResultDone as AsnType>⟧.tree x) | SearchResRef x ↦ chosen 6 (⟦<SearchResultReference as AsnType>⟧.tree x) | ModifyRequest x ↦ chosen 7 (⟦<ModifyRequest as AsnType>⟧.tree x) | ModifyResponse x ↦ chosen 8 (⟦<ModifyResponse as AsnType>⟧.tree x) | AddRequest x ↦ chosen 9 (⟦<AddRequest as AsnType>⟧.tree x) | AddResponse x ↦ chosen 10 (⟦<AddResponse as AsnType>⟧.tree x) | DelRequest x ↦ chosen 11 (⟦<DelRequest as AsnType>⟧.tree x) | DelResponse x ↦ chosen 12 (⟦<DelResponse as AsnType>⟧.tree x) | ModDnRequest x ↦ chosen 13 (⟦<ModifyDnRequest as AsnType>⟧.tree x) | ModDnResponse x ↦ chosen 14 (⟦<ModifyDnResponse as AsnType>⟧.tree x) | CompareRequest x ↦ chosen 15 (⟦<CompareRequest as AsnType>⟧.tree x) | CompareResponse x ↦ chosen 16 (⟦<CompareResponse as AsnType>⟧.tree x) | AbandonRequest x ↦ chosen 17 (⟦<AbandonRequest as AsnType>⟧.tree x) | ExtendedReq x ↦ chosen 18 (⟦<ExtendedRequest as AsnType>⟧.tree x) | ExtendedResp x ↦ chosen 19 (⟦<ExtendedResponse as AsnType>⟧.tree x) | IntermediateResponse x ↦ chosen 20 (⟦<IntermediateResponse as AsnType>⟧.tree x) | Unknown x ↦ chosen 21 (⟦<Any as AsnType>⟧.tree x) ] };

    ghost own = { refl };
}

impl LawfulEq for ProtocolOp {
    ghost use Rattle.rasn_types.specs.Deciding.{deciding};
    ghost use Rattle.rasn_types.specs.Equality.{choice_decided, alternative};
    ghost use Rattle.rasn_ldap.specs.contracts.protocol_op.ProtocolOp.{enum as own_enum};
    ghost use Rattle.rasn_ldap.specs.contracts.add_request.AddRequestLawfulEq.TheImpl.Laws.{decides-law as add_request_law};
    ghost use Rattle.rasn_ldap.specs.contracts.bind_request.BindRequestLawfulEq.TheImpl.Laws.{decides-law as bind_request_law};
    ghost use Rattle.rasn_ldap.specs.contracts.bind_response.BindResponseLawfulEq.TheImpl.Laws.{decides-law as bind_response_law};
    ghost use Rattle.rasn_ldap.specs.contracts.compare_request.CompareRequestLawfulEq.TheImpl.Laws.{decides-law as compare_request_law};
    ghost use Rattle.rasn_ldap.specs.contracts.extended_request.ExtendedRequestLawfulEq.TheImpl.Laws.{decides-law as extended_request_law};
    ghost use Rattle.rasn_ldap.specs.contracts.extended_response.ExtendedResponseLawfulEq.TheImpl.Laws.{decides-law as extended_response_law};
    ghost use Rattle.rasn_ldap.specs.contracts.intermediate_response.IntermediateResponseLawfulEq.TheImpl.Laws.{decides-law as intermediate_response_law};
    ghost use Rattle.rasn_ldap.specs.contracts.ldap_result.LdapResultLawfulEq.TheImpl.Laws.{decides-law as ldap_result_law};
    ghost use Rattle.rasn_ldap.specs.contracts.max_int.MaxIntLawfulEq.TheImpl.Laws.{decides-law as max_int_law};
    ghost use Rattle.rasn_ldap.specs.contracts.modify_dn_request.ModifyDnRequestLawfulEq.TheImpl.Laws.{decides-law as modify_dn_request_law};
    ghost use Rattle.rasn_ldap.specs.contracts.modify_request.ModifyRequestLawfulEq.TheImpl.Laws.{decides-law as modify_request_law};
    ghost use Rattle.rasn_ldap.specs.contracts.referral.ReferralLawfulEq.TheImpl.Laws.{decides-law as referral_law};
    ghost use Rattle.rasn_ldap.specs.contracts.search_request.SearchRequestLawfulEq.TheImpl.Laws.{decides-law as search_request_law};
    ghost use Rattle.rasn_ldap.specs.contracts.search_result_entry.SearchResultEntryLawfulEq.TheImpl.Laws.{decides-law as search_result_entry_law};

    ghost decides = { choice_decided own_enum _ _ (alternative (λ x. x.0) (Prim.search (add_request_law, bind_request_law, bind_response_law, compare_request_law, extended_request_law, extended_response_law, intermediate_response_law, ldap_result_law, max_int_law, modify_dn_request_law, modify_request_law, referral_law, search_request_law, search_result_entry_law, deciding) depth 64), (alternative (λ x. x.0) (Prim.search (add_request_law, bind_request_law, bind_response_law, compare_request_law, extended_request_law, extended_response_law, intermediate_response_law, ldap_result_law, max_int_law, modify_dn_request_law, modify_request_law, referral_law, search_request_law, search_result_entry_law, deciding) depth 64), (alternative (λ x. x.0) (Prim.search (add_request_law, bind_request_law, bind_response_law, compare_request_law, extended_request_law, extended_response_law, intermediate_response_law, ldap_result_law, max_int_law, modify_dn_request_law, modify_request_law, referral_law, search_request_law, search_result_entry_law, deciding) depth 64), (alternative (λ x. x.0) (Prim.search (add_request_law, bind_request_law, bind_response_law, compare_request_law, extended_request_law, extended_response_law, intermediate_response_law, ldap_result_law, max_int_law, modify_dn_request_law, modify_request_law, referral_law, search_request_law, search_result_entry_law, deciding) depth 64), (alternative (λ x. x.0) (Prim.search (add_request_law, bind_request_law, bind_response_law, compare_request_law, extended_request_law, extended_response_law, intermediate_response_law, ldap_result_law, max_int_law, modify_dn_request_law, modify_request_law, referral_law, search_request_law, search_result_entry_law, deciding) depth 64), (alternative (λ x. x.0) (Prim.search (add_request_law, bind_request_law, bind_response_law, compare_request_law, extended_request_law, extended_response_law, intermediate_response_law, ldap_result_law, max_int_law, modify_dn_request_law, modify_request_law, referral_law, search_request_law, search_result_entry_law, deciding) depth 64), (alternative (λ x. x.0) (Prim.search (add_request_law, bind_request_law, bind_response_law, compare_request_law, extended_request_law, extended_response_law, intermediate_response_law, ldap_result_law, max_int_law, modify_dn_request_law, modify_request_law, referral_law, search_request_law, search_result_entry_law, deciding) depth 64), (alternative (λ x. x.0) (Prim.search (add_request_law, bind_request_law, bind_response_law, compare_request_law, extended_request_law, extended_response_law, intermediate_response_law, ldap_result_law, max_int_law, modify_dn_request_law, modify_request_law, referral_law, search_request_law, search_result_entry_law, deciding) depth 64), (alternative (λ x. x.0) (Prim.search (add_request_law, bind_request_law, bind_response_law, compare_request_law, extended_request_law, extended_response_law, intermediate_response_law, ldap_result_law, max_int_law, modify_dn_request_law, modify_request_law, referral_law, search_request_law, search_result_entry_law, deciding) depth 64), (alternative (λ x. x.0) (Prim.search (add_request_law, bind_request_law, bind_response_law, compare_request_law, extended_request_law, extended_response_law, intermediate_response_law, ldap_result_law, max_int_law, modify_dn_request_law, modify_request_law, referral_law, search_request_law, search_result_entry_law, deciding) depth 64), (alternative (λ x. x.0) (Prim.search (add_request_law, bind_request_law, bind_response_law, compare_request_law, extended_request_law, extended_response_law, intermediate_response_law, ldap_result_law, max_int_law, modify_dn_request_law, modify_request_law, referral_law, search_request_law, search_result_entry_law, deciding) depth 64), (alternative (λ x. x.0) (Prim.search (add_request_law, bind_request_law, bind_response_law, compare_request_law, extended_request_law, extended_response_law, intermediate_response_law, ldap_result_law, max_int_law, modify_dn_request_law, modify_request_law, referral_law, search_request_law, search_result_entry_law, deciding) depth 64), (alternative (λ x. x.0) (Prim.search (add_request_law, bind_request_law, bind_response_law, compare_request_law, extended_request_law, extended_response_law, intermediate_response_law, ldap_result_law, max_int_law, modify_dn_request_law, modify_request_law, referral_law, search_request_law, search_result_entry_law, deciding) depth 64), (alternative (λ x. x.0) (Prim.search (add_request_law, bind_request_law, bind_response_law, compare_request_law, extended_request_law, extended_response_law, intermediate_response_law, ldap_result_law, max_int_law, modify_dn_request_law, modify_request_law, referral_law, search_request_law, search_result_entry_law, deciding) depth 64), (alternative (λ x. x.0) (Prim.search (add_request_law, bind_request_law, bind_response_law, compare_request_law, extended_request_law, extended_response_law, intermediate_response_law, ldap_result_law, max_int_law, modify_dn_request_law, modify_request_law, referral_law, search_request_law, search_result_entry_law, deciding) depth 64), (alternative (λ x. x.0) (Prim.search (add_request_law, bind_request_law, bind_response_law, compare_request_law, extended_request_law, extended_response_law, intermediate_response_law, ldap_result_law, max_int_law, modify_dn_request_law, modify_request_law, referral_law, search_request_law, search_result_entry_law, deciding) depth 64), (alternative (λ x. x.0) (Prim.search (add_request_law, bind_request_law, bind_response_law, compare_request_law, extended_request_law, extended_response_law, intermediate_response_law, ldap_result_law, max_int_law, modify_dn_request_law, modify_request_law, referral_law, search_request_law, search_result_entry_law, deciding) depth 64), (alternative (λ x. x.0) (Prim.search (add_request_law, bind_request_law, bind_response_law, compare_request_law, extended_request_law, extended_response_law, intermediate_response_law, ldap_result_law, max_int_law, modify_dn_request_law, modify_request_law, referral_law, search_request_law, search_result_entry_law, deciding) depth 64), (alternative (λ x. x.0) (Prim.search (add_request_law, bind_request_law, bind_response_law, compare_request_law, extended_request_law, extended_response_law, intermediate_response_law, ldap_result_law, max_int_law, modify_dn_request_law, modify_request_law, referral_law, search_request_law, search_result_entry_law, deciding) depth 64), (alternative (λ x. x.0) (Prim.search (add_request_law, bind_request_law, bind_response_law, compare_request_law, extended_request_law, extended_response_law, intermediate_response_law, ldap_result_law, max_int_law, modify_dn_request_law, modify_request_law, referral_law, search_request_law, search_result_entry_law, deciding) depth 64), (alternative (λ x. x.0) (Prim.search (add_request_law, bind_request_law, bind_response_law, compare_request_law, extended_request_law, extended_response_law, intermediate_response_law, ldap_result_law, max_int_law, modify_dn_request_law, modify_request_law, referral_law, search_request_law, search_result_entry_law, deciding) depth 64), (alternative (λ x. x.0) (Prim.search (add_request_law, bind_request_law, bind_response_law, compare_request_law, extended_request_law, extended_response_law, intermediate_response_law, ldap_result_law, max_int_law, modify_dn_request_law, modify_request_law, referral_law, search_request_law, search_result_entry_law, deciding) depth 64), tt)))))))))))))))))))))) };
}

impl Present for ProtocolOp {
    ghost use Rattle.rasn_types.specs.Equality.{chosen_not_absent};
    ghost use Rattle.rasn_ldap.specs.declared.protocol_op.ProtocolOp.TheVariants.{BindRequest, BindResponse, UnbindRequest, SearchRequest, SearchResEntry, SearchResDone, SearchResRef, ModifyRequest, ModifyResponse, AddRequest, AddResponse, DelRequest, DelResponse, ModDnRequest, ModDnResponse, CompareRequest, CompareResponse, AbandonRequest, ExtendedReq, ExtendedResp, IntermediateResponse, Unknown};

    ghost present = { elim [ BindRequest x ↦ chosen_not_absent | BindResponse x ↦ chosen_not_absent | UnbindRequest x ↦ chosen_not_absent | SearchRequest x ↦ chosen_not_absent | SearchResEntry x ↦ chosen_not_absent | SearchResDone x ↦ chosen_not_absent | SearchResRef x ↦ chosen_not_absent | ModifyRequest x ↦ chosen_not_absent | ModifyResponse x ↦ chosen_not_absent | AddRequest x ↦ chosen_not_absent | AddResponse x ↦ chosen_not_absent | DelRequest x ↦ chosen_not_absent | DelResponse x ↦ chosen_not_absent | ModDnRequest x ↦ chosen_not_absent | ModDnResponse x ↦ chosen_not_absent | CompareRequest x ↦ chosen_not_absent | CompareResponse x ↦ chosen_not_absent | AbandonRequest x ↦ chosen_not_absent | ExtendedReq x ↦ chosen_not_absent | ExtendedResp x ↦ chosen_not_absent | IntermediateResponse x ↦ chosen_not_absent | Unknown x ↦ chosen_not_absent ] };
}

impl Decode for ProtocolOp {
    ghost use Rattle.std.specs.Prelude.{codes};
    ghost use Rattle.rasn_de.specs.AlternativeTypes.{DecodesAlternativeBy};
    ghost use Rattle.rasn_de.specs.ValueErrors.{errors_of, IsErrorByTag};

    ghost errors = { λ _ _ old e new. errors_of (DecodesAlternativeBy ⟦<Alternatives as DecodeAlternatives>⟧.extensible ⟦<Alternatives as DecodeAlternatives>⟧.parts ⟦<Alternatives as DecodeAlternatives>⟧.inner (codes "ProtocolOp")) old e new × IsErrorByTag ⟦<Alternatives as DecodeAlternatives>⟧.errors old e new };

    fn decode_with_tag_and_constraints(
        decoder: &mut Decoder<'_>,
        _tag: Tag,
        _constraints: &Constraints,
    ) -> Result<ProtocolOp, DecodeError> {
        match decoder.read_choice::<Alternatives>("ProtocolOp") {
            Ok(This(value)) => Ok(ProtocolOp::BindRequest(value)),
            Ok(Other(This(value))) => Ok(ProtocolOp::BindResponse(value)),
            Ok(Other(Other(This(value)))) => Ok(ProtocolOp::UnbindRequest(value)),
            Ok(Other(Other(Other(This(value))))) => Ok(ProtocolOp::SearchRequest(value)),
            Ok(Other(Other(Other(Other(This(value)))))) => Ok(ProtocolOp::SearchResEntry(value)),
            Ok(Other(Other(Other(Other(Other(This(value))))))) => Ok(ProtocolOp::SearchResDone(
                value,
            )),
            Ok(Other(Other(Other(Other(Other(Other(This(value)))))))) => Ok(
                ProtocolOp::SearchResRef(value),
            ),
            Ok(Other(Other(Other(Other(Other(Other(Other(This(value))))))))) => Ok(
                ProtocolOp::ModifyRequest(value),
            ),
            Ok(Other(Other(Other(Other(Other(Other(Other(Other(This(value)))))))))) => Ok(
                ProtocolOp::ModifyResponse(value),
            ),
            Ok(Other(Other(Other(Other(Other(Other(Other(Other(Other(This(value))))))))))) => Ok(
                ProtocolOp::AddRequest(value),
            ),
            Ok(Other(Other(Other(Other(Other(Other(Other(Other(Other(Other(This(value)))))))))))) =>
                Ok(ProtocolOp::AddResponse(value)),
            Ok(
                Other(
                    Other(
                        Other(Other(Other(Other(Other(Other(Other(Other(Other(This(value)))))))))),
                    ),
                ),
            ) => Ok(ProtocolOp::DelRequest(value)),
            Ok(
                Other(
                    Other(
                        Other(
                            Other(
                                Other(Other(Other(Other(Other(Other(Other(Other(This(value))))))))),
                            ),
                        ),
                    ),
                ),
            ) => Ok(ProtocolOp::DelResponse(value)),
            Ok(
                Other(
                    Other(
                        Other(
                            Other(
                                Other(
                                    Other(
                                        Other(
                                            Other(Other(Other(Other(Other(Other(This(value))))))),
                                        ),
                                    ),
                                ),
                            ),
                        ),
                    ),
                ),
            ) => Ok(ProtocolOp::ModDnRequest(value)),
            Ok(
                Other(
                    Other(
                        Other(
                            Other(
                                Other(
                                    Other(
                                        Other(
                                            Other(
                                                Other(
                                                    Other(Other(Other(Other(Other(This(value)))))),
                                                ),
                                            ),
                                        ),
                                    ),
                                ),
                            ),
                        ),
                    ),
                ),
            ) => Ok(ProtocolOp::ModDnResponse(value)),
            Ok(
                Other(
                    Other(
                        Other(
                            Other(
                                Other(
                                    Other(
                                        Other(
                                            Other(
                                                Other(
                                                    Other(
                                                        Other(
                                                            Other(Other(Other(Other(This(value))))),
                                                        ),
                                                    ),
                                                ),
                                            ),
                                        ),
                                    ),
                                ),
                            ),
                        ),
                    ),
                ),
            ) => Ok(ProtocolOp::CompareRequest(value)),
            Ok(
                Other(
                    Other(
                        Other(
                            Other(
                                Other(
                                    Other(
                                        Other(
                                            Other(
                                                Other(
                                                    Other(
                                                        Other(
                                                            Other(
                                                                Other(
                                                                    Other(
                                                                        Other(Other(This(value))),
                                                                    ),
                                                                ),
                                                            ),
                                                        ),
                                                    ),
                                                ),
                                            ),
                                        ),
                                    ),
                                ),
                            ),
                        ),
                    ),
                ),
            ) => Ok(ProtocolOp::CompareResponse(value)),
            Ok(
                Other(
                    Other(
                        Other(
                            Other(
                                Other(
                                    Other(
                                        Other(
                                            Other(
                                                Other(
                                                    Other(
                                                        Other(
                                                            Other(
                                                                Other(
                                                                    Other(
                                                                        Other(
                                                                            Other(
                                                                                Other(This(value)),
                                                                            ),
                                                                        ),
                                                                    ),
                                                                ),
                                                            ),
                                                        ),
                                                    ),
                                                ),
                                            ),
                                        ),
                                    ),
                                ),
                            ),
                        ),
                    ),
                ),
            ) => Ok(ProtocolOp::AbandonRequest(value)),
            Ok(
                Other(
                    Other(
                        Other(
                            Other(
                                Other(
                                    Other(
                                        Other(
                                            Other(
                                                Other(
                                                    Other(
                                                        Other(
                                                            Other(
                                                                Other(
                                                                    Other(
                                                                        Other(
                                                                            Other(
                                                                                Other(
                                                                                    Other(
                                                                                        This(value),
                                                                                    ),
                                                                                ),
                                                                            ),
                                                                        ),
                                                                    ),
                                                                ),
                                                            ),
                                                        ),
                                                    ),
                                                ),
                                            ),
                                        ),
                                    ),
                                ),
                            ),
                        ),
                    ),
                ),
            ) => Ok(ProtocolOp::ExtendedReq(value)),
            Ok(
                Other(
                    Other(
                        Other(
                            Other(
                                Other(
                                    Other(
                                        Other(
                                            Other(
                                                Other(
                                                    Other(
                                                        Other(
                                                            Other(
                                                                Other(
                                                                    Other(
                                                                        Other(
                                                                            Other(
                                                                                Other(
                                                                                    Other(
                                                                                        Other(
                                                                                            This(
                                                                                                value,
                                                                                            ),
                                                                                        ),
                                                                                    ),
                                                                                ),
                                                                            ),
                                                                        ),
                                                                    ),
                                                                ),
                                                            ),
                                                        ),
                                                    ),
                                                ),
                                            ),
                                        ),
                                    ),
                                ),
                            ),
                        ),
                    ),
                ),
            ) => Ok(ProtocolOp::ExtendedResp(value)),
            Ok(
                Other(
                    Other(
                        Other(
                            Other(
                                Other(
                                    Other(
                                        Other(
                                            Other(
                                                Other(
                                                    Other(
                                                        Other(
                                                            Other(
                                                                Other(
                                                                    Other(
                                                                        Other(
                                                                            Other(
                                                                                Other(
                                                                                    Other(
                                                                                        Other(
                                                                                            Other(
                                                                                                This(
                                                                                                    value,
                                                                                                ),
                                                                                            ),
                                                                                        ),
                                                                                    ),
                                                                                ),
                                                                            ),
                                                                        ),
                                                                    ),
                                                                ),
                                                            ),
                                                        ),
                                                    ),
                                                ),
                                            ),
                                        ),
                                    ),
                                ),
                            ),
                        ),
                    ),
                ),
            ) => Ok(ProtocolOp::IntermediateResponse(value)),
            Ok(
                Other(
                    Other(
                        Other(
                            Other(
                                Other(
                                    Other(
                                        Other(
                                            Other(
                                                Other(
                                                    Other(
                                                        Other(
                                                            Other(
                                                                Other(
                                                                    Other(
                                                                        Other(
                                                                            Other(
                                                                                Other(
                                                                                    Other(
                                                                                        Other(
                                                                                            Other(
                                                                                                Other(
                                                                                                    value,
                                                                                                ),
                                                                                            ),
                                                                                        ),
                                                                                    ),
                                                                                ),
                                                                            ),
                                                                        ),
                                                                    ),
                                                                ),
                                                            ),
                                                        ),
                                                    ),
                                                ),
                                            ),
                                        ),
                                    ),
                                ),
                            ),
                        ),
                    ),
                ),
            ) => Ok(ProtocolOp::Unknown(value)),
            Err(error) => Err(error),
        }
    }
}

/// The alternatives, as they are written.
type Written<'a> = OneOf<&'a BindRequest, Written1<'a>>;

type Written1<'a> = OneOf<&'a BindResponse, Written2<'a>>;

type Written2<'a> = OneOf<&'a UnbindRequest, Written3<'a>>;

type Written3<'a> = OneOf<&'a SearchRequest, Written4<'a>>;

type Written4<'a> = OneOf<&'a SearchResultEntry, Written5<'a>>;

type Written5<'a> = OneOf<&'a SearchResultDone, Written6<'a>>;

type Written6<'a> = OneOf<&'a SearchResultReference, Written7<'a>>;

type Written7<'a> = OneOf<&'a ModifyRequest, Written8<'a>>;

type Written8<'a> = OneOf<&'a ModifyResponse, Written9<'a>>;

type Written9<'a> = OneOf<&'a AddRequest, Written10<'a>>;

type Written10<'a> = OneOf<&'a AddResponse, Written11<'a>>;

type Written11<'a> = OneOf<&'a DelRequest, Written12<'a>>;

type Written12<'a> = OneOf<&'a DelResponse, Written13<'a>>;

type Written13<'a> = OneOf<&'a ModifyDnRequest, Written14<'a>>;

type Written14<'a> = OneOf<&'a ModifyDnResponse, Written15<'a>>;

type Written15<'a> = OneOf<&'a CompareRequest, Written16<'a>>;

type Written16<'a> = OneOf<&'a CompareResponse, Written17<'a>>;

type Written17<'a> = OneOf<&'a AbandonRequest, Written18<'a>>;

type Written18<'a> = OneOf<&'a ExtendedRequest, Written19<'a>>;

type Written19<'a> = OneOf<&'a ExtendedResponse, Written20<'a>>;

type Written20<'a> = OneOf<&'a IntermediateResponse, Written21<'a>>;

type Written21<'a> = &'a Any;

impl Encode for ProtocolOp {
    fn encode_with_tag_and_constraints(
        &self,
        encoder: &mut Encoder,
        _tag: Tag,
        _constraints: &Constraints,
        _identifier: Identifier,
    ) -> Result<(), EncodeError> {
        match self {
            ProtocolOp::BindRequest(value) => encoder.write_choice::<Written<'_>>(This(value)),
            ProtocolOp::BindResponse(value) => encoder.write_choice::<Written<'_>>(Other(This(
                value,
            ))),
            ProtocolOp::UnbindRequest(value) => encoder.write_choice::<Written<'_>>(Other(Other(
                This(value),
            ))),
            ProtocolOp::SearchRequest(value) => encoder.write_choice::<Written<'_>>(Other(Other(
                Other(This(value)),
            ))),
            ProtocolOp::SearchResEntry(value) => encoder.write_choice::<Written<'_>>(Other(Other(
                Other(Other(This(value))),
            ))),
            ProtocolOp::SearchResDone(value) => encoder.write_choice::<Written<'_>>(Other(Other(
                Other(Other(Other(This(value)))),
            ))),
            ProtocolOp::SearchResRef(value) => encoder.write_choice::<Written<'_>>(Other(Other(
                Other(Other(Other(Other(This(value))))),
            ))),
            ProtocolOp::ModifyRequest(value) => encoder.write_choice::<Written<'_>>(Other(Other(
                Other(Other(Other(Other(Other(This(value)))))),
            ))),
            ProtocolOp::ModifyResponse(value) => encoder.write_choice::<Written<'_>>(Other(Other(
                Other(Other(Other(Other(Other(Other(This(value))))))),
            ))),
            ProtocolOp::AddRequest(value) => encoder.write_choice::<Written<'_>>(Other(Other(Other(
                Other(Other(Other(Other(Other(Other(This(value))))))),
            )))),
            ProtocolOp::AddResponse(value) => encoder.write_choice::<Written<'_>>(Other(Other(Other(
                Other(Other(Other(Other(Other(Other(Other(This(value)))))))),
            )))),
            ProtocolOp::DelRequest(value) => encoder.write_choice::<Written<'_>>(Other(Other(Other(
                Other(Other(Other(Other(Other(Other(Other(Other(This(value))))))))),
            )))),
            ProtocolOp::DelResponse(value) => encoder.write_choice::<Written<'_>>(Other(Other(Other(
                Other(Other(Other(Other(Other(Other(Other(Other(Other(This(value)))))))))),
            )))),
            ProtocolOp::ModDnRequest(value) => encoder.write_choice::<Written<'_>>(Other(Other(
                Other(Other(Other(Other(Other(Other(Other(Other(Other(Other(Other(This(
                    value,
                )))))))))))),
            ))),
            ProtocolOp::ModDnResponse(value) => encoder.write_choice::<Written<'_>>(Other(Other(
                Other(Other(Other(Other(Other(Other(Other(Other(Other(Other(Other(Other(This(
                    value,
                ))))))))))))),
            ))),
            ProtocolOp::CompareRequest(value) => encoder.write_choice::<Written<'_>>(Other(Other(
                Other(Other(Other(Other(Other(Other(Other(Other(Other(Other(Other(Other(Other(This(
                    value,
                )))))))))))))),
            ))),
            ProtocolOp::CompareResponse(value) => encoder.write_choice::<Written<'_>>(Other(Other(
                Other(Other(Other(Other(Other(Other(Other(Other(Other(Other(Other(Other(Other(Other(
                    This(value),
                )))))))))))))),
            ))),
            ProtocolOp::AbandonRequest(value) => encoder.write_choice::<Written<'_>>(Other(Other(
                Other(Other(Other(Other(Other(Other(Other(Other(Other(Other(Other(Other(Other(Other(
                    Other(This(value)),
                )))))))))))))),
            ))),
            ProtocolOp::ExtendedReq(value) => encoder.write_choice::<Written<'_>>(Other(Other(Other(
                Other(Other(Other(Other(Other(Other(Other(Other(Other(Other(Other(Other(Other(Other(
                    Other(This(value)),
                )))))))))))))),
            )))),
            ProtocolOp::ExtendedResp(value) => encoder.write_choice::<Written<'_>>(Other(Other(
                Other(Other(Other(Other(Other(Other(Other(Other(Other(Other(Other(Other(Other(Other(
                    Other(Other(Other(This(value)))),
                )))))))))))))),
            ))),
            ProtocolOp::IntermediateResponse(value) => encoder.write_choice::<Written<'_>>(Other(
                Other(Other(Other(Other(Other(Other(Other(Other(Other(Other(Other(Other(Other(Other(
                    Other(Other(Other(Other(Other(This(value)))))),
                )))))))))))))),
            )),
            ProtocolOp::Unknown(value) => encoder.write_choice::<Written<'_>>(Other(Other(Other(
                Other(Other(Other(Other(Other(Other(Other(Other(Other(Other(Other(Other(Other(Other(
                    Other(Other(Other(Other(value)))),
                )))))))))))))),
            )))),
        }
    }

    fn is_present(&self) -> bool {
        true
    }
}
