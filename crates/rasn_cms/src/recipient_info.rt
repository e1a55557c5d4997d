// Written by `soqavise generate` from the ASN.1 of CmsMessages, CMS: change that, and write it
// again.
//! `RecipientInfo ::= CHOICE`
use crate::{
    KekRecipientInfo, KeyAgreeRecipientInfo, KeyTransRecipientInfo, OtherRecipientInfo,
    PasswordRecipientInfo,
};
use rasn::parts::OneOf::{Other, This};
use rasn::prelude::*;

/// `RecipientInfo ::= CHOICE`
#[derive(Debug, PartialEq, Eq, Drop)]
pub enum RecipientInfo {
    /// `ktri KeyTransRecipientInfo`
    Ktri(KeyTransRecipientInfo),
    /// `kari [1] IMPLICIT KeyAgreeRecipientInfo`
    Kari(Implicit<ContextTag<1>, KeyAgreeRecipientInfo>),
    /// `kekri [2] IMPLICIT KEKRecipientInfo`
    Kekri(Implicit<ContextTag<2>, KekRecipientInfo>),
    /// `pwri [3] IMPLICIT PasswordRecipientInfo`
    Pwri(Implicit<ContextTag<3>, PasswordRecipientInfo>),
    /// `ori [4] IMPLICIT OtherRecipientInfo`
    Ori(Implicit<ContextTag<4>, OtherRecipientInfo>),
}

/// The alternatives, as they are read.
type Alternatives = OneOf<KeyTransRecipientInfo, Alternatives1>;

type Alternatives1 = OneOf<Implicit<ContextTag<1>, KeyAgreeRecipientInfo>, Alternatives2>;

type Alternatives2 = OneOf<Implicit<ContextTag<2>, KekRecipientInfo>, Alternatives3>;

type Alternatives3 = OneOf<Implicit<ContextTag<3>, PasswordRecipientInfo>, Alternatives4>;

type Alternatives4 = Last<Implicit<ContextTag<4>, OtherRecipientInfo>>;

impl AsnType for RecipientInfo {
    ghost use Rattle.std.specs.Prelude.{refl};
    ghost use Rattle.rasn_types.specs.Shapes.{choice, chosen};
    ghost use Rattle.rasn_types.specs.Tags.{eoc};
    ghost use Rattle.rasn_types.specs.Trees.{unconstrained};
    ghost use Rattle.rasn_cms.specs.declared.recipient_info.RecipientInfo.TheVariants.{Ktri, Kari, Kekri, Pwri, Ori};

    ghost TAG = { eoc };

    const TAG: Tag = Tag::EOC;

    ghost CONSTRAINTS = { unconstrained };

    const CONSTRAINTS: Constraints = Constraints::NONE;

    ghost shape = { choice ⟦<Alternatives as DecodeAlternatives>⟧.parts };

    ghost tree = { elim [ Ktri x ↦ chosen 0 (⟦<KeyTransRecipientInfo as AsnType>⟧.tree x) | Kari x ↦ chosen 1 (⟦<Implicit<ContextTag<1>, KeyAgreeRecipientInfo> as AsnType>⟧.tree x) | Kekri x ↦ chosen 2 (⟦<Implicit<ContextTag<2>, KekRecipientInfo> as AsnType>⟧.tree x) | Pwri x ↦ chosen 3 (⟦<Implicit<ContextTag<3>, PasswordRecipientInfo> as AsnType>⟧.tree x) | Ori x ↦ chosen 4 (⟦<Implicit<ContextTag<4>, OtherRecipientInfo> as AsnType>⟧.tree x) ] };

    ghost own = { refl };
}

impl LawfulEq for RecipientInfo {
    ghost use Rattle.rasn_types.specs.Deciding.{deciding};
    ghost use Rattle.rasn_types.specs.Equality.{choice_decided, alternative};
    ghost use Rattle.rasn_cms.specs.contracts.recipient_info.RecipientInfo.{enum as own_enum};
    ghost use Rattle.rasn_cms.specs.contracts.kek_recipient_info.KekRecipientInfoLawfulEq.TheImpl.Laws.{decides-law as kek_recipient_info_law};
    ghost use Rattle.rasn_cms.specs.contracts.key_agree_recipient_info.KeyAgreeRecipientInfoLawfulEq.TheImpl.Laws.{decides-law as key_agree_recipient_info_law};
    ghost use Rattle.rasn_cms.specs.contracts.key_trans_recipient_info.KeyTransRecipientInfoLawfulEq.TheImpl.Laws.{decides-law as key_trans_recipient_info_law};
    ghost use Rattle.rasn_cms.specs.contracts.other_recipient_info.OtherRecipientInfoLawfulEq.TheImpl.Laws.{decides-law as other_recipient_info_law};
    ghost use Rattle.rasn_cms.specs.contracts.password_recipient_info.PasswordRecipientInfoLawfulEq.TheImpl.Laws.{decides-law as password_recipient_info_law};

    ghost decides = { choice_decided own_enum _ _ (alternative (λ x. x.0) (Prim.search (kek_recipient_info_law, key_agree_recipient_info_law, key_trans_recipient_info_law, other_recipient_info_law, password_recipient_info_law, deciding) depth 64), (alternative (λ x. x.0) (Prim.search (kek_recipient_info_law, key_agree_recipient_info_law, key_trans_recipient_info_law, other_recipient_info_law, password_recipient_info_law, deciding) depth 64), (alternative (λ x. x.0) (Prim.search (kek_recipient_info_law, key_agree_recipient_info_law, key_trans_recipient_info_law, other_recipient_info_law, password_recipient_info_law, deciding) depth 64), (alternative (λ x. x.0) (Prim.search (kek_recipient_info_law, key_agree_recipient_info_law, key_trans_recipient_info_law, other_recipient_info_law, password_recipient_info_law, deciding) depth 64), (alternative (λ x. x.0) (Prim.search (kek_recipient_info_law, key_agree_recipient_info_law, key_trans_recipient_info_law, other_recipient_info_law, password_recipient_info_law, deciding) depth 64), tt))))) };
}

impl Present for RecipientInfo {
    ghost use Rattle.rasn_types.specs.Equality.{chosen_not_absent};
    ghost use Rattle.rasn_cms.specs.declared.recipient_info.RecipientInfo.TheVariants.{Ktri, Kari, Kekri, Pwri, Ori};

    ghost present = { elim [ Ktri x ↦ chosen_not_absent | Kari x ↦ chosen_not_absent | Kekri x ↦ chosen_not_absent | Pwri x ↦ chosen_not_absent | Ori x ↦ chosen_not_absent ] };
}

impl FirstTags for RecipientInfo {
    fn is_first_tag(tag: Tag) -> bool {
        <Alternatives as DecodeAlternatives>::has_tag(tag)
    }
}

impl Decode for RecipientInfo {
    ghost use Rattle.std.specs.Prelude.{codes};
    ghost use Rattle.rasn_de.specs.AlternativeTypes.{DecodesAlternativeBy};
    ghost use Rattle.rasn_de.specs.ValueErrors.{errors_of, IsErrorByTag};
    ghost use Rattle.std.specs.Prelude.{IfOk};
    ghost use Rattle.rasn_de.specs.Beyond.{got};
    ghost use Rattle.rasn_cms.specs.declared.recipient_info.RecipientInfo.TheVariants.{Ktri, Kari, Kekri, Pwri, Ori};

    ghost beyond = { λ _ old result new. IfOk result (elim [ Ktri x ↦ Unit {0} | Kari x ↦ got (⟦<Implicit<ContextTag<1>, KeyAgreeRecipientInfo> as Decode>⟧.beyond ⟦<Implicit<ContextTag<1>, KeyAgreeRecipientInfo> as AsnType>⟧.TAG) old x new | Kekri x ↦ got (⟦<Implicit<ContextTag<2>, KekRecipientInfo> as Decode>⟧.beyond ⟦<Implicit<ContextTag<2>, KekRecipientInfo> as AsnType>⟧.TAG) old x new | Pwri x ↦ Unit {0} | Ori x ↦ Unit {0} ]) };

    ghost errors = { λ _ _ old e new. errors_of (DecodesAlternativeBy ⟦<Alternatives as DecodeAlternatives>⟧.extensible ⟦<Alternatives as DecodeAlternatives>⟧.parts ⟦<Alternatives as DecodeAlternatives>⟧.inner (codes "RecipientInfo")) old e new × IsErrorByTag ⟦<Alternatives as DecodeAlternatives>⟧.errors old e new };

    fn decode_with_tag_and_constraints(
        decoder: &mut Decoder<'_>,
        _tag: Tag,
        _constraints: &Constraints,
    ) -> Result<RecipientInfo, DecodeError> {
        match decoder.read_choice::<Alternatives>("RecipientInfo") {
            Ok(This(value)) => Ok(RecipientInfo::Ktri(value)),
            Ok(Other(This(value))) => Ok(RecipientInfo::Kari(value)),
            Ok(Other(Other(This(value)))) => Ok(RecipientInfo::Kekri(value)),
            Ok(Other(Other(Other(This(value))))) => Ok(RecipientInfo::Pwri(value)),
            Ok(Other(Other(Other(Other(Last(value)))))) => Ok(RecipientInfo::Ori(value)),
            Err(error) => Err(error),
        }
    }
}

/// The alternatives, as they are written.
type Written<'a> = OneOf<&'a KeyTransRecipientInfo, Written1<'a>>;

type Written1<'a> = OneOf<&'a Implicit<ContextTag<1>, KeyAgreeRecipientInfo>, Written2<'a>>;

type Written2<'a> = OneOf<&'a Implicit<ContextTag<2>, KekRecipientInfo>, Written3<'a>>;

type Written3<'a> = OneOf<&'a Implicit<ContextTag<3>, PasswordRecipientInfo>, Written4<'a>>;

type Written4<'a> = Last<&'a Implicit<ContextTag<4>, OtherRecipientInfo>>;

impl Encode for RecipientInfo {
    fn encode_with_tag_and_constraints(
        &self,
        encoder: &mut Encoder,
        _tag: Tag,
        _constraints: &Constraints,
        _identifier: Identifier,
    ) -> Result<(), EncodeError> {
        match self {
            RecipientInfo::Ktri(value) => encoder.write_choice::<Written<'_>>(This(value)),
            RecipientInfo::Kari(value) => encoder.write_choice::<Written<'_>>(Other(This(value))),
            RecipientInfo::Kekri(value) => encoder.write_choice::<Written<'_>>(Other(Other(This(
                value,
            )))),
            RecipientInfo::Pwri(value) => encoder.write_choice::<Written<'_>>(Other(Other(Other(
                This(value),
            )))),
            RecipientInfo::Ori(value) => encoder.write_choice::<Written<'_>>(Other(Other(Other(
                Other(Last(value)),
            )))),
        }
    }

    fn is_present(&self) -> bool {
        true
    }
}
