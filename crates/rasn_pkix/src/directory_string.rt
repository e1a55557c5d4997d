// Written by `soqavise generate` from the ASN.1 of Certificates, Revocation, Requests,
// CertificateExtensions: change that, and write it again.
//! `DirectoryString ::= CHOICE`
use crate::{
    DirectoryStringBmpString, DirectoryStringPrintableString, DirectoryStringTeletexString,
    DirectoryStringUniversalString, DirectoryStringUtf8String,
};
use rasn::parts::OneOf::{Other, This};
use rasn::prelude::*;

/// `DirectoryString ::= CHOICE`
#[derive(Debug, PartialEq, Eq, Drop)]
pub enum DirectoryString {
    /// `teletexString DirectoryString-teletexString`
    TeletexString(DirectoryStringTeletexString),
    /// `printableString DirectoryString-printableString`
    PrintableString(DirectoryStringPrintableString),
    /// `universalString DirectoryString-universalString`
    UniversalString(DirectoryStringUniversalString),
    /// `utf8String DirectoryString-utf8String`
    Utf8String(DirectoryStringUtf8String),
    /// `bmpString DirectoryString-bmpString`
    BmpString(DirectoryStringBmpString),
}

/// The alternatives, as they are read.
type Alternatives = OneOf<DirectoryStringTeletexString, Alternatives1>;

type Alternatives1 = OneOf<DirectoryStringPrintableString, Alternatives2>;

type Alternatives2 = OneOf<DirectoryStringUniversalString, Alternatives3>;

type Alternatives3 = OneOf<DirectoryStringUtf8String, Alternatives4>;

type Alternatives4 = Last<DirectoryStringBmpString>;

impl AsnType for DirectoryString {
    ghost use Rattle.std.specs.Prelude.{refl};
    ghost use Rattle.rasn_types.specs.Shapes.{choice, chosen};
    ghost use Rattle.rasn_types.specs.Tags.{eoc};
    ghost use Rattle.rasn_types.specs.Trees.{unconstrained};
    ghost use Rattle.rasn_pkix.specs.declared.directory_string.DirectoryString.TheVariants.{TeletexString, PrintableString, UniversalString, Utf8String, BmpString};

    ghost TAG = { eoc };

    const TAG: Tag = Tag::EOC;

    ghost CONSTRAINTS = { unconstrained };

    const CONSTRAINTS: Constraints = Constraints::NONE;

    ghost shape = { choice ⟦<Alternatives as DecodeAlternatives>⟧.parts };

    ghost tree = { elim [ TeletexString x ↦ chosen 0 (⟦<DirectoryStringTeletexString as AsnType>⟧.tree x) | PrintableString x ↦ chosen 1 (⟦<DirectoryStringPrintableString as AsnType>⟧.tree x) | UniversalString x ↦ chosen 2 (⟦<DirectoryStringUniversalString as AsnType>⟧.tree x) | Utf8String x ↦ chosen 3 (⟦<DirectoryStringUtf8String as AsnType>⟧.tree x) | BmpString x ↦ chosen 4 (⟦<DirectoryStringBmpString as AsnType>⟧.tree x) ] };

    ghost own = { refl };
}

impl LawfulEq for DirectoryString {
    ghost use Rattle.rasn_types.specs.Deciding.{deciding};
    ghost use Rattle.rasn_types.specs.Equality.{choice_decided, alternative};
    ghost use Rattle.rasn_pkix.specs.contracts.directory_string.DirectoryString.{enum as own_enum};
    ghost use Rattle.rasn_pkix.specs.contracts.directory_string_bmp_string.DirectoryStringBmpStringLawfulEq.TheImpl.Laws.{decides-law as directory_string_bmp_string_law};
    ghost use Rattle.rasn_pkix.specs.contracts.directory_string_printable_string.DirectoryStringPrintableStringLawfulEq.TheImpl.Laws.{decides-law as directory_string_printable_string_law};
    ghost use Rattle.rasn_pkix.specs.contracts.directory_string_teletex_string.DirectoryStringTeletexStringLawfulEq.TheImpl.Laws.{decides-law as directory_string_teletex_string_law};
    ghost use Rattle.rasn_pkix.specs.contracts.directory_string_universal_string.DirectoryStringUniversalStringLawfulEq.TheImpl.Laws.{decides-law as directory_string_universal_string_law};
    ghost use Rattle.rasn_pkix.specs.contracts.directory_string_utf8_string.DirectoryStringUtf8StringLawfulEq.TheImpl.Laws.{decides-law as directory_string_utf8_string_law};

    ghost decides = { choice_decided own_enum _ _ (alternative (λ x. x.0) (Prim.search (directory_string_bmp_string_law, directory_string_printable_string_law, directory_string_teletex_string_law, directory_string_universal_string_law, directory_string_utf8_string_law, deciding) depth 64), (alternative (λ x. x.0) (Prim.search (directory_string_bmp_string_law, directory_string_printable_string_law, directory_string_teletex_string_law, directory_string_universal_string_law, directory_string_utf8_string_law, deciding) depth 64), (alternative (λ x. x.0) (Prim.search (directory_string_bmp_string_law, directory_string_printable_string_law, directory_string_teletex_string_law, directory_string_universal_string_law, directory_string_utf8_string_law, deciding) depth 64), (alternative (λ x. x.0) (Prim.search (directory_string_bmp_string_law, directory_string_printable_string_law, directory_string_teletex_string_law, directory_string_universal_string_law, directory_string_utf8_string_law, deciding) depth 64), (alternative (λ x. x.0) (Prim.search (directory_string_bmp_string_law, directory_string_printable_string_law, directory_string_teletex_string_law, directory_string_universal_string_law, directory_string_utf8_string_law, deciding) depth 64), tt))))) };
}

impl Present for DirectoryString {
    ghost use Rattle.rasn_types.specs.Equality.{chosen_not_absent};
    ghost use Rattle.rasn_pkix.specs.declared.directory_string.DirectoryString.TheVariants.{TeletexString, PrintableString, UniversalString, Utf8String, BmpString};

    ghost present = { elim [ TeletexString x ↦ chosen_not_absent | PrintableString x ↦ chosen_not_absent | UniversalString x ↦ chosen_not_absent | Utf8String x ↦ chosen_not_absent | BmpString x ↦ chosen_not_absent ] };
}

impl FirstTags for DirectoryString {
    fn is_first_tag(tag: Tag) -> bool {
        <Alternatives as DecodeAlternatives>::has_tag(tag)
    }
}

impl Decode for DirectoryString {
    ghost use Rattle.std.specs.Prelude.{codes};
    ghost use Rattle.rasn_de.specs.AlternativeTypes.{DecodesAlternativeBy};
    ghost use Rattle.rasn_de.specs.ValueErrors.{errors_of, IsErrorByTag};

    ghost errors = { λ _ _ old e new. errors_of (DecodesAlternativeBy ⟦<Alternatives as DecodeAlternatives>⟧.extensible ⟦<Alternatives as DecodeAlternatives>⟧.parts ⟦<Alternatives as DecodeAlternatives>⟧.inner (codes "DirectoryString")) old e new × IsErrorByTag ⟦<Alternatives as DecodeAlternatives>⟧.errors old e new };

    fn decode_with_tag_and_constraints(
        decoder: &mut Decoder<'_>,
        _tag: Tag,
        _constraints: &Constraints,
    ) -> Result<DirectoryString, DecodeError> {
        match decoder.read_choice::<Alternatives>("DirectoryString") {
            Ok(This(value)) => Ok(DirectoryString::TeletexString(value)),
            Ok(Other(This(value))) => Ok(DirectoryString::PrintableString(value)),
            Ok(Other(Other(This(value)))) => Ok(DirectoryString::UniversalString(value)),
            Ok(Other(Other(Other(This(value))))) => Ok(DirectoryString::Utf8String(value)),
            Ok(Other(Other(Other(Other(Last(value)))))) => Ok(DirectoryString::BmpString(value)),
            Err(error) => Err(error),
        }
    }
}

/// The alternatives, as they are written.
type Written<'a> = OneOf<&'a DirectoryStringTeletexString, Written1<'a>>;

type Written1<'a> = OneOf<&'a DirectoryStringPrintableString, Written2<'a>>;

type Written2<'a> = OneOf<&'a DirectoryStringUniversalString, Written3<'a>>;

type Written3<'a> = OneOf<&'a DirectoryStringUtf8String, Written4<'a>>;

type Written4<'a> = Last<&'a DirectoryStringBmpString>;

impl Encode for DirectoryString {
    fn encode_with_tag_and_constraints(
        &self,
        encoder: &mut Encoder,
        _tag: Tag,
        _constraints: &Constraints,
        _identifier: Identifier,
    ) -> Result<(), EncodeError> {
        match self {
            DirectoryString::TeletexString(value) => encoder.write_choice::<Written<'_>>(This(
                value,
            )),
            DirectoryString::PrintableString(value) => encoder.write_choice::<Written<'_>>(Other(
                This(value),
            )),
            DirectoryString::UniversalString(value) => encoder.write_choice::<Written<'_>>(Other(
                Other(This(value)),
            )),
            DirectoryString::Utf8String(value) => encoder.write_choice::<Written<'_>>(Other(Other(
                Other(This(value)),
            ))),
            DirectoryString::BmpString(value) => encoder.write_choice::<Written<'_>>(Other(Other(
                Other(Other(Last(value))),
            ))),
        }
    }

    fn is_present(&self) -> bool {
        true
    }
}
