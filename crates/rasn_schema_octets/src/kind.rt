//! Kinds of values that hold no other values, as octets.
ghost use Rattle.std.specs.Prelude.{◌≡◌, pos, MatchResult};
ghost use Rattle.rasn_types.specs.Shapes.{number, chosen};
ghost use Rattle.rasn_schema_octets.specs.Kinds.{kind_tree};
ghost use Rattle.rasn_schema_octets.specs.Forms.{plain_number};

use rasn::error::{DecodeError, EncodeError};
use rasn::parts::OneOf::{Other, This};
use rasn::parts::{DecodeAlternatives, Last, OneOf};
use rasn::types::{AsnType, Constraints, Enumerated, Identifier, Tag};
use rasn::{Decode, Decoder, Encode, Encoder};
use rasn_schema::LeafKind;

/// A kind that is only named, as that of `LeafKind`: its number is written.
#[derive(Clone, Copy, PartialEq, Eq, Drop)]
pub enum PlainKind {
    Boolean,
    Null,
    ObjectIdentifier,
    BitString,
    NamedBits,
    OctetString,
    Integer,
    Signed32,
    Signed64,
    Unsigned32,
    Unsigned64,
    Numeric,
    Printable,
    Visible,
    Ia5,
    AnyOctets,
    Bmp,
    Utf8,
    UtcTime,
    GeneralizedTime,
    Date,
    Universal,
    RelativeOid,
    Real,
    Time,
    Duration,
    TimeOfDay,
    DateTime,
}

impl AsnType for PlainKind {
    ghost use Rattle.std.specs.Prelude.{refl};
    ghost use Rattle.rasn_types.specs.Tags.{in_universal};
    ghost use Rattle.rasn_types.specs.Trees.{unconstrained};
    ghost use Rattle.rasn_types.specs.Shapes.{leaf, enumerated, number};
    ghost use Rattle.rasn_schema_octets.specs.Shapes.{plain_kinds};
    ghost use Rattle.rasn_schema_octets.specs.Forms.{plain_number};

    ghost TAG = { in_universal 10 };

    const TAG: Tag = Tag::ENUMERATED;

    ghost CONSTRAINTS = { unconstrained };

    const CONSTRAINTS: Constraints = Constraints::NONE;

    ghost shape = { leaf (enumerated plain_kinds) (in_universal 10) unconstrained };

    ghost tree = { λ k. number (plain_number k) };

    ghost own = { refl };
}

impl Enumerated for PlainKind {
    ghost use Rattle.std.specs.Prelude.{refl};
    ghost use Rattle.rasn_types.specs.OwnEnumerated.{all_listed, all_distinct};
    ghost use Rattle.rasn_schema_octets.specs.contracts.kind.PlainKind.{enum as plain_enum};
    ghost use Rattle.rasn_schema_octets.specs.Shapes.{plain_kinds};
    ghost use Rattle.rasn_schema_octets.specs.Forms.{plain_number};

    ghost known = { plain_kinds };

    ghost number = { plain_number };

    ghost listed = { all_listed plain_enum plain_number plain_kinds refl };

    ghost distinct = { all_distinct plain_enum plain_number refl };

    ghost fits = { refl };

    fn discriminant(&self) -> isize {
        match self {
            PlainKind::Boolean => 0,
            PlainKind::Null => 1,
            PlainKind::ObjectIdentifier => 2,
            PlainKind::BitString => 3,
            PlainKind::NamedBits => 4,
            PlainKind::OctetString => 5,
            PlainKind::Integer => 6,
            PlainKind::Signed32 => 7,
            PlainKind::Signed64 => 8,
            PlainKind::Unsigned32 => 9,
            PlainKind::Unsigned64 => 10,
            PlainKind::Numeric => 11,
            PlainKind::Printable => 12,
            PlainKind::Visible => 13,
            PlainKind::Ia5 => 14,
            PlainKind::AnyOctets => 15,
            PlainKind::Bmp => 16,
            PlainKind::Utf8 => 17,
            PlainKind::UtcTime => 18,
            PlainKind::GeneralizedTime => 19,
            PlainKind::Date => 20,
            PlainKind::Universal => 21,
            PlainKind::RelativeOid => 22,
            PlainKind::Real => 23,
            PlainKind::Time => 24,
            PlainKind::Duration => 25,
            PlainKind::TimeOfDay => 26,
            PlainKind::DateTime => 27,
        }
    }

    fn from_discriminant(discriminant: isize) -> Option<PlainKind> {
        match discriminant {
            0 => Some(PlainKind::Boolean),
            1 => Some(PlainKind::Null),
            2 => Some(PlainKind::ObjectIdentifier),
            3 => Some(PlainKind::BitString),
            4 => Some(PlainKind::NamedBits),
            5 => Some(PlainKind::OctetString),
            6 => Some(PlainKind::Integer),
            7 => Some(PlainKind::Signed32),
            8 => Some(PlainKind::Signed64),
            9 => Some(PlainKind::Unsigned32),
            10 => Some(PlainKind::Unsigned64),
            11 => Some(PlainKind::Numeric),
            12 => Some(PlainKind::Printable),
            13 => Some(PlainKind::Visible),
            14 => Some(PlainKind::Ia5),
            15 => Some(PlainKind::AnyOctets),
            16 => Some(PlainKind::Bmp),
            17 => Some(PlainKind::Utf8),
            18 => Some(PlainKind::UtcTime),
            19 => Some(PlainKind::GeneralizedTime),
            20 => Some(PlainKind::Date),
            21 => Some(PlainKind::Universal),
            22 => Some(PlainKind::RelativeOid),
            23 => Some(PlainKind::Real),
            24 => Some(PlainKind::Time),
            25 => Some(PlainKind::Duration),
            26 => Some(PlainKind::TimeOfDay),
            27 => Some(PlainKind::DateTime),
            _ => None,
        }
    }
}

impl Decode for PlainKind {
    ghost use Rattle.rasn_de.specs.Enumerated.{EnumeratedAt};
    ghost use Rattle.rasn_de.specs.Leaves.{FailsAs};

    ghost errors = { λ tag _ old. FailsAs (EnumeratedAt ⟦<PlainKind as Enumerated>⟧.known old.rule tag old.rest) old };

    #[tactic(auto, unfolding(rasn_types::specs::Grammar::Reads))]
    fn decode_with_tag_and_constraints(
        decoder: &mut Decoder<'_>,
        tag: Tag,
        _constraints: &Constraints,
    ) -> Result<PlainKind, DecodeError> {
        decoder.decode_enumerated(tag)
    }
}

impl Encode for PlainKind {
    fn encode_with_tag_and_constraints(
        &self,
        encoder: &mut Encoder,
        tag: Tag,
        _constraints: &Constraints,
        identifier: Identifier,
    ) -> Result<(), EncodeError> {
        encoder.encode_enumerated(tag, self, identifier)
    }

    fn is_present(&self) -> bool {
        true
    }
}

/// A kind: CHOICE { plain ENUMERATED, octets INTEGER }, where the number is that of the octets of
/// an OCTET STRING of fixed length.
#[derive(Clone, Copy, Drop)]
pub struct KindForm {
    /// The kind.
    pub kind: LeafKind,
}

impl AsnType for KindForm {
    ghost use Rattle.std.specs.Prelude.{refl};
    ghost use Rattle.rasn_types.specs.Tags.{eoc};
    ghost use Rattle.rasn_types.specs.Trees.{unconstrained};
    ghost use Rattle.rasn_schema_octets.specs.Shapes.{kind_shape};
    ghost use Rattle.rasn_schema_octets.specs.Kinds.{kind_tree};

    ghost TAG = { eoc };

    const TAG: Tag = Tag::EOC;

    ghost CONSTRAINTS = { unconstrained };

    const CONSTRAINTS: Constraints = Constraints::NONE;

    ghost shape = { kind_shape };

    ghost tree = { λ f. kind_tree f.kind };

    ghost own = { refl };
}

/// Returns the kind that is named.
fn kind_of(plain: PlainKind) -> LeafKind
    ensures { kind_tree result ≡ chosen 0 (number (plain_number plain)) }
{
    match plain {
        PlainKind::Boolean => LeafKind::Boolean,
        PlainKind::Null => LeafKind::Null,
        PlainKind::ObjectIdentifier => LeafKind::ObjectIdentifier,
        PlainKind::BitString => LeafKind::BitString,
        PlainKind::NamedBits => LeafKind::NamedBits,
        PlainKind::OctetString => LeafKind::OctetString,
        PlainKind::Integer => LeafKind::Integer,
        PlainKind::Signed32 => LeafKind::Signed32,
        PlainKind::Signed64 => LeafKind::Signed64,
        PlainKind::Unsigned32 => LeafKind::Unsigned32,
        PlainKind::Unsigned64 => LeafKind::Unsigned64,
        PlainKind::Numeric => LeafKind::Numeric,
        PlainKind::Printable => LeafKind::Printable,
        PlainKind::Visible => LeafKind::Visible,
        PlainKind::Ia5 => LeafKind::Ia5,
        PlainKind::AnyOctets => LeafKind::AnyOctets,
        PlainKind::Bmp => LeafKind::Bmp,
        PlainKind::Utf8 => LeafKind::Utf8,
        PlainKind::UtcTime => LeafKind::UtcTime,
        PlainKind::GeneralizedTime => LeafKind::GeneralizedTime,
        PlainKind::Date => LeafKind::Date,
        PlainKind::Universal => LeafKind::Universal,
        PlainKind::RelativeOid => LeafKind::RelativeOid,
        PlainKind::Real => LeafKind::Real,
        PlainKind::Time => LeafKind::Time,
        PlainKind::Duration => LeafKind::Duration,
        PlainKind::TimeOfDay => LeafKind::TimeOfDay,
        PlainKind::DateTime => LeafKind::DateTime,
    }
}

/// Returns the name of a kind or, of an OCTET STRING of fixed length, this length.
fn plain_of(kind: LeafKind) -> Result<PlainKind, usize>
    ensures { MatchResult result (λ p. kind_tree kind ≡ chosen 0 (number (plain_number p))) (λ n. kind_tree kind ≡ chosen 1 (number (pos n))) }
{
    match kind {
        LeafKind::FixedOctetString(len) => Err(len),
        LeafKind::Boolean => Ok(PlainKind::Boolean),
        LeafKind::Null => Ok(PlainKind::Null),
        LeafKind::ObjectIdentifier => Ok(PlainKind::ObjectIdentifier),
        LeafKind::BitString => Ok(PlainKind::BitString),
        LeafKind::NamedBits => Ok(PlainKind::NamedBits),
        LeafKind::OctetString => Ok(PlainKind::OctetString),
        LeafKind::Integer => Ok(PlainKind::Integer),
        LeafKind::Signed32 => Ok(PlainKind::Signed32),
        LeafKind::Signed64 => Ok(PlainKind::Signed64),
        LeafKind::Unsigned32 => Ok(PlainKind::Unsigned32),
        LeafKind::Unsigned64 => Ok(PlainKind::Unsigned64),
        LeafKind::Numeric => Ok(PlainKind::Numeric),
        LeafKind::Printable => Ok(PlainKind::Printable),
        LeafKind::Visible => Ok(PlainKind::Visible),
        LeafKind::Ia5 => Ok(PlainKind::Ia5),
        LeafKind::AnyOctets => Ok(PlainKind::AnyOctets),
        LeafKind::Bmp => Ok(PlainKind::Bmp),
        LeafKind::Utf8 => Ok(PlainKind::Utf8),
        LeafKind::UtcTime => Ok(PlainKind::UtcTime),
        LeafKind::GeneralizedTime => Ok(PlainKind::GeneralizedTime),
        LeafKind::Date => Ok(PlainKind::Date),
        LeafKind::Universal => Ok(PlainKind::Universal),
        LeafKind::RelativeOid => Ok(PlainKind::RelativeOid),
        LeafKind::Real => Ok(PlainKind::Real),
        LeafKind::Time => Ok(PlainKind::Time),
        LeafKind::Duration => Ok(PlainKind::Duration),
        LeafKind::TimeOfDay => Ok(PlainKind::TimeOfDay),
        LeafKind::DateTime => Ok(PlainKind::DateTime),
    }
}

/// The alternatives of `KindForm`, as they are read.
type KindAlternatives = OneOf<PlainKind, Last<usize>>;

impl Decode for KindForm {
    ghost use Rattle.std.specs.Prelude.{codes};
    ghost use Rattle.rasn_de.specs.AlternativeTypes.{DecodesAlternativeBy};
    ghost use Rattle.rasn_de.specs.ValueErrors.{errors_of, IsErrorByTag};

    ghost errors = { λ _ _ old e new. errors_of (DecodesAlternativeBy ⟦<KindAlternatives as DecodeAlternatives>⟧.extensible ⟦<KindAlternatives as DecodeAlternatives>⟧.parts ⟦<KindAlternatives as DecodeAlternatives>⟧.inner (codes "Kind")) old e new × IsErrorByTag ⟦<KindAlternatives as DecodeAlternatives>⟧.errors old e new };

    fn decode_with_tag_and_constraints(
        decoder: &mut Decoder<'_>,
        _tag: Tag,
        _constraints: &Constraints,
    ) -> Result<KindForm, DecodeError> {
        match decoder.read_choice::<KindAlternatives>("Kind") {
            Ok(This(plain)) => Ok(KindForm {
                kind: kind_of(plain),
            }),
            Ok(Other(Last(len))) => Ok(KindForm {
                kind: LeafKind::FixedOctetString(len),
            }),
            Err(error) => Err(error),
        }
    }
}

/// The alternatives, as they are written.
type Written<'a> = OneOf<&'a PlainKind, Last<&'a usize>>;

impl Encode for KindForm {
    fn encode_with_tag_and_constraints(
        &self,
        encoder: &mut Encoder,
        _tag: Tag,
        _constraints: &Constraints,
        _identifier: Identifier,
    ) -> Result<(), EncodeError> {
        match plain_of(self.kind) {
            Ok(plain) => encoder.write_choice::<Written<'_>>(This(&plain)),
            Err(len) => encoder.write_choice::<Written<'_>>(Other(Last(&len))),
        }
    }

    fn is_present(&self) -> bool {
        true
    }
}
