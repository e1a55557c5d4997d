//! The ENUMERATED CRLReason (RFC 5280, 5.3.1).
use rasn::ber::de::Decoder;
use rasn::ber::enc::Encoder;
use rasn::de::Decode;
use rasn::enc::Encode;
use rasn::error::{DecodeError, EncodeError};
use rasn::types::{AsnType, Constraints, Enumerated, Identifier, LawfulEq, Present, Tag};

/// The reason why a certificate was revoked.
#[derive(Clone, Copy, Debug, PartialEq, Eq, Drop)]
pub enum Reason {
    Unspecified,
    KeyCompromise,
    CaCompromise,
    AffiliationChanged,
    Superseded,
    CessationOfOperation,
    CertificateHold,
    RemoveFromCrl,
    PrivilegeWithdrawn,
    AaCompromise,
}

impl AsnType for Reason {
    ghost use Rattle.std.specs.Prelude.{refl};
    ghost use Rattle.rasn_types.specs.Shapes.{leaf, enumerated, number};
    ghost use Rattle.rasn_types.specs.Tags.{in_universal};
    ghost use Rattle.rasn_types.specs.Trees.{unconstrained};
    ghost use Rattle.rasn_examples.specs.Reason.{reasons, reason_number};

    ghost TAG = { in_universal 10 };

    const TAG: Tag = Tag::ENUMERATED;

    ghost CONSTRAINTS = { unconstrained };

    const CONSTRAINTS: Constraints = Constraints::NONE;

    ghost shape = { leaf (enumerated reasons) (in_universal 10) unconstrained };

    ghost tree = { λ reason. number (reason_number reason) };

    ghost own = { refl };
}

impl Enumerated for Reason {
    ghost use Rattle.std.specs.Prelude.{refl};
    ghost use Rattle.rasn_types.specs.OwnEnumerated.{all_listed, all_distinct};
    ghost use Rattle.rasn_examples.specs.contracts.reason.Reason.{enum as reason_enum};
    ghost use Rattle.rasn_examples.specs.Reason.{reasons, reason_number};

    ghost known = { reasons };

    ghost number = { reason_number };

    ghost listed = { all_listed reason_enum reason_number reasons refl };

    ghost distinct = { all_distinct reason_enum reason_number refl };

    ghost fits = { refl };

    fn discriminant(&self) -> isize {
        match self {
            Reason::Unspecified => 0,
            Reason::KeyCompromise => 1,
            Reason::CaCompromise => 2,
            Reason::AffiliationChanged => 3,
            Reason::Superseded => 4,
            Reason::CessationOfOperation => 5,
            Reason::CertificateHold => 6,
            Reason::RemoveFromCrl => 8,
            Reason::PrivilegeWithdrawn => 9,
            Reason::AaCompromise => 10,
        }
    }

    fn from_discriminant(discriminant: isize) -> Option<Reason> {
        match discriminant {
            0 => Some(Reason::Unspecified),
            1 => Some(Reason::KeyCompromise),
            2 => Some(Reason::CaCompromise),
            3 => Some(Reason::AffiliationChanged),
            4 => Some(Reason::Superseded),
            5 => Some(Reason::CessationOfOperation),
            6 => Some(Reason::CertificateHold),
            8 => Some(Reason::RemoveFromCrl),
            9 => Some(Reason::PrivilegeWithdrawn),
            10 => Some(Reason::AaCompromise),
            _ => None,
        }
    }
}

impl LawfulEq for Reason {
    ghost use Rattle.std.specs.Prelude.{refl};
    ghost use Rattle.rasn_types.specs.OwnEnumerated.{all_decided};
    ghost use Rattle.rasn_examples.specs.contracts.reason.Reason.{enum as reason_enum};
    ghost use Rattle.rasn_examples.specs.Reason.{reason_number};

    ghost decides = { all_decided reason_enum reason_number refl };
}

impl Present for Reason {
    ghost use Rattle.rasn_types.specs.Equality.{number_not_absent};
    ghost use Rattle.rasn_examples.specs.Reason.{reason_number};

    ghost present = { λ reason. number_not_absent (reason_number reason) };
}

impl Decode for Reason {
    ghost use Rattle.rasn_de.specs.Leaves.{FailsAs};
    ghost use Rattle.rasn_de.specs.Enumerated.{EnumeratedAt};

    ghost errors = { λ tag _ old. FailsAs (EnumeratedAt ⟦<Reason as Enumerated>⟧.known old.rule tag old.rest) old };

    #[tactic(auto, unfolding(rasn_types::specs::Grammar::Reads))]
    fn decode_with_tag_and_constraints(
        decoder: &mut Decoder<'_>,
        tag: Tag,
        _constraints: &Constraints,
    ) -> Result<Reason, DecodeError> {
        decoder.decode_enumerated(tag)
    }
}

impl Encode for Reason {
    fn encode_with_tag_and_constraints(
        &self,
        encoder: &mut Encoder,
        tag: Tag,
        _constraints: &Constraints,
        identifier: Identifier,
    ) -> Result<(), EncodeError> {
        encoder.encode_enumerated(tag, self, identifier)
    }

    fn is_present(&self) -> bool {
        true
    }
}
