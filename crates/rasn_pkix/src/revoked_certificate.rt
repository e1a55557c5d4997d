// Written by `soqavise generate` from the ASN.1 of Certificates, Revocation, Requests,
// CertificateExtensions: change that, and write it again.
//! `RevokedCertificate ::= SEQUENCE`
use crate::{CertificateSerialNumber, Extensions, Time};
use rasn::prelude::*;

/// `RevokedCertificate ::= SEQUENCE`
#[derive(Debug, PartialEq, Eq, Drop)]
pub struct RevokedCertificate {
    /// `userCertificate CertificateSerialNumber`
    pub user_certificate: CertificateSerialNumber,
    /// `revocationDate Time`
    pub revocation_date: Time,
    /// `crlEntryExtensions Extensions OPTIONAL`
    pub crl_entry_extensions: Option<Extensions>,
}

/// The components, as they are read.
type Parts = Required<CertificateSerialNumber, Parts1>;

type Parts1 = Required<Time, Parts2>;

type Parts2 = Optional<Extensions, End>;

impl AsnType for RevokedCertificate {
    ghost use Rattle.std.specs.Prelude.{refl};
    ghost use Rattle.rasn_types.specs.Tags.{in_universal};
    ghost use Rattle.rasn_types.specs.Shapes.{seq};
    ghost use Rattle.rasn_types.specs.Trees.{unconstrained};

    ghost TAG = { in_universal 16 };

    const TAG: Tag = Tag::SEQUENCE;

    ghost CONSTRAINTS = { unconstrained };

    const CONSTRAINTS: Constraints = Constraints::NONE;

    ghost shape = { seq (in_universal 16) ⟦<Parts as DecodeParts>⟧.parts };

    ghost tree = { λ a. ⟦<Parts as DecodeParts>⟧.tree (record { 0 = a.user_certificate; 1 = record { 0 = a.revocation_date; 1 = record { 0 = a.crl_entry_extensions; 1 = record {} } } }) };

    ghost own = { refl };
}

impl LawfulEq for RevokedCertificate {
    ghost use Rattle.rasn_types.specs.Deciding.{deciding};
    ghost use Rattle.rasn_pkix.specs.contracts.extensions.ExtensionsLawfulEq.TheImpl.Laws.{decides-law as extensions_law};
    ghost use Rattle.rasn_pkix.specs.contracts.extensions.ExtensionsPresent.TheImpl.Laws.{present-law as extensions_present};
    ghost use Rattle.rasn_pkix.specs.contracts.time.TimeLawfulEq.TheImpl.Laws.{decides-law as time_law};

    ghost decides = { Prim.search (extensions_law, extensions_present, time_law, deciding) depth 64 };
}

impl Present for RevokedCertificate {
    ghost use Rattle.rasn_types.specs.Equality.{parts_not_absent};

    ghost present = { λ _. parts_not_absent };
}

impl Decode for RevokedCertificate {
    ghost use Rattle.std.specs.Prelude.{IfOk};
    ghost use Rattle.rasn_de.specs.Beyond.{BeyondInside};
    ghost use Rattle.rasn_de.specs.Constructed.{sequence_header};

    ghost beyond = { λ tag old result _. IfOk result (λ a. BeyondInside ⟦<Parts as DecodeParts>⟧.beyond (sequence_header tag) old (record { 0 = a.user_certificate; 1 = record { 0 = a.revocation_date; 1 = record { 0 = a.crl_entry_extensions; 1 = record {} } } })) };

    ghost use Rattle.rasn_de.specs.PartTypes.{DecodesSequenceParts};
    ghost use Rattle.rasn_de.specs.ValueErrors.{errors_of};

    ghost errors = { λ tag _. errors_of (DecodesSequenceParts ⟦<Parts as DecodeParts>⟧.parts ⟦<Parts as DecodeParts>⟧.tree ⟦<Parts as DecodeParts>⟧.errors tag) };

    fn decode_with_tag_and_constraints(
        decoder: &mut Decoder<'_>,
        tag: Tag,
        _constraints: &Constraints,
    ) -> Result<RevokedCertificate, DecodeError> {
        let parts = match decoder.read_sequence::<Parts>(tag) {
            Ok(parts) => parts,
            Err(error) => return Err(error),
        };
        let Required(user_certificate, rest) = parts;
        let Required(revocation_date, rest) = rest;
        let Optional(crl_entry_extensions, End) = rest;
        Ok(RevokedCertificate {
            user_certificate,
            revocation_date,
            crl_entry_extensions,
        })
    }
}

impl Encode for RevokedCertificate {
    fn encode_with_tag_and_constraints(
        &self,
        encoder: &mut Encoder,
        tag: Tag,
        _constraints: &Constraints,
        _identifier: Identifier,
    ) -> Result<(), EncodeError> {
        let rest = PutOptional(&self.crl_entry_extensions, End);
        let rest = Put(&self.revocation_date, rest);
        encoder.write_sequence(tag, Put(&self.user_certificate, rest))
    }

    fn is_present(&self) -> bool {
        true
    }
}
