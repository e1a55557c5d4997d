// Written by `soqavise generate` from the ASN.1 of CmsMessages, CMS: change that, and write it
// again.
//! `IssuerAndSerialNumber ::= SEQUENCE`
use rasn::prelude::*;
use rasn_pkix::{CertificateSerialNumber, Name};

/// `IssuerAndSerialNumber ::= SEQUENCE`
#[derive(Debug, PartialEq, Eq, Drop)]
pub struct IssuerAndSerialNumber {
    /// `issuer Name`
    pub issuer: Name,
    /// `serialNumber CertificateSerialNumber`
    pub serial_number: CertificateSerialNumber,
}

/// The components, as they are read.
type Parts = Required<Name, Parts1>;

type Parts1 = Required<CertificateSerialNumber, End>;

impl AsnType for IssuerAndSerialNumber {
    ghost use Rattle.std.specs.Prelude.{refl};
    ghost use Rattle.rasn_types.specs.Tags.{in_universal};
    ghost use Rattle.rasn_types.specs.Shapes.{seq};
    ghost use Rattle.rasn_types.specs.Trees.{unconstrained};

    ghost TAG = { in_universal 16 };

    const TAG: Tag = Tag::SEQUENCE;

    ghost CONSTRAINTS = { unconstrained };

    const CONSTRAINTS: Constraints = Constraints::NONE;

    ghost shape = { seq (in_universal 16) ⟦<Parts as DecodeParts>⟧.parts };

    ghost tree = { λ a. ⟦<Parts as DecodeParts>⟧.tree (record { 0 = a.issuer; 1 = record { 0 = a.serial_number; 1 = record {} } }) };

    ghost own = { refl };
}

impl LawfulEq for IssuerAndSerialNumber {
    ghost use Rattle.rasn_types.specs.Deciding.{deciding};
    ghost use Rattle.rasn_pkix.specs.contracts.name.NameLawfulEq.TheImpl.Laws.{decides-law as name_law};

    ghost decides = { Prim.search (name_law, deciding) depth 64 };
}

impl Present for IssuerAndSerialNumber {
    ghost use Rattle.rasn_types.specs.Equality.{parts_not_absent};

    ghost present = { λ _. parts_not_absent };
}

impl Decode for IssuerAndSerialNumber {
    ghost use Rattle.rasn_de.specs.PartTypes.{DecodesSequenceParts};
    ghost use Rattle.rasn_de.specs.ValueErrors.{errors_of};

    ghost errors = { λ tag _. errors_of (DecodesSequenceParts ⟦<Parts as DecodeParts>⟧.parts ⟦<Parts as DecodeParts>⟧.tree ⟦<Parts as DecodeParts>⟧.errors tag) };

    fn decode_with_tag_and_constraints(
        decoder: &mut Decoder<'_>,
        tag: Tag,
        _constraints: &Constraints,
    ) -> Result<IssuerAndSerialNumber, DecodeError> {
        let parts = match decoder.read_sequence::<Parts>(tag) {
            Ok(parts) => parts,
            Err(error) => return Err(error),
        };
        let Required(issuer, rest) = parts;
        let Required(serial_number, End) = rest;
        Ok(IssuerAndSerialNumber {
            issuer,
            serial_number,
        })
    }
}

impl Encode for IssuerAndSerialNumber {
    fn encode_with_tag_and_constraints(
        &self,
        encoder: &mut Encoder,
        tag: Tag,
        _constraints: &Constraints,
        _identifier: Identifier,
    ) -> Result<(), EncodeError> {
        let rest = Put(&self.serial_number, End);
        encoder.write_sequence(tag, Put(&self.issuer, rest))
    }

    fn is_present(&self) -> bool {
        true
    }
}
