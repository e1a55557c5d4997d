// Written by `soqavise generate` from the ASN.1 of Certificates, Revocation, Requests,
// CertificateExtensions: change that, and write it again.
//! `EDIPartyName ::= SEQUENCE`
use crate::DirectoryString;
use rasn::prelude::*;

/// `EDIPartyName ::= SEQUENCE`
#[derive(Debug, PartialEq, Eq, Drop)]
pub struct EdiPartyName {
    /// `nameAssigner [0] EXPLICIT DirectoryString OPTIONAL`
    pub name_assigner: Option<Explicit<ContextTag<0>, DirectoryString>>,
    /// `partyName [1] EXPLICIT DirectoryString`
    pub party_name: Explicit<ContextTag<1>, DirectoryString>,
}

/// The components, as they are read.
type Parts = Optional<Explicit<ContextTag<0>, DirectoryString>, Parts1>;

type Parts1 = Required<Explicit<ContextTag<1>, DirectoryString>, End>;

impl AsnType for EdiPartyName {
    ghost use Rattle.std.specs.Prelude.{refl};
    ghost use Rattle.rasn_types.specs.Tags.{in_universal};
    ghost use Rattle.rasn_types.specs.Shapes.{seq};
    ghost use Rattle.rasn_types.specs.Trees.{unconstrained};

    ghost TAG = { in_universal 16 };

    const TAG: Tag = Tag::SEQUENCE;

    ghost CONSTRAINTS = { unconstrained };

    const CONSTRAINTS: Constraints = Constraints::NONE;

    ghost shape = { seq (in_universal 16) ⟦<Parts as DecodeParts>⟧.parts };

    ghost tree = { λ a. ⟦<Parts as DecodeParts>⟧.tree (record { 0 = a.name_assigner; 1 = record { 0 = a.party_name; 1 = record {} } }) };

    ghost own = { refl };
}

impl LawfulEq for EdiPartyName {
    ghost use Rattle.rasn_types.specs.Deciding.{deciding};
    ghost use Rattle.rasn_pkix.specs.contracts.directory_string.DirectoryStringLawfulEq.TheImpl.Laws.{decides-law as directory_string_law};
    ghost use Rattle.rasn_pkix.specs.contracts.directory_string.DirectoryStringPresent.TheImpl.Laws.{present-law as directory_string_present};

    ghost decides = { Prim.search (directory_string_law, directory_string_present, deciding) depth 64 };
}

impl Present for EdiPartyName {
    ghost use Rattle.rasn_types.specs.Equality.{parts_not_absent};

    ghost present = { λ _. parts_not_absent };
}

impl Decode for EdiPartyName {
    ghost use Rattle.rasn_de.specs.PartTypes.{DecodesSequenceParts};
    ghost use Rattle.rasn_de.specs.ValueErrors.{errors_of};

    ghost errors = { λ tag _. errors_of (DecodesSequenceParts ⟦<Parts as DecodeParts>⟧.parts ⟦<Parts as DecodeParts>⟧.tree ⟦<Parts as DecodeParts>⟧.errors tag) };

    fn decode_with_tag_and_constraints(
        decoder: &mut Decoder<'_>,
        tag: Tag,
        _constraints: &Constraints,
    ) -> Result<EdiPartyName, DecodeError> {
        let parts = match decoder.read_sequence::<Parts>(tag) {
            Ok(parts) => parts,
            Err(error) => return Err(error),
        };
        let Optional(name_assigner, rest) = parts;
        let Required(party_name, End) = rest;
        Ok(EdiPartyName {
            name_assigner,
            party_name,
        })
    }
}

impl Encode for EdiPartyName {
    fn encode_with_tag_and_constraints(
        &self,
        encoder: &mut Encoder,
        tag: Tag,
        _constraints: &Constraints,
        _identifier: Identifier,
    ) -> Result<(), EncodeError> {
        let rest = Put(&self.party_name, End);
        encoder.write_sequence(tag, PutOptional(&self.name_assigner, rest))
    }

    fn is_present(&self) -> bool {
        true
    }
}
