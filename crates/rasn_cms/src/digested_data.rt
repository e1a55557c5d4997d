// Written by `soqavise generate` from the ASN.1 of CmsMessages, CMS: change that, and write it
// again.
//! `DigestedData ::= SEQUENCE`
use crate::{CmsVersion, EncapsulatedContentInfo};
use rasn::prelude::*;
use rasn_pkix::AlgorithmIdentifier;

/// `DigestedData ::= SEQUENCE`
#[derive(Debug, PartialEq, Eq, Drop)]
pub struct DigestedData {
    /// `version CMSVersion`
    pub version: CmsVersion,
    /// `digestAlgorithm AlgorithmIdentifier`
    pub digest_algorithm: AlgorithmIdentifier,
    /// `encapContentInfo EncapsulatedContentInfo`
    pub encap_content_info: EncapsulatedContentInfo,
    /// `digest OCTET STRING`
    pub digest: OctetString,
}

/// The components, as they are read.
type Parts = Required<CmsVersion, Parts1>;

type Parts1 = Required<AlgorithmIdentifier, Parts2>;

type Parts2 = Required<EncapsulatedContentInfo, Parts3>;

type Parts3 = Required<OctetString, End>;

impl AsnType for DigestedData {
    ghost use Rattle.std.specs.Prelude.{refl};
    ghost use Rattle.rasn_types.specs.Tags.{in_universal};
    ghost use Rattle.rasn_types.specs.Shapes.{seq};
    ghost use Rattle.rasn_types.specs.Trees.{unconstrained};

    ghost TAG = { in_universal 16 };

    const TAG: Tag = Tag::SEQUENCE;

    ghost CONSTRAINTS = { unconstrained };

    const CONSTRAINTS: Constraints = Constraints::NONE;

    ghost shape = { seq (in_universal 16) ⟦<Parts as DecodeParts>⟧.parts };

    ghost tree = { λ a. ⟦<Parts as DecodeParts>⟧.tree (record { 0 = a.version; 1 = record { 0 = a.digest_algorithm; 1 = record { 0 = a.encap_content_info; 1 = record { 0 = a.digest; 1 = record {} } } } }) };

    ghost own = { refl };
}

impl LawfulEq for DigestedData {
    ghost use Rattle.rasn_types.specs.Deciding.{deciding};
    ghost use Rattle.rasn_pkix.specs.contracts.algorithm_identifier.AlgorithmIdentifierLawfulEq.TheImpl.Laws.{decides-law as algorithm_identifier_law};
    ghost use Rattle.rasn_cms.specs.contracts.encapsulated_content_info.EncapsulatedContentInfoLawfulEq.TheImpl.Laws.{decides-law as encapsulated_content_info_law};

    ghost decides = { Prim.search (algorithm_identifier_law, encapsulated_content_info_law, deciding) depth 64 };
}

impl Present for DigestedData {
    ghost use Rattle.rasn_types.specs.Equality.{parts_not_absent};

    ghost present = { λ _. parts_not_absent };
}

impl Decode for DigestedData {
    ghost use Rattle.rasn_de.specs.PartTypes.{DecodesSequenceParts};
    ghost use Rattle.rasn_de.specs.ValueErrors.{errors_of};

    ghost errors = { λ tag _. errors_of (DecodesSequenceParts ⟦<Parts as DecodeParts>⟧.parts ⟦<Parts as DecodeParts>⟧.tree ⟦<Parts as DecodeParts>⟧.errors tag) };

    fn decode_with_tag_and_constraints(
        decoder: &mut Decoder<'_>,
        tag: Tag,
        _constraints: &Constraints,
    ) -> Result<DigestedData, DecodeError> {
        let parts = match decoder.read_sequence::<Parts>(tag) {
            Ok(parts) => parts,
            Err(error) => return Err(error),
        };
        let Required(version, rest) = parts;
        let Required(digest_algorithm, rest) = rest;
        let Required(encap_content_info, rest) = rest;
        let Required(digest, End) = rest;
        Ok(DigestedData {
            version,
            digest_algorithm,
            encap_content_info,
            digest,
        })
    }
}

impl Encode for DigestedData {
    fn encode_with_tag_and_constraints(
        &self,
        encoder: &mut Encoder,
        tag: Tag,
        _constraints: &Constraints,
        _identifier: Identifier,
    ) -> Result<(), EncodeError> {
        let rest = Put(&self.digest, End);
        let rest = Put(&self.encap_content_info, rest);
        let rest = Put(&self.digest_algorithm, rest);
        encoder.write_sequence(tag, Put(&self.version, rest))
    }

    fn is_present(&self) -> bool {
        true
    }
}
