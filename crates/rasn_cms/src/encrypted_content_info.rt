// Written by `soqavise generate` from the ASN.1 of CmsMessages, CMS: change that, and write it
// again.
//! `EncryptedContentInfo ::= SEQUENCE`
use crate::ContentType;
use rasn::prelude::*;
use rasn_pkix::AlgorithmIdentifier;

/// `EncryptedContentInfo ::= SEQUENCE`
#[derive(Debug, PartialEq, Eq, Drop)]
pub struct EncryptedContentInfo {
    /// `contentType ContentType`
    pub content_type: ContentType,
    /// `contentEncryptionAlgorithm AlgorithmIdentifier`
    pub content_encryption_algorithm: AlgorithmIdentifier,
    /// `encryptedContent [0] IMPLICIT OCTET STRING OPTIONAL`
    pub encrypted_content: Option<Implicit<ContextTag<0>, OctetString>>,
}

/// The components, as they are read.
type Parts = Required<ContentType, Parts1>;

type Parts1 = Required<AlgorithmIdentifier, Parts2>;

type Parts2 = Optional<Implicit<ContextTag<0>, OctetString>, End>;

impl AsnType for EncryptedContentInfo {
    ghost use Rattle.std.specs.Prelude.{refl};
    ghost use Rattle.rasn_types.specs.Tags.{in_universal};
    ghost use Rattle.rasn_types.specs.Shapes.{seq};
    ghost use Rattle.rasn_types.specs.Trees.{unconstrained};

    ghost TAG = { in_universal 16 };

    const TAG: Tag = Tag::SEQUENCE;

    ghost CONSTRAINTS = { unconstrained };

    const CONSTRAINTS: Constraints = Constraints::NONE;

    ghost shape = { seq (in_universal 16) ⟦<Parts as DecodeParts>⟧.parts };

    ghost tree = { λ a. ⟦<Parts as DecodeParts>⟧.tree (record { 0 = a.content_type; 1 = record { 0 = a.content_encryption_algorithm; 1 = record { 0 = a.encrypted_content; 1 = record {} } } }) };

    ghost own = { refl };
}

impl LawfulEq for EncryptedContentInfo {
    ghost use Rattle.rasn_types.specs.Deciding.{deciding};
    ghost use Rattle.rasn_pkix.specs.contracts.algorithm_identifier.AlgorithmIdentifierLawfulEq.TheImpl.Laws.{decides-law as algorithm_identifier_law};

    ghost decides = { Prim.search (algorithm_identifier_law, deciding) depth 64 };
}

impl Present for EncryptedContentInfo {
    ghost use Rattle.rasn_types.specs.Equality.{parts_not_absent};

    ghost present = { λ _. parts_not_absent };
}

impl Decode for EncryptedContentInfo {
    ghost use Rattle.rasn_de.specs.PartTypes.{DecodesSequenceParts};
    ghost use Rattle.rasn_de.specs.ValueErrors.{errors_of};

    ghost errors = { λ tag _. errors_of (DecodesSequenceParts ⟦<Parts as DecodeParts>⟧.parts ⟦<Parts as DecodeParts>⟧.tree ⟦<Parts as DecodeParts>⟧.errors tag) };

    fn decode_with_tag_and_constraints(
        decoder: &mut Decoder<'_>,
        tag: Tag,
        _constraints: &Constraints,
    ) -> Result<EncryptedContentInfo, DecodeError> {
        let parts = match decoder.read_sequence::<Parts>(tag) {
            Ok(parts) => parts,
            Err(error) => return Err(error),
        };
        let Required(content_type, rest) = parts;
        let Required(content_encryption_algorithm, rest) = rest;
        let Optional(encrypted_content, End) = rest;
        Ok(EncryptedContentInfo {
            content_type,
            content_encryption_algorithm,
            encrypted_content,
        })
    }
}

impl Encode for EncryptedContentInfo {
    fn encode_with_tag_and_constraints(
        &self,
        encoder: &mut Encoder,
        tag: Tag,
        _constraints: &Constraints,
        _identifier: Identifier,
    ) -> Result<(), EncodeError> {
        let rest = PutOptional(&self.encrypted_content, End);
        let rest = Put(&self.content_encryption_algorithm, rest);
        encoder.write_sequence(tag, Put(&self.content_type, rest))
    }

    fn is_present(&self) -> bool {
        true
    }
}
