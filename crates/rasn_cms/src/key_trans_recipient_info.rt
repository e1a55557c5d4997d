// Written by `soqavise generate` from the ASN.1 of CmsMessages, CMS: change that, and write it
// again.
//! `KeyTransRecipientInfo ::= SEQUENCE`
use crate::{CmsVersion, EncryptedKey, RecipientIdentifier};
use rasn::prelude::*;
use rasn_pkix::AlgorithmIdentifier;

/// `KeyTransRecipientInfo ::= SEQUENCE`
#[derive(Debug, PartialEq, Eq, Drop)]
pub struct KeyTransRecipientInfo {
    /// `version CMSVersion`
    pub version: CmsVersion,
    /// `rid RecipientIdentifier`
    pub rid: RecipientIdentifier,
    /// `keyEncryptionAlgorithm AlgorithmIdentifier`
    pub key_encryption_algorithm: AlgorithmIdentifier,
    /// `encryptedKey EncryptedKey`
    pub encrypted_key: EncryptedKey,
}

/// The components, as they are read.
type Parts = Required<CmsVersion, Parts1>;

type Parts1 = Required<RecipientIdentifier, Parts2>;

type Parts2 = Required<AlgorithmIdentifier, Parts3>;

type Parts3 = Required<EncryptedKey, End>;

impl AsnType for KeyTransRecipientInfo {
    ghost use Rattle.std.specs.Prelude.{refl};
    ghost use Rattle.rasn_types.specs.Tags.{in_universal};
    ghost use Rattle.rasn_types.specs.Shapes.{seq};
    ghost use Rattle.rasn_types.specs.Trees.{unconstrained};

    ghost TAG = { in_universal 16 };

    const TAG: Tag = Tag::SEQUENCE;

    ghost CONSTRAINTS = { unconstrained };

    const CONSTRAINTS: Constraints = Constraints::NONE;

    ghost shape = { seq (in_universal 16) ⟦<Parts as DecodeParts>⟧.parts };

    ghost tree = { λ a. ⟦<Parts as DecodeParts>⟧.tree (record { 0 = a.version; 1 = record { 0 = a.rid; 1 = record { 0 = a.key_encryption_algorithm; 1 = record { 0 = a.encrypted_key; 1 = record {} } } } }) };

    ghost own = { refl };
}

impl LawfulEq for KeyTransRecipientInfo {
    ghost use Rattle.rasn_types.specs.Deciding.{deciding};
    ghost use Rattle.rasn_pkix.specs.contracts.algorithm_identifier.AlgorithmIdentifierLawfulEq.TheImpl.Laws.{decides-law as algorithm_identifier_law};
    ghost use Rattle.rasn_cms.specs.contracts.recipient_identifier.RecipientIdentifierLawfulEq.TheImpl.Laws.{decides-law as recipient_identifier_law};

    ghost decides = { Prim.search (algorithm_identifier_law, recipient_identifier_law, deciding) depth 64 };
}

impl Present for KeyTransRecipientInfo {
    ghost use Rattle.rasn_types.specs.Equality.{parts_not_absent};

    ghost present = { λ _. parts_not_absent };
}

impl Decode for KeyTransRecipientInfo {
    ghost use Rattle.rasn_de.specs.PartTypes.{DecodesSequenceParts};
    ghost use Rattle.rasn_de.specs.ValueErrors.{errors_of};

    ghost errors = { λ tag _. errors_of (DecodesSequenceParts ⟦<Parts as DecodeParts>⟧.parts ⟦<Parts as DecodeParts>⟧.tree ⟦<Parts as DecodeParts>⟧.errors tag) };

    fn decode_with_tag_and_constraints(
        decoder: &mut Decoder<'_>,
        tag: Tag,
        _constraints: &Constraints,
    ) -> Result<KeyTransRecipientInfo, DecodeError> {
        let parts = match decoder.read_sequence::<Parts>(tag) {
            Ok(parts) => parts,
            Err(error) => return Err(error),
        };
        let Required(version, rest) = parts;
        let Required(rid, rest) = rest;
        let Required(key_encryption_algorithm, rest) = rest;
        let Required(encrypted_key, End) = rest;
        Ok(KeyTransRecipientInfo {
            version,
            rid,
            key_encryption_algorithm,
            encrypted_key,
        })
    }
}

impl Encode for KeyTransRecipientInfo {
    fn encode_with_tag_and_constraints(
        &self,
        encoder: &mut Encoder,
        tag: Tag,
        _constraints: &Constraints,
        _identifier: Identifier,
    ) -> Result<(), EncodeError> {
        let rest = Put(&self.encrypted_key, End);
        let rest = Put(&self.key_encryption_algorithm, rest);
        let rest = Put(&self.rid, rest);
        encoder.write_sequence(tag, Put(&self.version, rest))
    }

    fn is_present(&self) -> bool {
        true
    }
}
