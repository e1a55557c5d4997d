// Written by `soqavise generate` from the ASN.1 of CmsMessages, CMS: change that, and write it
// again.
//! `KEKRecipientInfo ::= SEQUENCE`
use crate::{CmsVersion, EncryptedKey, KekIdentifier};
use rasn::prelude::*;
use rasn_pkix::AlgorithmIdentifier;

/// `KEKRecipientInfo ::= SEQUENCE`
#[derive(Debug, PartialEq, Eq, Drop)]
pub struct KekRecipientInfo {
    /// `version CMSVersion`
    pub version: CmsVersion,
    /// `kekid KEKIdentifier`
    pub kekid: KekIdentifier,
    /// `keyEncryptionAlgorithm AlgorithmIdentifier`
    pub key_encryption_algorithm: AlgorithmIdentifier,
    /// `encryptedKey EncryptedKey`
    pub encrypted_key: EncryptedKey,
}

/// The components, as they are read.
type Parts = Required<CmsVersion, Parts1>;

type Parts1 = Required<KekIdentifier, Parts2>;

type Parts2 = Required<AlgorithmIdentifier, Parts3>;

type Parts3 = Required<EncryptedKey, End>;

impl AsnType for KekRecipientInfo {
    ghost use Rattle.std.specs.Prelude.{refl};
    ghost use Rattle.rasn_types.specs.Tags.{in_universal};
    ghost use Rattle.rasn_types.specs.Shapes.{seq};
    ghost use Rattle.rasn_types.specs.Trees.{unconstrained};

    ghost TAG = { in_universal 16 };

    const TAG: Tag = Tag::SEQUENCE;

    ghost CONSTRAINTS = { unconstrained };

    const CONSTRAINTS: Constraints = Constraints::NONE;

    ghost shape = { seq (in_universal 16) ⟦<Parts as DecodeParts>⟧.parts };

    ghost tree = { λ a. ⟦<Parts as DecodeParts>⟧.tree (record { 0 = a.version; 1 = record { 0 = a.kekid; 1 = record { 0 = a.key_encryption_algorithm; 1 = record { 0 = a.encrypted_key; 1 = record {} } } } }) };

    ghost own = { refl };
}

impl LawfulEq for KekRecipientInfo {
    ghost use Rattle.rasn_types.specs.Deciding.{deciding};
    ghost use Rattle.rasn_pkix.specs.contracts.algorithm_identifier.AlgorithmIdentifierLawfulEq.TheImpl.Laws.{decides-law as algorithm_identifier_law};
    ghost use Rattle.rasn_cms.specs.contracts.kek_identifier.KekIdentifierLawfulEq.TheImpl.Laws.{decides-law as kek_identifier_law};

    ghost decides = { Prim.search (algorithm_identifier_law, kek_identifier_law, deciding) depth 64 };
}

impl Present for KekRecipientInfo {
    ghost use Rattle.rasn_types.specs.Equality.{parts_not_absent};

    ghost present = { λ _. parts_not_absent };
}

impl Decode for KekRecipientInfo {
    ghost use Rattle.std.specs.Prelude.{IfOk};
    ghost use Rattle.rasn_de.specs.Beyond.{BeyondInside};
    ghost use Rattle.rasn_de.specs.Constructed.{sequence_header};

    ghost beyond = { λ tag old result _. IfOk result (λ a. BeyondInside ⟦<Parts as DecodeParts>⟧.beyond (sequence_header tag) old (record { 0 = a.version; 1 = record { 0 = a.kekid; 1 = record { 0 = a.key_encryption_algorithm; 1 = record { 0 = a.encrypted_key; 1 = record {} } } } })) };

    ghost use Rattle.rasn_de.specs.PartTypes.{DecodesSequenceParts};
    ghost use Rattle.rasn_de.specs.ValueErrors.{errors_of};

    ghost errors = { λ tag _. errors_of (DecodesSequenceParts ⟦<Parts as DecodeParts>⟧.parts ⟦<Parts as DecodeParts>⟧.tree ⟦<Parts as DecodeParts>⟧.errors tag) };

    fn decode_with_tag_and_constraints(
        decoder: &mut Decoder<'_>,
        tag: Tag,
        _constraints: &Constraints,
    ) -> Result<KekRecipientInfo, DecodeError> {
        let parts = match decoder.read_sequence::<Parts>(tag) {
            Ok(parts) => parts,
            Err(error) => return Err(error),
        };
        let Required(version, rest) = parts;
        let Required(kekid, rest) = rest;
        let Required(key_encryption_algorithm, rest) = rest;
        let Required(encrypted_key, End) = rest;
        Ok(KekRecipientInfo {
            version,
            kekid,
            key_encryption_algorithm,
            encrypted_key,
        })
    }
}

impl Encode for KekRecipientInfo {
    fn encode_with_tag_and_constraints(
        &self,
        encoder: &mut Encoder,
        tag: Tag,
        _constraints: &Constraints,
        _identifier: Identifier,
    ) -> Result<(), EncodeError> {
        let rest = Put(&self.encrypted_key, End);
        let rest = Put(&self.key_encryption_algorithm, rest);
        let rest = Put(&self.kekid, rest);
        encoder.write_sequence(tag, Put(&self.version, rest))
    }

    fn is_present(&self) -> bool {
        true
    }
}
