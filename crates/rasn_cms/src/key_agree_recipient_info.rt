// Written by `soqavise generate` from the ASN.1 of CmsMessages, CMS: change that, and write it
// again.
//! `KeyAgreeRecipientInfo ::= SEQUENCE`
use crate::{CmsVersion, OriginatorIdentifierOrKey, RecipientEncryptedKeys, UserKeyingMaterial};
use rasn::prelude::*;
use rasn_pkix::AlgorithmIdentifier;

/// `KeyAgreeRecipientInfo ::= SEQUENCE`
#[derive(Debug, PartialEq, Eq, Drop)]
pub struct KeyAgreeRecipientInfo {
    /// `version CMSVersion`
    pub version: CmsVersion,
    /// `originator [0] EXPLICIT OriginatorIdentifierOrKey`
    pub originator: Explicit<ContextTag<0>, OriginatorIdentifierOrKey>,
    /// `ukm [1] EXPLICIT UserKeyingMaterial OPTIONAL`
    pub ukm: Option<Explicit<ContextTag<1>, UserKeyingMaterial>>,
    /// `keyEncryptionAlgorithm AlgorithmIdentifier`
    pub key_encryption_algorithm: AlgorithmIdentifier,
    /// `recipientEncryptedKeys RecipientEncryptedKeys`
    pub recipient_encrypted_keys: RecipientEncryptedKeys,
}

/// The components, as they are read.
type Parts = Required<CmsVersion, Parts1>;

type Parts1 = Required<Explicit<ContextTag<0>, OriginatorIdentifierOrKey>, Parts2>;

type Parts2 = Optional<Explicit<ContextTag<1>, UserKeyingMaterial>, Parts3>;

type Parts3 = Required<AlgorithmIdentifier, Parts4>;

type Parts4 = Required<RecipientEncryptedKeys, End>;

impl AsnType for KeyAgreeRecipientInfo {
    ghost use Rattle.std.specs.Prelude.{refl};
    ghost use Rattle.rasn_types.specs.Tags.{in_universal};
    ghost use Rattle.rasn_types.specs.Shapes.{seq};
    ghost use Rattle.rasn_types.specs.Trees.{unconstrained};

    ghost TAG = { in_universal 16 };

    const TAG: Tag = Tag::SEQUENCE;

    ghost CONSTRAINTS = { unconstrained };

    const CONSTRAINTS: Constraints = Constraints::NONE;

    ghost shape = { seq (in_universal 16) ⟦<Parts as DecodeParts>⟧.parts };

    ghost tree = { λ a. ⟦<Parts as DecodeParts>⟧.tree (record { 0 = a.version; 1 = record { 0 = a.originator; 1 = record { 0 = a.ukm; 1 = record { 0 = a.key_encryption_algorithm; 1 = record { 0 = a.recipient_encrypted_keys; 1 = record {} } } } } }) };

    ghost own = { refl };
}

impl LawfulEq for KeyAgreeRecipientInfo {
    ghost use Rattle.rasn_types.specs.Deciding.{deciding};
    ghost use Rattle.rasn_pkix.specs.contracts.algorithm_identifier.AlgorithmIdentifierLawfulEq.TheImpl.Laws.{decides-law as algorithm_identifier_law};
    ghost use Rattle.rasn_cms.specs.contracts.originator_identifier_or_key.OriginatorIdentifierOrKeyLawfulEq.TheImpl.Laws.{decides-law as originator_identifier_or_key_law};
    ghost use Rattle.rasn_cms.specs.contracts.recipient_encrypted_key.RecipientEncryptedKeyLawfulEq.TheImpl.Laws.{decides-law as recipient_encrypted_key_law};

    ghost decides = { Prim.search (algorithm_identifier_law, originator_identifier_or_key_law, recipient_encrypted_key_law, deciding) depth 64 };
}

impl Present for KeyAgreeRecipientInfo {
    ghost use Rattle.rasn_types.specs.Equality.{parts_not_absent};

    ghost present = { λ _. parts_not_absent };
}

impl Decode for KeyAgreeRecipientInfo {
    ghost use Rattle.std.specs.Prelude.{IfOk};
    ghost use Rattle.rasn_de.specs.Beyond.{BeyondInside};
    ghost use Rattle.rasn_de.specs.Constructed.{sequence_header};

    ghost beyond = { λ tag old result _. IfOk result (λ a. BeyondInside ⟦<Parts as DecodeParts>⟧.beyond (sequence_header tag) old (record { 0 = a.version; 1 = record { 0 = a.originator; 1 = record { 0 = a.ukm; 1 = record { 0 = a.key_encryption_algorithm; 1 = record { 0 = a.recipient_encrypted_keys; 1 = record {} } } } } })) };

    ghost use Rattle.rasn_de.specs.PartTypes.{DecodesSequenceParts};
    ghost use Rattle.rasn_de.specs.ValueErrors.{errors_of};

    ghost errors = { λ tag _. errors_of (DecodesSequenceParts ⟦<Parts as DecodeParts>⟧.parts ⟦<Parts as DecodeParts>⟧.tree ⟦<Parts as DecodeParts>⟧.errors tag) };

    fn decode_with_tag_and_constraints(
        decoder: &mut Decoder<'_>,
        tag: Tag,
        _constraints: &Constraints,
    ) -> Result<KeyAgreeRecipientInfo, DecodeError> {
        let parts = match decoder.read_sequence::<Parts>(tag) {
            Ok(parts) => parts,
            Err(error) => return Err(error),
        };
        let Required(version, rest) = parts;
        let Required(originator, rest) = rest;
        let Optional(ukm, rest) = rest;
        let Required(key_encryption_algorithm, rest) = rest;
        let Required(recipient_encrypted_keys, End) = rest;
        Ok(KeyAgreeRecipientInfo {
            version,
            originator,
            ukm,
            key_encryption_algorithm,
            recipient_encrypted_keys,
        })
    }
}

impl Encode for KeyAgreeRecipientInfo {
    fn encode_with_tag_and_constraints(
        &self,
        encoder: &mut Encoder,
        tag: Tag,
        _constraints: &Constraints,
        _identifier: Identifier,
    ) -> Result<(), EncodeError> {
        let rest = Put(&self.recipient_encrypted_keys, End);
        let rest = Put(&self.key_encryption_algorithm, rest);
        let rest = PutOptional(&self.ukm, rest);
        let rest = Put(&self.originator, rest);
        encoder.write_sequence(tag, Put(&self.version, rest))
    }

    fn is_present(&self) -> bool {
        true
    }
}
