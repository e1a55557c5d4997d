// Written by `soqavise generate` from the ASN.1 of CmsMessages, CMS: change that, and write it
// again.
//! The types as data, for what reads and writes by a schema.
use rasn_schema::constants::prelude::*;

/// The types, which refer to one another by their numbers. A CHOICE has the alternatives of those
/// that are alternatives of it, and what this crate has as open types is open.
pub const TYPES: &[StaticType] = &[
    Any(Tag::EOC),
    Leaf(OctetString, Tag::OCTET_STRING, NONE, &[]),
    Any(Tag::EOC),
    Any(Tag::EOC),
    Leaf(ObjectIdentifier, Tag::OBJECT_IDENTIFIER, NONE, &[]),
    Any(Tag::EOC),
    Leaf(ObjectIdentifier, Tag::OBJECT_IDENTIFIER, NONE, &[]),
    Any(Tag::EOC),
    Leaf(ObjectIdentifier, Tag::OBJECT_IDENTIFIER, NONE, &[]),
    SetOf(tag!(Context, 2), 86, size!(1..)),
    SetOf(tag!(Context, 1), 86, size!(1..)),
    Sequence(
        tag!(Context, 0),
        &[("certs", Optional, 37), ("crls", Optional, 36)],
    ),
    SetOf(tag!(Context, 3), 86, size!(1..)),
    SetOf(tag!(Context, 2), 86, size!(1..)),
    Sequence(
        tag!(Context, 1),
        &[("algorithm", Required, 8), ("parameters", Optional, 7)],
    ),
    Sequence(
        tag!(Context, 0),
        &[("certs", Optional, 37), ("crls", Optional, 36)],
    ),
    SetOf(tag!(Context, 1), 86, size!(1..)),
    Leaf(OctetString, Tag::OCTET_STRING, NONE, &[]),
    Any(Tag::EOC),
    Leaf(ObjectIdentifier, Tag::OBJECT_IDENTIFIER, NONE, &[]),
    Sequence(
        tag!(Context, 0),
        &[("algorithm", Required, 8), ("parameters", Optional, 7)],
    ),
    Leaf(GeneralizedTime, Tag::GENERALIZED_TIME, NONE, &[]),
    Leaf(OctetString, Tag::OCTET_STRING, NONE, &[]),
    Leaf(GeneralizedTime, Tag::GENERALIZED_TIME, NONE, &[]),
    Sequence(
        tag!(Context, 0),
        &[
            ("subjectKeyIdentifier", Required, 55),
            ("date", Optional, 23),
            ("other", Optional, 61),
        ],
    ),
    Leaf(BitString, Tag::BIT_STRING, NONE, &[]),
    Sequence(
        tag!(Context, 1),
        &[("algorithm", Required, 67), ("publicKey", Required, 25)],
    ),
    Leaf(OctetString, tag!(Context, 0), NONE, &[]),
    Tagged(tag!(Context, 1), 62),
    Tagged(tag!(Context, 0), 77),
    Leaf(OctetString, tag!(Context, 0), NONE, &[]),
    Sequence(
        tag!(Context, 4),
        &[("oriType", Required, 19), ("oriValue", Required, 18)],
    ),
    Sequence(
        tag!(Context, 3),
        &[
            ("version", Required, 63),
            ("keyDerivationAlgorithm", Optional, 20),
            ("keyEncryptionAlgorithm", Required, 67),
            ("encryptedKey", Required, 80),
        ],
    ),
    Sequence(
        tag!(Context, 2),
        &[
            ("version", Required, 63),
            ("kekid", Required, 73),
            ("keyEncryptionAlgorithm", Required, 67),
            ("encryptedKey", Required, 80),
        ],
    ),
    Sequence(
        tag!(Context, 1),
        &[
            ("version", Required, 63),
            ("originator", Required, 29),
            ("ukm", Optional, 28),
            ("keyEncryptionAlgorithm", Required, 67),
            ("recipientEncryptedKeys", Required, 76),
        ],
    ),
    Leaf(OctetString, tag!(Context, 0), NONE, &[]),
    SetOf(tag!(Context, 1), 66, NONE),
    SetOf(tag!(Context, 0), 65, NONE),
    SetOf(tag!(Context, 1), 86, size!(1..)),
    Sequence(
        tag!(Context, 0),
        &[("certs", Optional, 37), ("crls", Optional, 36)],
    ),
    SetOf(Tag::SET, 0, NONE),
    Leaf(ObjectIdentifier, Tag::OBJECT_IDENTIFIER, NONE, &[]),
    Leaf(OctetString, tag!(Context, 0), NONE, &[]),
    SetOf(tag!(Context, 1), 86, size!(1..)),
    SetOf(tag!(Context, 0), 86, size!(1..)),
    Tagged(tag!(Context, 0), 1),
    SetOf(tag!(Context, 1), 66, NONE),
    SetOf(tag!(Context, 0), 65, NONE),
    Tagged(tag!(Context, 0), 2),
    Tagged(tag!(Context, 0), 68),
    Tagged(tag!(Context, 0), 70),
    Tagged(tag!(Context, 0), 71),
    Tagged(tag!(Context, 0), 72),
    Tagged(tag!(Context, 0), 84),
    Tagged(tag!(Context, 0), 92),
    Leaf(OctetString, Tag::OCTET_STRING, NONE, &[]),
    Sequence(
        Tag::SEQUENCE,
        &[("type", Required, 4), ("value", Required, 3)],
    ),
    SetOf(Tag::SET, 56, size!(1..)),
    SequenceOf(Tag::SEQUENCE, 57, NONE),
    Choice("Name", &[("rdnSequence", 58)]),
    Leaf(Integer, Tag::INTEGER, NONE, &[]),
    Sequence(
        Tag::SEQUENCE,
        &[("keyAttrId", Required, 6), ("keyAttr", Optional, 5)],
    ),
    Leaf(OctetString, Tag::OCTET_STRING, NONE, &[]),
    Leaf(
        Integer,
        Tag::INTEGER,
        NONE,
        &[
            ("v0", 0),
            ("v1", 1),
            ("v2", 2),
            ("v3", 3),
            ("v4", 4),
            ("v5", 5),
        ],
    ),
    Sequence(
        Tag::SEQUENCE,
        &[("issuer", Required, 59), ("serialNumber", Required, 60)],
    ),
    Any(Tag::EOC),
    Any(Tag::EOC),
    Sequence(
        Tag::SEQUENCE,
        &[("algorithm", Required, 8), ("parameters", Optional, 7)],
    ),
    Sequence(
        Tag::SEQUENCE,
        &[
            ("version", Required, 63),
            ("originatorInfo", Optional, 11),
            ("recipientInfos", Required, 83),
            ("authEncryptedContentInfo", Required, 82),
            ("authAttrs", Optional, 10),
            ("mac", Required, 69),
            ("unauthAttrs", Optional, 9),
        ],
    ),
    Leaf(OctetString, Tag::OCTET_STRING, NONE, &[]),
    Sequence(
        Tag::SEQUENCE,
        &[
            ("version", Required, 63),
            ("originatorInfo", Optional, 15),
            ("recipientInfos", Required, 83),
            ("macAlgorithm", Required, 67),
            ("digestAlgorithm", Optional, 14),
            ("encapContentInfo", Required, 89),
            ("authAttrs", Optional, 13),
            ("mac", Required, 69),
            ("unauthAttrs", Optional, 12),
        ],
    ),
    Sequence(
        Tag::SEQUENCE,
        &[
            ("version", Required, 63),
            ("encryptedContentInfo", Required, 82),
            ("unprotectedAttrs", Optional, 16),
        ],
    ),
    Sequence(
        Tag::SEQUENCE,
        &[
            ("version", Required, 63),
            ("digestAlgorithm", Required, 67),
            ("encapContentInfo", Required, 89),
            ("digest", Required, 17),
        ],
    ),
    Sequence(
        Tag::SEQUENCE,
        &[
            ("keyIdentifier", Required, 22),
            ("date", Optional, 21),
            ("other", Optional, 61),
        ],
    ),
    Choice(
        "KeyAgreeRecipientIdentifier",
        &[("issuerAndSerialNumber", 64), ("rKeyId", 24)],
    ),
    Sequence(
        Tag::SEQUENCE,
        &[("rid", Required, 74), ("encryptedKey", Required, 80)],
    ),
    SequenceOf(Tag::SEQUENCE, 75, NONE),
    Choice(
        "OriginatorIdentifierOrKey",
        &[
            ("issuerAndSerialNumber", 64),
            ("subjectKeyIdentifier", 27),
            ("originatorKey", 26),
        ],
    ),
    Choice(
        "RecipientIdentifier",
        &[("issuerAndSerialNumber", 64), ("subjectKeyIdentifier", 30)],
    ),
    Sequence(
        Tag::SEQUENCE,
        &[
            ("version", Required, 63),
            ("rid", Required, 78),
            ("keyEncryptionAlgorithm", Required, 67),
            ("encryptedKey", Required, 80),
        ],
    ),
    Leaf(OctetString, Tag::OCTET_STRING, NONE, &[]),
    Choice(
        "RecipientInfo",
        &[
            ("ktri", 79),
            ("kari", 34),
            ("kekri", 33),
            ("pwri", 32),
            ("ori", 31),
        ],
    ),
    Sequence(
        Tag::SEQUENCE,
        &[
            ("contentType", Required, 93),
            ("contentEncryptionAlgorithm", Required, 67),
            ("encryptedContent", Optional, 35),
        ],
    ),
    SetOf(Tag::SET, 81, size!(1..)),
    Sequence(
        Tag::SEQUENCE,
        &[
            ("version", Required, 63),
            ("originatorInfo", Optional, 39),
            ("recipientInfos", Required, 83),
            ("encryptedContentInfo", Required, 82),
            ("unprotectedAttrs", Optional, 38),
        ],
    ),
    Leaf(OctetString, Tag::OCTET_STRING, NONE, &[]),
    Sequence(
        Tag::SEQUENCE,
        &[("attrType", Required, 41), ("attrValues", Required, 40)],
    ),
    Choice(
        "SignerIdentifier",
        &[("issuerAndSerialNumber", 64), ("subjectKeyIdentifier", 42)],
    ),
    Sequence(
        Tag::SEQUENCE,
        &[
            ("version", Required, 63),
            ("sid", Required, 87),
            ("digestAlgorithm", Required, 67),
            ("signedAttrs", Optional, 44),
            ("signatureAlgorithm", Required, 67),
            ("signature", Required, 85),
            ("unsignedAttrs", Optional, 43),
        ],
    ),
    Sequence(
        Tag::SEQUENCE,
        &[("eContentType", Required, 93), ("eContent", Optional, 45)],
    ),
    SetOf(Tag::SET, 88, NONE),
    SetOf(Tag::SET, 67, NONE),
    Sequence(
        Tag::SEQUENCE,
        &[
            ("version", Required, 63),
            ("digestAlgorithms", Required, 91),
            ("encapContentInfo", Required, 89),
            ("certificates", Optional, 47),
            ("crls", Optional, 46),
            ("signerInfos", Required, 90),
        ],
    ),
    Leaf(ObjectIdentifier, Tag::OBJECT_IDENTIFIER, NONE, &[]),
    Sequence(
        Tag::SEQUENCE,
        &[("contentType", Required, 93), ("content", Required, 48)],
    ),
    Sequence(
        Tag::SEQUENCE,
        &[("contentType", Required, 93), ("content", Required, 49)],
    ),
    Sequence(
        Tag::SEQUENCE,
        &[("contentType", Required, 93), ("content", Required, 50)],
    ),
    Sequence(
        Tag::SEQUENCE,
        &[("contentType", Required, 93), ("content", Required, 51)],
    ),
    Sequence(
        Tag::SEQUENCE,
        &[("contentType", Required, 93), ("content", Required, 52)],
    ),
    Sequence(
        Tag::SEQUENCE,
        &[("contentType", Required, 93), ("content", Required, 53)],
    ),
    Sequence(
        Tag::SEQUENCE,
        &[("contentType", Required, 93), ("content", Required, 54)],
    ),
];

impl HasSchema for crate::ContentInfo {
    ghost ID = { 94 };

    const ID: usize = 94;

    fn types() -> &'static [StaticType] {
        TYPES
    }
}

impl HasSchema for crate::AuthEnvelopedMessage {
    ghost ID = { 95 };

    const ID: usize = 95;

    fn types() -> &'static [StaticType] {
        TYPES
    }
}

impl HasSchema for crate::AuthenticatedMessage {
    ghost ID = { 96 };

    const ID: usize = 96;

    fn types() -> &'static [StaticType] {
        TYPES
    }
}

impl HasSchema for crate::EncryptedMessage {
    ghost ID = { 97 };

    const ID: usize = 97;

    fn types() -> &'static [StaticType] {
        TYPES
    }
}

impl HasSchema for crate::DigestedMessage {
    ghost ID = { 98 };

    const ID: usize = 98;

    fn types() -> &'static [StaticType] {
        TYPES
    }
}

impl HasSchema for crate::EnvelopedMessage {
    ghost ID = { 99 };

    const ID: usize = 99;

    fn types() -> &'static [StaticType] {
        TYPES
    }
}

impl HasSchema for crate::SignedMessage {
    ghost ID = { 100 };

    const ID: usize = 100;

    fn types() -> &'static [StaticType] {
        TYPES
    }
}
