//! Certificate (RFC 5280 4.1 and appendix A.1) as types of a schema.

use rasn_schema::TypeId;
use rasn_schema::constants::prelude::*;

/// Certificate and the types that it is made of.
pub const CERTIFICATE_TYPES: &[StaticType] = &[
    // 0 to 9: the tags of a type that has no name are implicit, those of Version and Extensions
    // explicit
    Leaf(ObjectIdentifier, Tag::OBJECT_IDENTIFIER, NONE, &[]),
    Any(Tag::EOC),
    Sequence(Tag::SEQUENCE, ALGORITHM_IDENTIFIER),
    Leaf(Integer, Tag::INTEGER, NONE, VERSION),
    Tagged(tag!(Context, 0), 3),
    Leaf(Integer, Tag::INTEGER, NONE, &[]),
    Sequence(Tag::SEQUENCE, ATTRIBUTE_TYPE_AND_VALUE),
    SetOf(Tag::SET, 6, size!(1..)),
    SequenceOf(Tag::SEQUENCE, 7, NONE),
    Choice("Name", NAME),
    // 10 to 19
    Leaf(UtcTime, Tag::UTC_TIME, NONE, &[]),
    Leaf(GeneralizedTime, Tag::GENERALIZED_TIME, NONE, &[]),
    Choice("Time", TIME),
    Sequence(Tag::SEQUENCE, VALIDITY),
    Leaf(BitString, Tag::BIT_STRING, NONE, &[]),
    Sequence(Tag::SEQUENCE, SUBJECT_PUBLIC_KEY_INFO),
    Leaf(BitString, tag!(Context, 1), NONE, &[]),
    Leaf(BitString, tag!(Context, 2), NONE, &[]),
    Leaf(Boolean, Tag::BOOL, NONE, &[]),
    Leaf(OctetString, Tag::OCTET_STRING, NONE, &[]),
    // 20 to 24
    Sequence(Tag::SEQUENCE, EXTENSION),
    SequenceOf(Tag::SEQUENCE, 20, size!(1..)),
    Tagged(tag!(Context, 3), 21),
    Sequence(Tag::SEQUENCE, TBS_CERTIFICATE),
    Sequence(Tag::SEQUENCE, CERTIFICATE_PARTS),
];

/// The number of Certificate.
pub const CERTIFICATE: TypeId = TypeId(24);

const CERTIFICATE_PARTS: &[StaticComponent] = &[
    ("tbsCertificate", Required, 23),
    ("signatureAlgorithm", Required, 2),
    ("signatureValue", Required, 14),
];

const TBS_CERTIFICATE: &[StaticComponent] = &[
    ("version", Default(Number(0)), 4),
    ("serialNumber", Required, 5),
    ("signature", Required, 2),
    ("issuer", Required, 9),
    ("validity", Required, 13),
    ("subject", Required, 9),
    ("subjectPublicKeyInfo", Required, 15),
    ("issuerUniqueID", Optional, 16),
    ("subjectUniqueID", Optional, 17),
    ("extensions", Optional, 22),
];

const VERSION: &[StaticNumber] = &[("v1", 0), ("v2", 1), ("v3", 2)];

const ALGORITHM_IDENTIFIER: &[StaticComponent] = &[
    ("algorithm", Required, 0),
    ("parameters", Optional, 1),
];

const NAME: &[StaticAlternative] = &[("rdnSequence", 8)];

const ATTRIBUTE_TYPE_AND_VALUE: &[StaticComponent] = &[
    ("type", Required, 0),
    ("value", Required, 1),
];

const VALIDITY: &[StaticComponent] = &[("notBefore", Required, 12), ("notAfter", Required, 12)];

const TIME: &[StaticAlternative] = &[("utcTime", 10), ("generalTime", 11)];

const SUBJECT_PUBLIC_KEY_INFO: &[StaticComponent] = &[
    ("algorithm", Required, 2),
    ("subjectPublicKey", Required, 14),
];

const EXTENSION: &[StaticComponent] = &[
    ("extnID", Required, 0),
    ("critical", Default(Truth(false)), 18),
    ("extnValue", Required, 19),
];
