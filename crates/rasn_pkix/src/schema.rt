// Written by `soqavise generate` from the ASN.1 of Certificates, Revocation, Requests,
// CertificateExtensions: change that, and write it again.
//! The types as data, for what reads and writes by a schema.
use rasn_schema::constants::prelude::*;

/// The types, which refer to one another by their numbers. A CHOICE has the alternatives of those
/// that are alternatives of it, and what this crate has as open types is open.
pub const TYPES: &[StaticType] = &[
    Any(Tag::EOC),
    Any(Tag::EOC),
    Leaf(Integer, Tag::INTEGER, value!(0..), &[]),
    Leaf(Boolean, Tag::BOOL, NONE, &[]),
    Leaf(Bmp, Tag::BMP_STRING, size!(1..), &[]),
    Leaf(Utf8, Tag::UTF8_STRING, size!(1..), &[]),
    Leaf(AnyOctets, tag!(Universal, 28), size!(1..), &[]),
    Leaf(Printable, Tag::PRINTABLE_STRING, size!(1..), &[]),
    Leaf(AnyOctets, Tag::TELETEX_STRING, size!(1..), &[]),
    Tagged(tag!(Context, 1), 62),
    Tagged(tag!(Context, 0), 63),
    Tagged(tag!(Context, 0), 0),
    Leaf(ObjectIdentifier, Tag::OBJECT_IDENTIFIER, NONE, &[]),
    SetOf(Tag::SET, 1, size!(1..)),
    Leaf(ObjectIdentifier, Tag::OBJECT_IDENTIFIER, NONE, &[]),
    SetOf(tag!(Context, 0), 42, NONE),
    Leaf(Integer, Tag::INTEGER, NONE, &[("v1", 0)]),
    Leaf(BitString, Tag::BIT_STRING, NONE, &[]),
    Tagged(tag!(Context, 0), 49),
    SequenceOf(Tag::SEQUENCE, 45, NONE),
    Leaf(BitString, Tag::BIT_STRING, NONE, &[]),
    Leaf(OctetString, Tag::OCTET_STRING, NONE, &[]),
    Leaf(Boolean, Tag::BOOL, NONE, &[]),
    Leaf(ObjectIdentifier, Tag::OBJECT_IDENTIFIER, NONE, &[]),
    Leaf(BitString, Tag::BIT_STRING, NONE, &[]),
    Leaf(GeneralizedTime, Tag::GENERALIZED_TIME, NONE, &[]),
    Leaf(UtcTime, Tag::UTC_TIME, NONE, &[]),
    Any(Tag::EOC),
    Leaf(ObjectIdentifier, Tag::OBJECT_IDENTIFIER, NONE, &[]),
    Any(Tag::EOC),
    Leaf(ObjectIdentifier, Tag::OBJECT_IDENTIFIER, NONE, &[]),
    Tagged(tag!(Context, 3), 49),
    Leaf(BitString, tag!(Context, 2), NONE, &[]),
    Leaf(BitString, tag!(Context, 1), NONE, &[]),
    Tagged(tag!(Context, 0), 59),
    Leaf(BitString, Tag::BIT_STRING, NONE, &[]),
    Leaf(ObjectIdentifier, Tag::OBJECT_IDENTIFIER, NONE, &[]),
    SequenceOf(Tag::SEQUENCE, 36, size!(1..)),
    Sequence(
        Tag::SEQUENCE,
        &[
            ("cA", Default(Truth(false)), 3),
            ("pathLenConstraint", Optional, 2),
        ],
    ),
    Sequence(
        Tag::SEQUENCE,
        &[("nameAssigner", Optional, 10), ("partyName", Required, 9)],
    ),
    Sequence(
        Tag::SEQUENCE,
        &[("type-id", Required, 12), ("value", Required, 11)],
    ),
    Leaf(
        NamedBits,
        Tag::BIT_STRING,
        NONE,
        &[
            ("digitalSignature", 0),
            ("nonRepudiation", 1),
            ("keyEncipherment", 2),
            ("dataEncipherment", 3),
            ("keyAgreement", 4),
            ("keyCertSign", 5),
            ("cRLSign", 6),
            ("encipherOnly", 7),
            ("decipherOnly", 8),
        ],
    ),
    Sequence(
        Tag::SEQUENCE,
        &[("type", Required, 14), ("values", Required, 13)],
    ),
    Sequence(
        Tag::SEQUENCE,
        &[
            ("version", Required, 16),
            ("subject", Required, 56),
            ("subjectPKInfo", Required, 50),
            ("attributes", Required, 15),
        ],
    ),
    Sequence(
        Tag::SEQUENCE,
        &[
            ("certificationRequestInfo", Required, 43),
            ("signatureAlgorithm", Required, 57),
            ("signature", Required, 17),
        ],
    ),
    Sequence(
        Tag::SEQUENCE,
        &[
            ("userCertificate", Required, 58),
            ("revocationDate", Required, 51),
            ("crlEntryExtensions", Optional, 49),
        ],
    ),
    Sequence(
        Tag::SEQUENCE,
        &[
            ("version", Optional, 59),
            ("signature", Required, 57),
            ("issuer", Required, 56),
            ("thisUpdate", Required, 51),
            ("nextUpdate", Optional, 51),
            ("revokedCertificates", Optional, 19),
            ("crlExtensions", Optional, 18),
        ],
    ),
    Sequence(
        Tag::SEQUENCE,
        &[
            ("tbsCertList", Required, 46),
            ("signatureAlgorithm", Required, 57),
            ("signatureValue", Required, 20),
        ],
    ),
    Sequence(
        Tag::SEQUENCE,
        &[
            ("extnID", Required, 23),
            ("critical", Default(Truth(false)), 22),
            ("extnValue", Required, 21),
        ],
    ),
    SequenceOf(Tag::SEQUENCE, 48, size!(1..)),
    Sequence(
        Tag::SEQUENCE,
        &[
            ("algorithm", Required, 57),
            ("subjectPublicKey", Required, 24),
        ],
    ),
    Choice("Time", &[("utcTime", 26), ("generalTime", 25)]),
    Sequence(
        Tag::SEQUENCE,
        &[("notBefore", Required, 51), ("notAfter", Required, 51)],
    ),
    Sequence(
        Tag::SEQUENCE,
        &[("type", Required, 28), ("value", Required, 27)],
    ),
    SetOf(Tag::SET, 53, size!(1..)),
    SequenceOf(Tag::SEQUENCE, 54, NONE),
    Choice("Name", &[("rdnSequence", 55)]),
    Sequence(
        Tag::SEQUENCE,
        &[("algorithm", Required, 30), ("parameters", Optional, 29)],
    ),
    Leaf(Integer, Tag::INTEGER, NONE, &[]),
    Leaf(
        Integer,
        Tag::INTEGER,
        NONE,
        &[("v1", 0), ("v2", 1), ("v3", 2)],
    ),
    Sequence(
        Tag::SEQUENCE,
        &[
            ("version", Default(Number(0)), 34),
            ("serialNumber", Required, 58),
            ("signature", Required, 57),
            ("issuer", Required, 56),
            ("validity", Required, 52),
            ("subject", Required, 56),
            ("subjectPublicKeyInfo", Required, 50),
            ("issuerUniqueID", Optional, 33),
            ("subjectUniqueID", Optional, 32),
            ("extensions", Optional, 31),
        ],
    ),
    Sequence(
        Tag::SEQUENCE,
        &[
            ("tbsCertificate", Required, 60),
            ("signatureAlgorithm", Required, 57),
            ("signatureValue", Required, 35),
        ],
    ),
    Choice(
        "DirectoryString",
        &[
            ("teletexString", 8),
            ("printableString", 7),
            ("universalString", 6),
            ("utf8String", 5),
            ("bmpString", 4),
        ],
    ),
    Choice(
        "DirectoryString",
        &[
            ("teletexString", 8),
            ("printableString", 7),
            ("universalString", 6),
            ("utf8String", 5),
            ("bmpString", 4),
        ],
    ),
];

impl HasSchema for crate::ExtKeyUsageSyntax {
    ghost ID = { 37 };

    const ID: usize = 37;

    fn types() -> &'static [StaticType] {
        TYPES
    }
}

impl HasSchema for crate::BasicConstraints {
    ghost ID = { 38 };

    const ID: usize = 38;

    fn types() -> &'static [StaticType] {
        TYPES
    }
}

impl HasSchema for crate::EdiPartyName {
    ghost ID = { 39 };

    const ID: usize = 39;

    fn types() -> &'static [StaticType] {
        TYPES
    }
}

impl HasSchema for crate::AnotherName {
    ghost ID = { 40 };

    const ID: usize = 40;

    fn types() -> &'static [StaticType] {
        TYPES
    }
}

impl HasSchema for crate::KeyUsage {
    ghost ID = { 41 };

    const ID: usize = 41;

    fn types() -> &'static [StaticType] {
        TYPES
    }
}

impl HasSchema for crate::CertificationRequest {
    ghost ID = { 44 };

    const ID: usize = 44;

    fn types() -> &'static [StaticType] {
        TYPES
    }
}

impl HasSchema for crate::CertificateList {
    ghost ID = { 47 };

    const ID: usize = 47;

    fn types() -> &'static [StaticType] {
        TYPES
    }
}

impl HasSchema for crate::Certificate {
    ghost ID = { 61 };

    const ID: usize = 61;

    fn types() -> &'static [StaticType] {
        TYPES
    }
}
