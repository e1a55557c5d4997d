// Written by `soqavise generate` from the ASN.1 of SNMP: change that, and write it again.
//! The types as data, for what reads and writes by a schema.
use rasn_schema::constants::prelude::*;

/// The types, which refer to one another by their numbers. A CHOICE has the alternatives of those
/// that are alternatives of it, and what this crate has as open types is open.
pub const TYPES: &[StaticType] = &[
    Leaf(OctetString, Tag::OCTET_STRING, NONE, &[]),
    Leaf(OctetString, Tag::OCTET_STRING, NONE, &[]),
    Leaf(OctetString, Tag::OCTET_STRING, size!(0..=32), &[]),
    Leaf(OctetString, Tag::OCTET_STRING, NONE, &[]),
    Leaf(OctetString, Tag::OCTET_STRING, NONE, &[]),
    Leaf(OctetString, Tag::OCTET_STRING, NONE, &[]),
    Leaf(OctetString, Tag::OCTET_STRING, NONE, &[]),
    Leaf(Integer, Tag::INTEGER, value!(1..=2147483647), &[]),
    Leaf(OctetString, Tag::OCTET_STRING, size!(1..=1), &[]),
    Leaf(Integer, Tag::INTEGER, value!(484..=2147483647), &[]),
    Leaf(OctetString, Tag::OCTET_STRING, NONE, &[]),
    Leaf(
        Integer,
        Tag::INTEGER,
        value!(0..=2147483647),
        &[("snmpv3", 3)],
    ),
    Leaf(ObjectIdentifier, Tag::OBJECT_IDENTIFIER, NONE, &[]),
    Leaf(OctetString, Tag::OCTET_STRING, size!(0..=65535), &[]),
    Leaf(Integer, Tag::INTEGER, value!(-2147483648..=2147483647), &[]),
    Leaf(Null, tag!(Context, 2), NONE, &[]),
    Leaf(Null, tag!(Context, 1), NONE, &[]),
    Leaf(Null, tag!(Context, 0), NONE, &[]),
    Leaf(Null, Tag::NULL, NONE, &[]),
    Leaf(Integer, Tag::INTEGER, NONE, &[]),
    Leaf(
        Integer,
        Tag::INTEGER,
        NONE,
        &[
            ("coldStart", 0),
            ("warmStart", 1),
            ("linkDown", 2),
            ("linkUp", 3),
            ("authenticationFailure", 4),
            ("egpNeighborLoss", 5),
            ("enterpriseSpecific", 6),
        ],
    ),
    Leaf(ObjectIdentifier, Tag::OBJECT_IDENTIFIER, NONE, &[]),
    Leaf(Integer, Tag::INTEGER, value!(-2147483648..=2147483647), &[]),
    Leaf(
        Integer,
        Tag::INTEGER,
        NONE,
        &[
            ("noError", 0),
            ("tooBig", 1),
            ("noSuchName", 2),
            ("badValue", 3),
            ("readOnly", 4),
            ("genErr", 5),
            ("noAccess", 6),
            ("wrongType", 7),
            ("wrongLength", 8),
            ("wrongEncoding", 9),
            ("wrongValue", 10),
            ("noCreation", 11),
            ("inconsistentValue", 12),
            ("resourceUnavailable", 13),
            ("commitFailed", 14),
            ("undoFailed", 15),
            ("authorizationError", 16),
            ("notWritable", 17),
            ("inconsistentName", 18),
        ],
    ),
    Leaf(Integer, Tag::INTEGER, value!(-2147483648..=2147483647), &[]),
    Sequence(
        tag!(Context, 8),
        &[
            ("request-id", Required, 24),
            ("error-status", Required, 23),
            ("error-index", Required, 52),
            ("variable-bindings", Required, 50),
        ],
    ),
    Sequence(
        tag!(Context, 7),
        &[
            ("request-id", Required, 24),
            ("error-status", Required, 23),
            ("error-index", Required, 52),
            ("variable-bindings", Required, 50),
        ],
    ),
    Sequence(
        tag!(Context, 6),
        &[
            ("request-id", Required, 24),
            ("error-status", Required, 23),
            ("error-index", Required, 52),
            ("variable-bindings", Required, 50),
        ],
    ),
    Sequence(
        tag!(Context, 5),
        &[
            ("request-id", Required, 22),
            ("non-repeaters", Required, 52),
            ("max-repetitions", Required, 52),
            ("variable-bindings", Required, 50),
        ],
    ),
    Sequence(
        tag!(Context, 4),
        &[
            ("enterprise", Required, 21),
            ("agent-addr", Required, 51),
            ("generic-trap", Required, 20),
            ("specific-trap", Required, 19),
            ("time-stamp", Required, 43),
            ("variable-bindings", Required, 50),
        ],
    ),
    Sequence(
        tag!(Context, 3),
        &[
            ("request-id", Required, 24),
            ("error-status", Required, 23),
            ("error-index", Required, 52),
            ("variable-bindings", Required, 50),
        ],
    ),
    Sequence(
        tag!(Context, 2),
        &[
            ("request-id", Required, 24),
            ("error-status", Required, 23),
            ("error-index", Required, 52),
            ("variable-bindings", Required, 50),
        ],
    ),
    Sequence(
        tag!(Context, 1),
        &[
            ("request-id", Required, 24),
            ("error-status", Required, 23),
            ("error-index", Required, 52),
            ("variable-bindings", Required, 50),
        ],
    ),
    Sequence(
        tag!(Context, 0),
        &[
            ("request-id", Required, 24),
            ("error-status", Required, 23),
            ("error-index", Required, 52),
            ("variable-bindings", Required, 50),
        ],
    ),
    Leaf(OctetString, Tag::OCTET_STRING, NONE, &[]),
    Leaf(
        Integer,
        Tag::INTEGER,
        NONE,
        &[("version-1", 0), ("version-2c", 1)],
    ),
    Sequence(
        Tag::SEQUENCE,
        &[
            ("msgAuthoritativeEngineID", Required, 3),
            ("msgAuthoritativeEngineBoots", Required, 52),
            ("msgAuthoritativeEngineTime", Required, 52),
            ("msgUserName", Required, 2),
            ("msgAuthenticationParameters", Required, 1),
            ("msgPrivacyParameters", Required, 0),
        ],
    ),
    Sequence(
        Tag::SEQUENCE,
        &[
            ("contextEngineID", Required, 5),
            ("contextName", Required, 4),
            ("data", Required, 53),
        ],
    ),
    Choice("ScopedPduData", &[("plaintext", 37), ("encryptedPDU", 6)]),
    Sequence(
        Tag::SEQUENCE,
        &[
            ("msgID", Required, 52),
            ("msgMaxSize", Required, 9),
            ("msgFlags", Required, 8),
            ("msgSecurityModel", Required, 7),
        ],
    ),
    Sequence(
        Tag::SEQUENCE,
        &[
            ("msgVersion", Required, 11),
            ("msgGlobalData", Required, 39),
            ("msgSecurityParameters", Required, 10),
            ("msgData", Required, 38),
        ],
    ),
    Leaf(
        Integer,
        tag!(Application, 6),
        value!(0..=18446744073709551615),
        &[],
    ),
    Leaf(OctetString, tag!(Application, 4), NONE, &[]),
    Leaf(Integer, tag!(Application, 3), value!(0..=4294967295), &[]),
    Leaf(Integer, tag!(Application, 2), value!(0..=4294967295), &[]),
    Leaf(Integer, tag!(Application, 1), value!(0..=4294967295), &[]),
    Leaf(OctetString, tag!(Application, 0), size!(4..=4), &[]),
    Leaf(ObjectIdentifier, Tag::OBJECT_IDENTIFIER, NONE, &[]),
    Choice(
        "VarBindValue",
        &[
            ("integer-value", 14),
            ("string-value", 13),
            ("objectID-value", 12),
            ("ipAddress-value", 46),
            ("counter-value", 45),
            ("timeticks-value", 43),
            ("arbitrary-value", 42),
            ("big-counter-value", 41),
            ("unsigned-integer-value", 44),
            ("unSpecified", 18),
            ("noSuchObject", 17),
            ("noSuchInstance", 16),
            ("endOfMibView", 15),
        ],
    ),
    Sequence(
        Tag::SEQUENCE,
        &[("name", Required, 47), ("value", Required, 48)],
    ),
    SequenceOf(Tag::SEQUENCE, 49, size!(0..=2147483647)),
    Choice("NetworkAddress", &[("internet", 46)]),
    Leaf(Integer, Tag::INTEGER, value!(0..=2147483647), &[]),
    Choice(
        "PDUs",
        &[
            ("get-request", 33),
            ("get-next-request", 32),
            ("response", 31),
            ("set-request", 30),
            ("trap", 29),
            ("get-bulk-request", 28),
            ("inform-request", 27),
            ("snmpV2-trap", 26),
            ("report", 25),
        ],
    ),
    Sequence(
        Tag::SEQUENCE,
        &[
            ("version", Required, 35),
            ("community", Required, 34),
            ("data", Required, 53),
        ],
    ),
];

impl HasSchema for crate::UsmSecurityParameters {
    ghost ID = { 36 };

    const ID: usize = 36;

    fn types() -> &'static [StaticType] {
        TYPES
    }
}

impl HasSchema for crate::SnmpV3Message {
    ghost ID = { 40 };

    const ID: usize = 40;

    fn types() -> &'static [StaticType] {
        TYPES
    }
}

impl HasSchema for crate::Message {
    ghost ID = { 54 };

    const ID: usize = 54;

    fn types() -> &'static [StaticType] {
        TYPES
    }
}
