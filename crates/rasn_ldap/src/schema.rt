// Written by `soqavise generate` from the ASN.1 of LDAP: change that, and write it again.
//! The types as data, for what reads and writes by a schema.
use rasn_schema::constants::prelude::*;

/// The types, which refer to one another by their numbers. A CHOICE has the alternatives of those
/// that are alternatives of it, and what this crate has as open types is open.
pub const TYPES: &[StaticType] = &[
    Any(Tag::EOC),
    Leaf(OctetString, tag!(Context, 1), NONE, &[]),
    Leaf(Utf8, tag!(Context, 0), NONE, &[]),
    Leaf(OctetString, tag!(Context, 11), NONE, &[]),
    Leaf(Utf8, tag!(Context, 10), NONE, &[]),
    SequenceOf(tag!(Context, 3), 73, size!(1..)),
    Leaf(OctetString, tag!(Context, 1), NONE, &[]),
    Leaf(Utf8, tag!(Context, 0), NONE, &[]),
    Leaf(Utf8, tag!(Context, 0), NONE, &[]),
    Leaf(Boolean, Tag::BOOL, NONE, &[]),
    Leaf(
        Signed64,
        Tag::ENUMERATED,
        NONE,
        &[("add", 0), ("delete", 1), ("replace", 2)],
    ),
    SequenceOf(Tag::SEQUENCE, 48, NONE),
    Leaf(Boolean, tag!(Context, 4), NONE, &[]),
    Leaf(OctetString, tag!(Context, 3), NONE, &[]),
    Leaf(Utf8, tag!(Context, 2), NONE, &[]),
    Leaf(Utf8, tag!(Context, 1), NONE, &[]),
    Leaf(OctetString, tag!(Context, 2), NONE, &[]),
    Leaf(OctetString, tag!(Context, 1), NONE, &[]),
    Leaf(OctetString, tag!(Context, 0), NONE, &[]),
    SequenceOf(Tag::SEQUENCE, 55, size!(1..)),
    Leaf(Boolean, Tag::BOOL, NONE, &[]),
    Leaf(
        Signed64,
        Tag::ENUMERATED,
        NONE,
        &[
            ("neverDerefAliases", 0),
            ("derefInSearching", 1),
            ("derefFindingBaseObj", 2),
            ("derefAlways", 3),
        ],
    ),
    Leaf(
        Signed64,
        Tag::ENUMERATED,
        NONE,
        &[("baseObject", 0), ("singleLevel", 1), ("wholeSubtree", 2)],
    ),
    Leaf(OctetString, tag!(Context, 7), NONE, &[]),
    SequenceOf(tag!(Context, 3), 73, size!(1..)),
    Leaf(OctetString, Tag::OCTET_STRING, NONE, &[]),
    Sequence(
        tag!(Context, 3),
        &[
            ("mechanism", Required, 73),
            ("credentials", Optional, 25),
            ("...", Required, 77),
        ],
    ),
    Leaf(OctetString, tag!(Context, 0), NONE, &[]),
    Leaf(Integer, Tag::INTEGER, value!(1..=127), &[]),
    Leaf(OctetString, Tag::OCTET_STRING, NONE, &[]),
    Leaf(Boolean, Tag::BOOL, NONE, &[]),
    SequenceOf(tag!(Context, 3), 73, size!(1..)),
    SequenceOf(Tag::SET, 72, size!(1..)),
    SequenceOf(tag!(Context, 0), 64, NONE),
    Sequence(
        tag!(Application, 25),
        &[
            ("responseName", Optional, 2),
            ("responseValue", Optional, 1),
            ("...", Required, 77),
        ],
    ),
    Sequence(
        tag!(Application, 24),
        &[
            ("resultCode", Required, 65),
            ("matchedDN", Required, 73),
            ("diagnosticMessage", Required, 73),
            ("referral", Optional, 5),
            ("responseName", Optional, 4),
            ("responseValue", Optional, 3),
            ("...", Required, 77),
        ],
    ),
    Sequence(
        tag!(Application, 23),
        &[
            ("requestName", Required, 7),
            ("requestValue", Optional, 6),
            ("...", Required, 77),
        ],
    ),
    Leaf(Integer, tag!(Application, 16), value!(0..=2147483647), &[]),
    Sequence(
        tag!(Application, 15),
        &[
            ("resultCode", Required, 65),
            ("matchedDN", Required, 73),
            ("diagnosticMessage", Required, 73),
            ("referral", Optional, 31),
            ("...", Required, 77),
        ],
    ),
    Sequence(
        tag!(Application, 14),
        &[
            ("entry", Required, 73),
            ("ava", Required, 71),
            ("...", Required, 77),
        ],
    ),
    Sequence(
        tag!(Application, 13),
        &[
            ("resultCode", Required, 65),
            ("matchedDN", Required, 73),
            ("diagnosticMessage", Required, 73),
            ("referral", Optional, 31),
            ("...", Required, 77),
        ],
    ),
    Sequence(
        tag!(Application, 12),
        &[
            ("entry", Required, 73),
            ("newrdn", Required, 73),
            ("deleteoldrdn", Required, 9),
            ("newSuperior", Optional, 8),
            ("...", Required, 77),
        ],
    ),
    Sequence(
        tag!(Application, 11),
        &[
            ("resultCode", Required, 65),
            ("matchedDN", Required, 73),
            ("diagnosticMessage", Required, 73),
            ("referral", Optional, 31),
            ("...", Required, 77),
        ],
    ),
    Leaf(Utf8, tag!(Application, 10), NONE, &[]),
    Sequence(
        tag!(Application, 9),
        &[
            ("resultCode", Required, 65),
            ("matchedDN", Required, 73),
            ("diagnosticMessage", Required, 73),
            ("referral", Optional, 31),
            ("...", Required, 77),
        ],
    ),
    SequenceOf(Tag::SEQUENCE, 67, NONE),
    Sequence(
        tag!(Application, 8),
        &[
            ("entry", Required, 73),
            ("attributes", Required, 45),
            ("...", Required, 77),
        ],
    ),
    Sequence(
        tag!(Application, 7),
        &[
            ("resultCode", Required, 65),
            ("matchedDN", Required, 73),
            ("diagnosticMessage", Required, 73),
            ("referral", Optional, 31),
            ("...", Required, 77),
        ],
    ),
    Sequence(
        Tag::SEQUENCE,
        &[
            ("operation", Required, 10),
            ("modification", Required, 68),
            ("...", Required, 77),
        ],
    ),
    Sequence(
        tag!(Application, 6),
        &[
            ("object", Required, 73),
            ("changes", Required, 11),
            ("...", Required, 77),
        ],
    ),
    Sequence(
        tag!(Application, 5),
        &[
            ("resultCode", Required, 65),
            ("matchedDN", Required, 73),
            ("diagnosticMessage", Required, 73),
            ("referral", Optional, 31),
            ("...", Required, 77),
        ],
    ),
    SequenceOf(tag!(Application, 19), 73, size!(1..)),
    SequenceOf(Tag::SEQUENCE, 68, NONE),
    Sequence(
        tag!(Application, 4),
        &[
            ("objectName", Required, 73),
            ("attributes", Required, 52),
            ("...", Required, 77),
        ],
    ),
    Sequence(
        Tag::SEQUENCE,
        &[
            ("matchingRule", Optional, 15),
            ("type", Optional, 14),
            ("matchValue", Required, 13),
            ("dnAttributes", Default(Truth(false)), 12),
            ("...", Required, 77),
        ],
    ),
    Choice(
        "Substring",
        &[("initial", 18), ("any", 17), ("final", 16), ("...", 0)],
    ),
    Sequence(
        Tag::SEQUENCE,
        &[
            ("type", Required, 73),
            ("substrings", Required, 19),
            ("...", Required, 77),
        ],
    ),
    Any(Tag::EOC),
    SequenceOf(Tag::SEQUENCE, 73, NONE),
    Sequence(
        tag!(Application, 3),
        &[
            ("baseObject", Required, 73),
            ("scope", Required, 22),
            ("derefAliases", Required, 21),
            ("sizeLimit", Required, 74),
            ("timeLimit", Required, 74),
            ("typesOnly", Required, 20),
            ("filter", Required, 57),
            ("attributes", Required, 58),
            ("...", Required, 77),
        ],
    ),
    Leaf(Null, tag!(Application, 2), NONE, &[]),
    Sequence(
        tag!(Application, 1),
        &[
            ("resultCode", Required, 65),
            ("matchedDN", Required, 73),
            ("diagnosticMessage", Required, 73),
            ("referral", Optional, 24),
            ("serverSaslCreds", Optional, 23),
            ("...", Required, 77),
        ],
    ),
    Choice(
        "AuthenticationChoice",
        &[("simple", 27), ("sasl", 26), ("...", 0)],
    ),
    Sequence(
        tag!(Application, 0),
        &[
            ("version", Required, 28),
            ("name", Required, 73),
            ("authentication", Required, 62),
            ("...", Required, 77),
        ],
    ),
    Sequence(
        Tag::SEQUENCE,
        &[
            ("controlType", Required, 73),
            ("criticality", Default(Truth(false)), 30),
            ("controlValue", Optional, 29),
            ("...", Required, 77),
        ],
    ),
    Leaf(
        Signed64,
        Tag::ENUMERATED,
        NONE,
        &[
            ("success", 0),
            ("operationsError", 1),
            ("protocolError", 2),
            ("timeLimitExceeded", 3),
            ("sizeLimitExceeded", 4),
            ("compareFalse", 5),
            ("compareTrue", 6),
            ("authMethodNotSupported", 7),
            ("strongerAuthRequired", 8),
            ("referral", 10),
            ("adminLimitExceeded", 11),
            ("unavailableCriticalExtension", 12),
            ("confidentialityRequired", 13),
            ("saslBindInProgress", 14),
            ("noSuchAttribute", 16),
            ("undefinedAttributeType", 17),
            ("inappropriateMatching", 18),
            ("constraintViolation", 19),
            ("attributeOrValueExists", 20),
            ("invalidAttributeSyntax", 21),
            ("noSuchObject", 32),
            ("aliasProblem", 33),
            ("invalidDNSyntax", 34),
            ("aliasDereferencingProblem", 36),
            ("inappropriateAuthentication", 48),
            ("invalidCredentials", 49),
            ("insufficientAccessRights", 50),
            ("busy", 51),
            ("unavailable", 52),
            ("unwillingToPerform", 53),
            ("loopDetect", 54),
            ("namingViolation", 64),
            ("objectClassViolation", 65),
            ("notAllowedOnNonLeaf", 66),
            ("notAllowedOnRDN", 67),
            ("entryAlreadyExists", 68),
            ("objectClassModsProhibited", 69),
            ("affectsMultipleDSAs", 71),
            ("other", 80),
        ],
    ),
    Sequence(
        Tag::SEQUENCE,
        &[
            ("resultCode", Required, 65),
            ("matchedDN", Required, 73),
            ("diagnosticMessage", Required, 73),
            ("referral", Optional, 31),
            ("...", Required, 77),
        ],
    ),
    Sequence(
        Tag::SEQUENCE,
        &[
            ("type", Required, 73),
            ("vals", Required, 32),
            ("...", Required, 77),
        ],
    ),
    Sequence(
        Tag::SEQUENCE,
        &[
            ("type", Required, 73),
            ("vals", Required, 69),
            ("...", Required, 77),
        ],
    ),
    SequenceOf(Tag::SET, 72, NONE),
    Leaf(OctetString, Tag::OCTET_STRING, NONE, &[]),
    Sequence(
        Tag::SEQUENCE,
        &[
            ("attributeDesc", Required, 73),
            ("assertionValue", Required, 70),
            ("...", Required, 77),
        ],
    ),
    Leaf(OctetString, Tag::OCTET_STRING, NONE, &[]),
    Leaf(Utf8, Tag::OCTET_STRING, NONE, &[]),
    Leaf(Integer, Tag::INTEGER, value!(0..=2147483647), &[]),
    Choice(
        "ProtocolOp",
        &[
            ("bindRequest", 63),
            ("bindResponse", 61),
            ("unbindRequest", 60),
            ("searchRequest", 59),
            ("searchResEntry", 53),
            ("searchResDone", 50),
            ("searchResRef", 51),
            ("modifyRequest", 49),
            ("modifyResponse", 47),
            ("addRequest", 46),
            ("addResponse", 44),
            ("delRequest", 43),
            ("delResponse", 42),
            ("modDNRequest", 41),
            ("modDNResponse", 40),
            ("compareRequest", 39),
            ("compareResponse", 38),
            ("abandonRequest", 37),
            ("extendedReq", 36),
            ("extendedResp", 35),
            ("intermediateResponse", 34),
            ("...", 0),
        ],
    ),
    Sequence(
        Tag::SEQUENCE,
        &[
            ("messageID", Required, 74),
            ("protocolOp", Required, 75),
            ("controls", Optional, 33),
            ("...", Required, 77),
        ],
    ),
    Unknown,
];

impl HasSchema for crate::MatchingRuleAssertion {
    ghost ID = { 54 };

    const ID: usize = 54;

    fn types() -> &'static [StaticType] {
        TYPES
    }
}

impl HasSchema for crate::SubstringFilter {
    ghost ID = { 56 };

    const ID: usize = 56;

    fn types() -> &'static [StaticType] {
        TYPES
    }
}

impl HasSchema for crate::LdapResult {
    ghost ID = { 66 };

    const ID: usize = 66;

    fn types() -> &'static [StaticType] {
        TYPES
    }
}

impl HasSchema for crate::LdapMessage {
    ghost ID = { 76 };

    const ID: usize = 76;

    fn types() -> &'static [StaticType] {
        TYPES
    }
}
