//! Messages of protocols and their parts: certificates (RFC 5280), requests for them (RFC 2986),
//! signed messages (RFC 5652), messages of SNMP (RFC 3416, 3412) and LDAP (RFC 4511).

use crate::address_book::of_book;
use crate::entry::decoded;
use crate::kinds::{both, named};
use crate::reading::{refused, shown, told};
use crate::row::{Row, Verb};
use crate::writing::written;
use rasn::WholeMessage;
use rasn::error::EncodeError;
use rasn::types::{Codec, Implicit, Unknown};
use rasn_cms::{SignedMessage, SignerIdentifier};
use rasn_ldap::{
    ChangeOperationName, LdapMessage, MaxInt, ProtocolOp, ResultCodeName,
    SearchRequestDerefAliasesName, SearchRequestScopeName,
};
use rasn_pkix::{
    AuthorityKeyIdentifier, BasicConstraints, Certificate, CertificateList, CertificationRequest,
    GeneralName, GeneralNames, KeyUsage, Time,
};
use rasn_snmp::version::{VERSION_1, VERSION_2C, VERSION_3};
use rasn_snmp::{Message, SnmpV3Message, UsmSecurityParameters, VarBindValue, error_status};
use std::alloc::{AllocError, Global};
use std::fmt::Debug;

/// Returns the result of a row of a message.
pub fn of_message(alloc: Global, row: &Row<'_>) -> Result<String, AllocError> {
    match row.name {
        "certificate" => whole_message::<Certificate>(alloc, row),
        "revocations" => whole_message::<CertificateList>(alloc, row),
        "request" => whole_message::<CertificationRequest>(alloc, row),
        "signed" => whole_message::<SignedMessage>(alloc, row),
        "snmp" => whole_message::<Message>(alloc, row),
        "snmp3" => whole_message::<SnmpV3Message>(alloc, row),
        "ldap" => whole_message::<LdapMessage>(alloc, row),
        _ => of_part(alloc, row),
    }
}

/// Returns the result of a row of a part of a message.
fn of_part(alloc: Global, row: &Row<'_>) -> Result<String, AllocError> {
    match row.name {
        "certificate-time" => both::<Time>(alloc, row),
        "constraints" => both::<BasicConstraints>(alloc, row),
        "authority-key" => both::<AuthorityKeyIdentifier>(alloc, row),
        "names" => both::<GeneralNames>(alloc, row),
        "name" => both::<GeneralName>(alloc, row),
        "signer" => both::<SignerIdentifier>(alloc, row),
        "snmp-value" => both::<VarBindValue>(alloc, row),
        "snmp-security" => both::<UsmSecurityParameters>(alloc, row),
        _ => of_named(alloc, row),
    }
}

/// Returns the result of a row of bits or numbers that have names.
fn of_named(alloc: Global, row: &Row<'_>) -> Result<String, AllocError> {
    match row.name {
        "key-usage" => usage(alloc, row),
        "ldap-result" => named::<ResultCodeName>(alloc, row),
        "ldap-scope" => named::<SearchRequestScopeName>(alloc, row),
        "ldap-aliases" => named::<SearchRequestDerefAliasesName>(alloc, row),
        "ldap-change" => named::<ChangeOperationName>(alloc, row),
        _ => of_book(alloc, row),
    }
}

/// Returns the result of a row whose type is a message.
fn whole_message<T: WholeMessage + Debug>(
    alloc: Global,
    row: &Row<'_>,
) -> Result<String, AllocError> {
    match row.verb {
        Verb::Message => first::<T>(alloc, row),
        Verb::Back => back::<T>(alloc, row),
        Verb::Again => again::<T>(alloc, row),
        _ => both::<T>(alloc, row),
    }
}

/// Returns the message that the octets begin with, and the octets that follow it.
fn first<T: WholeMessage + Debug>(alloc: Global, row: &Row<'_>) -> Result<String, AllocError> {
    let answer = T::read_with_remainder(alloc, &row.octets);
    told(alloc, &answer)
}

/// Returns the octets that a message is written as, unless they are those that were read. It is
/// read by the rules of its standard, or by DER.
fn back<T: WholeMessage>(alloc: Global, row: &Row<'_>) -> Result<String, AllocError> {
    let answer = match row.rules {
        Codec::Der => T::read_der(alloc, &row.octets),
        Codec::Ber | Codec::Cer => T::read(alloc, &row.octets),
    };
    match answer {
        Ok(message) => kept(alloc, row, &message),
        Err(error) => refused(alloc, error.codec, &error.kind),
    }
}

/// Returns the octets that a message is written as, unless they are those of the row.
fn kept<T: WholeMessage>(alloc: Global, row: &Row<'_>, message: &T) -> Result<String, AllocError> {
    let answer = message.write(alloc);
    if are_octets(&answer, &row.octets) {
        return String::from_str(alloc, "= the same octets");
    }
    written(alloc, &answer)
}

/// Returns whether a call returned these octets.
fn are_octets(answer: &Result<Vec<u8>, EncodeError>, octets: &[u8]) -> bool {
    match answer {
        Ok(found) => found.as_slice() == octets,
        Err(_) => false,
    }
}

/// Returns whether a message is the one that is read from the octets that it is written as.
fn again<T: WholeMessage>(alloc: Global, row: &Row<'_>) -> Result<String, AllocError> {
    match T::read(alloc, &row.octets) {
        Ok(message) => {
            let is_same = is_read_back(alloc, &message);
            shown(alloc, &is_same)
        }
        Err(error) => refused(alloc, error.codec, &error.kind),
    }
}

/// Returns whether a message is the one that DER reads from the octets that it is written as.
fn is_read_back<T: WholeMessage>(alloc: Global, message: &T) -> bool {
    match message.write(alloc) {
        Ok(octets) => match T::read_der(alloc, &octets) {
            Ok(other) => other == *message,
            Err(_) => false,
        },
        Err(_) => false,
    }
}

/// Returns whether a key that is read has each of the uses of RFC 5280, 4.2.1.3, in their order.
fn usage(alloc: Global, row: &Row<'_>) -> Result<String, AllocError> {
    match decoded::<KeyUsage>(alloc, row.rules, &row.octets) {
        Ok(usage) => {
            let uses = uses_of(&usage);
            format!(in alloc; "= {uses:?}")
        }
        Err(error) => refused(alloc, error.codec, &error.kind),
    }
}

/// Returns whether a key has each of its uses.
fn uses_of(usage: &KeyUsage) -> [bool; 9] {
    [
        usage.digital_signature(),
        usage.non_repudiation(),
        usage.key_encipherment(),
        usage.data_encipherment(),
        usage.key_agreement(),
        usage.key_cert_sign(),
        usage.crl_sign(),
        usage.encipher_only(),
        usage.decipher_only(),
    ]
}

/// The numbers of SNMP that have names: the values of error-status (RFC 3416, 3), and versions
/// (RFC 1157, 4; RFC 1901, 3; RFC 3412, 6).
const NUMBERS: &[(&str, i128)] = &[
    ("noError", error_status::NO_ERROR),
    ("tooBig", error_status::TOO_BIG),
    ("noSuchName", error_status::NO_SUCH_NAME),
    ("badValue", error_status::BAD_VALUE),
    ("readOnly", error_status::READ_ONLY),
    ("genErr", error_status::GEN_ERR),
    ("noAccess", error_status::NO_ACCESS),
    ("wrongType", error_status::WRONG_TYPE),
    ("wrongLength", error_status::WRONG_LENGTH),
    ("wrongEncoding", error_status::WRONG_ENCODING),
    ("wrongValue", error_status::WRONG_VALUE),
    ("noCreation", error_status::NO_CREATION),
    ("inconsistentValue", error_status::INCONSISTENT_VALUE),
    ("resourceUnavailable", error_status::RESOURCE_UNAVAILABLE),
    ("commitFailed", error_status::COMMIT_FAILED),
    ("undoFailed", error_status::UNDO_FAILED),
    ("authorizationError", error_status::AUTHORIZATION_ERROR),
    ("notWritable", error_status::NOT_WRITABLE),
    ("inconsistentName", error_status::INCONSISTENT_NAME),
    ("version-1", VERSION_1),
    ("version-2c", VERSION_2C),
    ("snmpv3", VERSION_3 as i128),
];

/// Returns the number that has this name in SNMP; `None` if there is none.
pub fn snmp_number(alloc: Global, name: &str) -> Result<Option<String>, AllocError> {
    for (known, number) in NUMBERS {
        if *known == name {
            return shown(alloc, number).map(Some);
        }
    }
    Ok(None)
}

/// Returns the octets of an UnbindRequest with this message number (RFC 4511, 4.3); `None` if the
/// text is no number.
pub fn unbind(alloc: Global, number: &str) -> Result<Option<String>, AllocError> {
    let Ok(value) = number.parse::<u32>() else {
        return Ok(None);
    };
    let message = LdapMessage {
        message_id: MaxInt { value },
        protocol_op: ProtocolOp::UnbindRequest(Implicit::new(())),
        controls: None,
        unknown: Unknown::new(alloc),
    };
    written(alloc, &message.write(alloc)).map(Some)
}
