//! The messages whose types need not be named.

use rasn_types::types::Codec;

/// The names of a module and of a type of messages, the labels of their blocks of PEM, which are
/// those of RFC 7468 and those that programs write, and whether messages without a label are tried
/// as such.
pub(crate) type StandardType = (&'static str, &'static str, &'static [&'static str], bool);

/// The label of a certificate after which openssl writes what it trusts the certificate for.
pub(crate) const TRUSTED: &str = "TRUSTED CERTIFICATE";

/// The label that what follows such a certificate gets.
pub(crate) const TRUST: &str = "CERTIFICATE TRUST";

/// The types of messages in the order in which they are tried: LDAP's, which is extensible, is the
/// last.
pub(crate) const MESSAGES: &[StandardType] = &[
    (
        "Certificates",
        "Certificate",
        &[
            "CERTIFICATE",
            "X509 CERTIFICATE",
            "X.509 CERTIFICATE",
            TRUSTED,
        ],
        true,
    ),
    ("Revocation", "CertificateList", &["X509 CRL", "CRL"], true),
    (
        "Requests",
        "CertificationRequest",
        &["CERTIFICATE REQUEST", "NEW CERTIFICATE REQUEST"],
        true,
    ),
    (
        "CMS",
        "ContentInfo",
        &["CMS", "PKCS7", "PKCS #7 SIGNED DATA"],
        true,
    ),
    ("Keys", "OneAsymmetricKey", &["PRIVATE KEY"], true),
    (
        "Keys",
        "EncryptedPrivateKeyInfo",
        &["ENCRYPTED PRIVATE KEY"],
        true,
    ),
    (
        "Certificates",
        "SubjectPublicKeyInfo",
        &["PUBLIC KEY"],
        true,
    ),
    ("Keys", "RSAPrivateKey", &["RSA PRIVATE KEY"], true),
    ("Keys", "RSAPublicKey", &["RSA PUBLIC KEY"], true),
    ("Keys", "ECPrivateKey", &["EC PRIVATE KEY"], true),
    (
        "AttributeCertificates",
        "AttributeCertificate",
        &["ATTRIBUTE CERTIFICATE"],
        true,
    ),
    ("PKCS12", "PFX", &["PKCS12"], true),
    ("OCSP", "OCSPRequest", &["OCSP REQUEST"], true),
    ("OCSP", "OCSPResponse", &["OCSP RESPONSE"], true),
    ("TimeStamps", "TimeStampReq", &[], true),
    ("TimeStamps", "TimeStampResp", &[], true),
    ("SNMP", "Message", &[], true),
    ("SNMP", "SNMPv3Message", &[], true),
    ("Kerberos", "AS-REQ", &[], true),
    ("Kerberos", "AS-REP", &[], true),
    ("Kerberos", "TGS-REQ", &[], true),
    ("Kerberos", "TGS-REP", &[], true),
    ("Kerberos", "AP-REQ", &[], true),
    ("Kerberos", "AP-REP", &[], true),
    ("Kerberos", "KRB-ERROR", &[], true),
    ("CMP", "PKIMessage", &[], true),
    ("LDAP", "LDAPMessage", &[], true),
    ("Keys", "ECParameters", &["EC PARAMETERS"], false),
    ("Keys", "Dss-Parms", &["DSA PARAMETERS"], false),
    ("Keys", "DHParameter", &["DH PARAMETERS"], false),
    ("Keys", "DomainParameters", &["X9.42 DH PARAMETERS"], false),
    ("OpenSSL", "CertificateTrust", &[TRUST], false),
];

/// Returns the index of the type of messages that has this label.
pub(crate) fn labelled(label: &str) -> Option<usize> {
    for (index, (_, _, labels, _)) in MESSAGES.iter().enumerate() {
        if labels.contains(&label) {
            return Some(index);
        }
    }
    None
}

/// Returns the rules by which the standard of a module has its messages: BER for CMS (RFC 5652 2),
/// PKCS #12 (RFC 7292 4), LDAP (RFC 4511 5.1) and SNMP (RFC 3417 8), otherwise DER.
pub(crate) fn rule_of(module: &str) -> Codec {
    match module {
        "CMS" | "PKCS12" | "LDAP" | "SNMP" => Codec::Ber,
        _ => Codec::Der,
    }
}
