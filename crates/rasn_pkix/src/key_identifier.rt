// Written by `soqavise generate` from the ASN.1 of Certificates, Revocation, Requests,
// CertificateExtensions: change that, and write it again.
//! `KeyIdentifier ::= OCTET STRING`
use rasn::prelude::*;

/// `KeyIdentifier ::= OCTET STRING`
pub type KeyIdentifier = OctetString;
