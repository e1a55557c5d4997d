// Written by `soqavise generate` from the ASN.1 of Certificates, Revocation, Requests,
// CertificateExtensions: change that, and write it again.
//! `KeyPurposeId ::= OBJECT IDENTIFIER`
use rasn::prelude::*;

/// `KeyPurposeId ::= OBJECT IDENTIFIER`
pub type KeyPurposeId = ObjectIdentifier;
