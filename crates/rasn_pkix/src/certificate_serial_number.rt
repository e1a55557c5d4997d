// Written by `soqavise generate` from the ASN.1 of Certificates, Revocation, Requests,
// CertificateExtensions: change that, and write it again.
//! `CertificateSerialNumber ::= INTEGER`
use rasn::prelude::*;

/// `CertificateSerialNumber ::= INTEGER`
pub type CertificateSerialNumber = Integer;
