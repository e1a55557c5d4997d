// Written by `soqavise generate` from the ASN.1 of Certificates, Revocation, Requests,
// CertificateExtensions: change that, and write it again.
//! `RDNSequence ::= SEQUENCE OF RelativeDistinguishedName`
use crate::RelativeDistinguishedName;
use rasn::prelude::*;

/// `RDNSequence ::= SEQUENCE OF RelativeDistinguishedName`
pub type RdnSequence = Vec<RelativeDistinguishedName>;
