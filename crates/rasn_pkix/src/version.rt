// Written by `soqavise generate` from the ASN.1 of Certificates, Revocation, Requests,
// CertificateExtensions: change that, and write it again.
//! `Version ::= INTEGER { v1(0), v2(1), v3(2) }`
use rasn::prelude::*;

/// `Version ::= INTEGER { v1(0), v2(1), v3(2) }`
pub type Version = Integer;
