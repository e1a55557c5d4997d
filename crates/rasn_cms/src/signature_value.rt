// Written by `soqavise generate` from the ASN.1 of CmsMessages, CMS: change that, and write it
// again.
//! `SignatureValue ::= OCTET STRING`
use rasn::prelude::*;

/// `SignatureValue ::= OCTET STRING`
pub type SignatureValue = OctetString;
