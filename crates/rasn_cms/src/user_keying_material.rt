// Written by `soqavise generate` from the ASN.1 of CmsMessages, CMS: change that, and write it
// again.
//! `UserKeyingMaterial ::= OCTET STRING`
use rasn::prelude::*;

/// `UserKeyingMaterial ::= OCTET STRING`
pub type UserKeyingMaterial = OctetString;
