// Written by `soqavise generate` from the ASN.1 of CmsMessages, CMS: change that, and write it
// again.
//! `KeyIdentifier ::= OCTET STRING`
use rasn::prelude::*;

/// `KeyIdentifier ::= OCTET STRING`
pub type KeyIdentifier = OctetString;
