// Written by `soqavise generate` from the ASN.1 of CmsMessages, CMS: change that, and write it
// again.
//! `EncryptedKey ::= OCTET STRING`
use rasn::prelude::*;

/// `EncryptedKey ::= OCTET STRING`
pub type EncryptedKey = OctetString;
