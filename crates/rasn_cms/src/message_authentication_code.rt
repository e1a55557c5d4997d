// Written by `soqavise generate` from the ASN.1 of CmsMessages, CMS: change that, and write it
// again.
//! `MessageAuthenticationCode ::= OCTET STRING`
use rasn::prelude::*;

/// `MessageAuthenticationCode ::= OCTET STRING`
pub type MessageAuthenticationCode = OctetString;
