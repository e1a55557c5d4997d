// Written by `soqavise generate` from the ASN.1 of CmsMessages, CMS: change that, and write it
// again.
//! `ContentType ::= OBJECT IDENTIFIER`
use rasn::prelude::*;

/// `ContentType ::= OBJECT IDENTIFIER`
pub type ContentType = ObjectIdentifier;
