// Written by `soqavise generate` from the ASN.1 of CmsMessages, CMS: change that, and write it
// again.
//! `CMSVersion ::= INTEGER { v0(0), v1(1), v2(2), v3(3), v4(4), v5(5) }`
use rasn::prelude::*;

/// `CMSVersion ::= INTEGER { v0(0), v1(1), v2(2), v3(3), v4(4), v5(5) }`
pub type CmsVersion = Integer;
