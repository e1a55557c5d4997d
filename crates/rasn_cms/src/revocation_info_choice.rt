// Written by `soqavise generate` from the ASN.1 of CmsMessages, CMS: change that, and write it
// again.
//! `RevocationInfoChoice ::= CHOICE`
use rasn::prelude::*;

/// `RevocationInfoChoice ::= CHOICE`
///
/// It is an open type, since the option `--open` names it.
pub type RevocationInfoChoice = Any;
