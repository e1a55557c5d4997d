// Written by `soqavise generate` from the ASN.1 of LDAP: change that, and write it again.
//! `Filter ::= CHOICE`
use rasn::prelude::*;

/// `Filter ::= CHOICE`
///
/// It is an open type, since the option `--open` names it.
pub type Filter = Any;
