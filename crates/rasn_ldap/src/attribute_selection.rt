// Written by `soqavise generate` from the ASN.1 of LDAP: change that, and write it again.
//! `AttributeSelection ::= SEQUENCE OF LDAPString`
use crate::LdapString;
use rasn::prelude::*;

/// `AttributeSelection ::= SEQUENCE OF LDAPString`
pub type AttributeSelection = Vec<LdapString>;
