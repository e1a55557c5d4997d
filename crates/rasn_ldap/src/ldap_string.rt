// Written by `soqavise generate` from the ASN.1 of LDAP: change that, and write it again.
//! `LDAPString ::= [UNIVERSAL 4] IMPLICIT UTF8String`
use rasn::prelude::*;

/// `LDAPString ::= [UNIVERSAL 4] IMPLICIT UTF8String`
pub type LdapString = Implicit<OctetString, Utf8String>;
