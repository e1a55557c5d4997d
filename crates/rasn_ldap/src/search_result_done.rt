// Written by `soqavise generate` from the ASN.1 of LDAP: change that, and write it again.
//! `SearchResultDone ::= [APPLICATION 5] IMPLICIT LDAPResult`
use crate::LdapResult;
use rasn::prelude::*;

/// `SearchResultDone ::= [APPLICATION 5] IMPLICIT LDAPResult`
pub type SearchResultDone = Implicit<ApplicationTag<5>, LdapResult>;
