// Written by `soqavise generate` from the ASN.1 of LDAP: change that, and write it again.
//! `DelResponse ::= [APPLICATION 11] IMPLICIT LDAPResult`
use crate::LdapResult;
use rasn::prelude::*;

/// `DelResponse ::= [APPLICATION 11] IMPLICIT LDAPResult`
pub type DelResponse = Implicit<ApplicationTag<11>, LdapResult>;
