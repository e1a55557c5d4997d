// Written by `soqavise generate` from the ASN.1 of LDAP: change that, and write it again.
//! `CompareResponse ::= [APPLICATION 15] IMPLICIT LDAPResult`
use crate::LdapResult;
use rasn::prelude::*;

/// `CompareResponse ::= [APPLICATION 15] IMPLICIT LDAPResult`
pub type CompareResponse = Implicit<ApplicationTag<15>, LdapResult>;
