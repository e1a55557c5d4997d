// Written by `soqavise generate` from the ASN.1 of LDAP: change that, and write it again.
//! `ModifyResponse ::= [APPLICATION 7] IMPLICIT LDAPResult`
use crate::LdapResult;
use rasn::prelude::*;

/// `ModifyResponse ::= [APPLICATION 7] IMPLICIT LDAPResult`
pub type ModifyResponse = Implicit<ApplicationTag<7>, LdapResult>;
