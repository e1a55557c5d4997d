// Written by `soqavise generate` from the ASN.1 of LDAP: change that, and write it again.
//! `AddResponse ::= [APPLICATION 9] IMPLICIT LDAPResult`
use crate::LdapResult;
use rasn::prelude::*;

/// `AddResponse ::= [APPLICATION 9] IMPLICIT LDAPResult`
pub type AddResponse = Implicit<ApplicationTag<9>, LdapResult>;
