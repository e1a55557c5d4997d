// Written by `soqavise generate` from the ASN.1 of LDAP: change that, and write it again.
//! `ModifyDNResponse ::= [APPLICATION 13] IMPLICIT LDAPResult`
use crate::LdapResult;
use rasn::prelude::*;

/// `ModifyDNResponse ::= [APPLICATION 13] IMPLICIT LDAPResult`
pub type ModifyDnResponse = Implicit<ApplicationTag<13>, LdapResult>;
