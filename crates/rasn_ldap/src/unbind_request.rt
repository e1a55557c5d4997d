// Written by `soqavise generate` from the ASN.1 of LDAP: change that, and write it again.
//! `UnbindRequest ::= [APPLICATION 2] IMPLICIT NULL`
use rasn::prelude::*;

/// `UnbindRequest ::= [APPLICATION 2] IMPLICIT NULL`
pub type UnbindRequest = Implicit<ApplicationTag<2>, ()>;
