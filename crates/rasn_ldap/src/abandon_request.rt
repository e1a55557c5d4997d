// Written by `soqavise generate` from the ASN.1 of LDAP: change that, and write it again.
//! `AbandonRequest ::= [APPLICATION 16] IMPLICIT MaxInt`
use crate::MaxInt;
use rasn::prelude::*;

/// `AbandonRequest ::= [APPLICATION 16] IMPLICIT MaxInt`
pub type AbandonRequest = Implicit<ApplicationTag<16>, MaxInt>;
