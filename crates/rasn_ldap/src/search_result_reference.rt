// Written by `soqavise generate` from the ASN.1 of LDAP: change that, and write it again.
//! `SearchResultReference ::= [APPLICATION 19] IMPLICIT Referral`
use crate::Referral;
use rasn::prelude::*;

/// `SearchResultReference ::= [APPLICATION 19] IMPLICIT Referral`
pub type SearchResultReference = Implicit<ApplicationTag<19>, Referral>;
