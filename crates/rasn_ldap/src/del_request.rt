// Written by `soqavise generate` from the ASN.1 of LDAP: change that, and write it again.
//! `DelRequest ::= [APPLICATION 10] IMPLICIT UTF8String`
use rasn::prelude::*;

/// `DelRequest ::= [APPLICATION 10] IMPLICIT UTF8String`
pub type DelRequest = Implicit<ApplicationTag<10>, Utf8String>;
