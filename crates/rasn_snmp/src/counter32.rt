// Written by `soqavise generate` from the ASN.1 of SNMP: change that, and write it again.
//! `Counter32 ::= [APPLICATION 1] IMPLICIT INTEGER (0..4294967295)`
use rasn::prelude::*;

/// `Counter32 ::= [APPLICATION 1] IMPLICIT INTEGER (0..4294967295)`
pub type Counter32 = Implicit<ApplicationTag<1>, u32>;
