// Written by `soqavise generate` from the ASN.1 of SNMP: change that, and write it again.
//! `Counter64 ::= [APPLICATION 6] IMPLICIT INTEGER (0..18446744073709551615)`
use rasn::prelude::*;

/// `Counter64 ::= [APPLICATION 6] IMPLICIT INTEGER (0..18446744073709551615)`
pub type Counter64 = Implicit<ApplicationTag<6>, u64>;
