// Written by `soqavise generate` from the ASN.1 of SNMP: change that, and write it again.
//! `Opaque ::= [APPLICATION 4] IMPLICIT OCTET STRING`
use rasn::prelude::*;

/// `Opaque ::= [APPLICATION 4] IMPLICIT OCTET STRING`
pub type Opaque = Implicit<ApplicationTag<4>, OctetString>;
