// Written by `soqavise generate` from the ASN.1 of CmsMessages, CMS: change that, and write it
// again.
//! `DigestAlgorithmIdentifiers ::= SET OF AlgorithmIdentifier`
use rasn::prelude::*;
use rasn_pkix::AlgorithmIdentifier;

/// `DigestAlgorithmIdentifiers ::= SET OF AlgorithmIdentifier`
pub type DigestAlgorithmIdentifiers = SetOf<AlgorithmIdentifier>;
