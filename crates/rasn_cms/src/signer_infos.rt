// Written by `soqavise generate` from the ASN.1 of CmsMessages, CMS: change that, and write it
// again.
//! `SignerInfos ::= SET OF SignerInfo`
use crate::SignerInfo;
use rasn::prelude::*;

/// `SignerInfos ::= SET OF SignerInfo`
pub type SignerInfos = SetOf<SignerInfo>;
