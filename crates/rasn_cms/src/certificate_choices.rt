// Written by `soqavise generate` from the ASN.1 of CmsMessages, CMS: change that, and write it
// again.
//! `CertificateChoices ::= CHOICE`
use rasn::prelude::*;

/// `CertificateChoices ::= CHOICE`
///
/// It is an open type, since the option `--open` names it.
pub type CertificateChoices = Any;
