//! A SEQUENCE with a DEFAULT component (X.690 11.5), and the items that the modules of the rules
//! share.

use rasn::{Codec, cer, der};

// A type can be named through each of the modules of the rules.
#[test]
fn modules_share_their_items(rt: HostRuntime) {
    let sequence = cer::Identifier::from_tag(rasn::Tag::SEQUENCE, true);
    let same: der::Identifier = sequence;
    assert!(rt; same == sequence);
    let options: rasn::ber::de::DecoderOptions = cer::de::DecoderOptions::cer();
    assert!(rt; options.current_codec() == Codec::Cer);
}
