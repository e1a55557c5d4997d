//! The differences between the rules (X.690 9, 10).

use crate::reading::assert_facts;
use rasn_types::ber::rules::EncodingRules;
use rasn_types::types::Codec;

/// A set of rules, its name, whether it admits constructed strings and indefinite lengths, and the
/// maximum length of a string in one piece.
type Row = (EncodingRules, Codec, bool, usize);

// BER and CER admit constructed strings and indefinite lengths (10.1, 10.2); a CER segment has at
// most 1000 contents octets (9.2).
const EACH_RULE: &[Row] = &[
    (EncodingRules::Ber, Codec::Ber, true, usize::MAX),
    (EncodingRules::Cer, Codec::Cer, true, 1000),
    (EncodingRules::Der, Codec::Der, false, usize::MAX),
];

#[test]
fn rules_allow(rt: HostRuntime) {
    for (rules, codec, more_forms, longest) in EACH_RULE {
        assert_facts(
            &rt,
            &[
                rules.codec() == *codec,
                EncodingRules::of_codec(*codec) == *rules,
                rules.allows_constructed_strings() == *more_forms,
                rules.allows_indefinite() == *more_forms,
                rules.max_string_length() == *longest,
            ],
        );
    }
}

#[test]
fn each_is_one_of_three(rt: HostRuntime) {
    assert_facts(
        &rt,
        &[
            EncodingRules::Ber.is_ber(),
            EncodingRules::Cer.is_cer(),
            EncodingRules::Der.is_der(),
            !EncodingRules::Cer.is_ber(),
            !EncodingRules::Der.is_cer(),
            !EncodingRules::Cer.is_der(),
            EncodingRules::Ber < EncodingRules::Cer,
        ],
    );
}
