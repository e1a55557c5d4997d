//! Properties of the encoding rules, as `EncodingRules` returns them, stated with the decoder's
//! definitions.
ghost use Rattle.std.specs.Prelude.{◌≡◌};
ghost use Rattle.rasn_types.specs.Grammar.{top};
ghost use Rattle.rasn_de.specs.Headers.{is_der};
ghost use Rattle.rasn_de.specs.Leaves.{is_ber};

use rasn_types::ber::rules::EncodingRules;
use rasn_types::types::Codec;

/// Returns whether the rules are BER, under which any encoding of a value is accepted.
#[inline]
pub fn is_ber(rule: Codec) -> bool
    ensures { result ≡ is_ber rule }
{
    EncodingRules::of_codec(rule).is_ber()
}

/// Returns whether the rules are DER, under which only the encoding that the encoder writes is
/// read.
#[inline]
pub fn is_der(rule: Codec) -> bool
    ensures { result ≡ is_der rule }
{
    EncodingRules::of_codec(rule).is_der()
}

/// Returns whether lengths may have the indefinite form (X.690 8.1.3.6, 10.1), so that
/// end-of-contents octets may follow in place of a value.
#[inline]
pub fn allows_indefinite(rule: Codec) -> bool
    ensures { result ≡ top rule }
{
    EncodingRules::of_codec(rule).allows_indefinite()
}
