//! The lengths of nested SEQUENCEs (X.690 8.1.3).
ghost use Rattle.rasn_enc.specs.View.{LeavesOthers};

use crate::reading::held;
use crate::types::NumberAndTruth;
use crate::writing::{assert_output_pieces, assert_written, new_encoder};
use rasn::ber::enc::Encoder;
use rasn::error::EncodeError;
use rasn::types::{Codec, Constraints, Identifier, Tag};
use std::alloc::{AllocError, Global};

/// The octets of the innermost OCTET STRING.
const THOUSAND_OCTETS: [u8; 1000] = [0x55; 1000];

/// Writes an OCTET STRING inside `levels` nested SEQUENCEs.
fn nest(encoder: &mut Encoder, levels: u8) -> Result<(), EncodeError>
    ensures { LeavesOthers encoder.old encoder.new }
{
    if levels == 0 {
        return encoder.encode_octet_string(
            Tag::OCTET_STRING,
            &Constraints::NONE,
            &THOUSAND_OCTETS,
            Identifier::EMPTY,
        );
    }
    let below = levels - 1;
    encoder.encode_sequence::<2, 0, NumberAndTruth, _>(
        Tag::SEQUENCE,
        |inner: &mut Encoder| -> Result<(), EncodeError>
            ensures { LeavesOthers inner.old inner.new }
        { nest(inner, below) },
        Identifier::EMPTY,
    )
}

/// Returns the headers of 100 nested SEQUENCEs, the outermost of 1404 octets, and of the
/// OCTET STRING inside.
fn headers(alloc: Global) -> Result<Vec<u8>, AllocError> {
    let mut octets = Vec::new(alloc);
    let mut length: u16 = 1404;
    for _ in 0..100u8 {
        length = length.wrapping_sub(4);
        octets.extend_from_slice(&[0x30, 0x82])?;
        octets.extend_from_slice(&length.to_be_bytes())?;
    }
    octets.extend_from_slice(&[0x04, 0x82, 0x03, 0xE8])?;
    Ok(octets)
}

// The outermost SEQUENCE has 1400 octets of contents, and each inner one four octets less
// (X.690 8.1.3).
#[test]
fn writes_sequences_in_one_another(rt: HostRuntime) {
    let alloc = rt.alloc();
    let mut encoder = new_encoder(&rt, alloc, Codec::Der);
    assert_written(&rt, nest(&mut encoder, 100));
    let headers = held(&rt, headers(alloc));
    assert!(rt; headers.starts_with(&[0x30, 0x82, 0x05, 0x78]));
    assert_output_pieces(&rt, alloc, encoder.output(), &[(&headers, 0x55, 1000)]);
}
