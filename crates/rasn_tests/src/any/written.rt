//! Encoding of open types: without a tag as their octets alone (X.690 8.15), under a tag as a
//! constructed value (8.14.2), and in a SET only under a tag (9.3, 10.3).
ghost use Rattle.rasn_enc.specs.View.{LeavesOthers};

use crate::any::{TAG_1, any_of};
use crate::types::Three;
use crate::writing::{
    assert_output, assert_refuses, assert_written, made, new_encoder, new_set_encoder,
};
use rasn::ber::enc::Encoder;
use rasn::enc::Encode;
use rasn::error::EncodeError;
use rasn::types::{Any, ApplicationTag, Codec, ContextTag, Explicit, Identifier, Implicit, Tag};
use rasn_bench::Set3;
use std::alloc::{AllocError, Global};
use std::process::Abort;

/// The error kind of an open type without a tag in a SET.
const ANY_IN_SET: &str = "CodecSpecific { inner: Ber(AnyInSet) }";

/// \[N\] INTEGER (0..255)
type At<const N: u32> = Implicit<ContextTag<N>, u8>;

/// Asserts the encoding of an open type with these octets, under this tag or without a tag.
fn assert_writes_open(
    rt: &impl Abort,
    alloc: Global,
    rules: Codec,
    tag: Tag,
    held: &[u8],
    octets: &[u8],
) {
    let any = made(rt, any_of(alloc, held));
    let mut encoder = new_encoder(rt, alloc, rules);
    assert_written(rt, encoder.encode_any(tag, &any, Identifier::EMPTY));
    assert_output(rt, encoder.output(), octets);
}

// Without a tag the octets are written alone (X.690 8.15), whether they begin with an identifier or
// not.
#[test]
fn writes_octets_alone(rt: HostRuntime) {
    let alloc = rt.alloc();
    for rules in [Codec::Ber, Codec::Cer, Codec::Der] {
        assert_writes_open(&rt, alloc, rules, Tag::EOC, &[0x05, 0x00], &[0x05, 0x00]);
        assert_writes_open(&rt, alloc, rules, Tag::EOC, &[0x1F], &[0x1F]);
        assert_writes_open(&rt, alloc, rules, Tag::EOC, &[], &[]);
        assert_writes_open(&rt, alloc, rules, TAG_1, &[], &[]);
    }
}

// In a SET octets without a tag can't be put in order (X.690 9.3, 10.3).
#[test]
fn refuses_bare_octets_where_tags_are_kept(rt: HostRuntime) {
    let alloc = rt.alloc();
    let any = made(&rt, any_of(alloc, &[0x05, 0x00]));
    for rules in [Codec::Ber, Codec::Cer, Codec::Der] {
        let mut encoder = new_set_encoder(&rt, alloc, rules);
        assert_written(&rt, true.encode(&mut encoder));
        assert_refuses(&rt, alloc, rules, any.encode(&mut encoder), ANY_IN_SET);
        assert_output(&rt, encoder.output(), &[0x01, 0x01, 0xFF]);
    }
}

/// Returns a SET of three components, the last of them an open type without a tag that has these
/// octets.
fn ends_open(alloc: Global, octets: &[u8]) -> Result<Option<Three<At<0>, At<1>, Any>>, AllocError> {
    let octets = Vec::from_slice(alloc, octets)?;
    Ok(Some(Three {
        first: Implicit::new(1),
        second: Implicit::new(2),
        third: Any::new(octets),
    }))
}

// An open type without a tag is refused in a SET. One without octets writes nothing, so it is
// accepted.
#[test]
fn refuses_bare_octets_in_sets(rt: HostRuntime) {
    let alloc = rt.alloc();
    let full = made(&rt, ends_open(alloc, &[0x05, 0x00]));
    let empty = made(&rt, ends_open(alloc, &[]));
    const TWO_COMPONENTS: &[u8] = &[0x31, 0x06, 0x80, 0x01, 0x01, 0x81, 0x01, 0x02];
    for rules in [Codec::Ber, Codec::Der] {
        let mut encoder = new_encoder(&rt, alloc, rules);
        assert_refuses(&rt, alloc, rules, full.encode(&mut encoder), ANY_IN_SET);
        assert_written(&rt, empty.encode(&mut encoder));
        assert_output(&rt, encoder.output(), TWO_COMPONENTS);
    }
}

/// The components of the SET below: a SET, a number, an open type with a tag, and a list under an
/// explicit tag.
#[derive(Drop)]
struct Four {
    set: Three<At<0>, At<1>, Option<At<2>>>,
    number: Implicit<ApplicationTag<0>, u8>,
    open: Implicit<ContextTag<2>, Any>,
    list: Explicit<ContextTag<3>, Vec<u8>>,
}

fn components(alloc: Global) -> Result<Option<Four>, AllocError> {
    let null = Vec::from_slice(alloc, &[0x05, 0x00])?;
    let numbers = Vec::from_slice(alloc, &[9])?;
    Ok(Some(Four {
        set: Three {
            first: Implicit::new(1),
            second: Implicit::new(2),
            third: None,
        },
        number: Implicit::new(7),
        open: Implicit::new(Any::new(null)),
        list: Explicit::new(numbers),
    }))
}

/// Writes a SET of these components.
fn put_four(encoder: &mut Encoder, value: &Four) -> Result<(), EncodeError> {
    encoder.encode_set::<3, 0, Set3, _>(
        Tag::SET,
        |inner: &mut Encoder| -> Result<(), EncodeError>
            ensures { LeavesOthers inner.old inner.new }
        {
            value.set.encode(inner)?;
            value.number.encode(inner)?;
            value.open.encode(inner)?;
            value.list.encode(inner)
        },
        Identifier::EMPTY,
    )
}

// SET { SET { [0] 1, [1] 2 }, [APPLICATION 0] 7, [2] open type 05 00, [3] EXPLICIT SEQUENCE OF
// INTEGER { 9 } }: an open type with a tag is a component like any other.
#[test]
fn writes_open_types_in_sets(rt: HostRuntime) {
    let alloc = rt.alloc();
    let value = made(&rt, components(alloc));
    const FOUR_COMPONENTS: &[u8] = &[
        0x31, 0x16, 0x31, 0x06, 0x80, 0x01, 0x01, 0x81, 0x01, 0x02, 0x40, 0x01, 0x07, 0xA2, 0x02,
        0x05, 0x00, 0xA3, 0x05, 0x30, 0x03, 0x02, 0x01, 0x09,
    ];
    for rules in [Codec::Ber, Codec::Der] {
        let mut encoder = new_encoder(&rt, alloc, rules);
        assert_written(&rt, put_four(&mut encoder, &value));
        assert_output(&rt, encoder.output(), FOUR_COMPONENTS);
    }
}
