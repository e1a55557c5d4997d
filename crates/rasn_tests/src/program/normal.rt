//! Lines that the program normalises: from an encoding under any of the three rules to that of DER
//! (X.690 10, 11).

use crate::reading::assert_facts;
use rasn::error::{DecodeError, DecodeErrorKind};
use rasn::types::Codec;
use rasn_bench::{NormaliseError, RunFault, run_normalise};
use std::alloc::Global;

/// Rows of a line, an arrow and the result.
const TABLE: &str = "\
ber foo 308036800402536D040369746800000101010000 -> 300A1605536D6974680101FF
ber algid 308006092A864886F70D01010105000000 -> 300D06092A864886F70D0101010500
ber bag 3106040102040101 -> refused SetOutOfOrder
ber bool 0101FF00 -> refused UnexpectedExtraData
ber any 30800201010000 -> refused NotCanonical
ber set3 3109820103810102800101 -> 3109800101810102820103
der rdn 310B300906035504030C024142 -> 310B300906035504030C024142
ber utctime 17113639313233313233353930302D30313030 -> refused NotCanonical
ber optbool - -> -
ber bool 1 -> malformed
ber bool - -> refused Incomplete
ber nosuch - -> malformed
BER bool 0101FF -> malformed
der bool 010105 -> refused InvalidBool
ber bool 010105 -> 0101FF
ber i32 0206FFFFFFFF7F00 -> 0203FF7F00
ber u32 0206000033445566 -> 020433445566
ber octets 048102A1B2 -> 0402A1B2
ber octets 240F0401A124030401B224800401C30000 -> 0403A1B2C3
ber pair 30800201050101050000 -> 30060201050101FF
ber integer 0203000080 -> 02020080
ber gentime 180C323031383036313331322E35 -> 180F32303138303631333132333030305A
ber date 1F1F083230313231323231 -> 1F1F083230313231323231
ber null 058100 -> 0500
ber oid 06058FFFFFFF7F -> 06058FFFFFFF7F
ber bits 23800303000A3B0305045F291CD00000 -> 0307040A3B5F291CD0
ber colour 0A020002 -> 0A0102
ber utf8 2C0904034A6F6E04026573 -> 0C054A6F6E6573
ber ia5 16024180 -> refused PermittedAlphabetError
ber printable 130141 -> 130141
cer foo 30801605536D6974680101FF0000 -> 300A1605536D6974680101FF
der foo 300A1605536D6974680101FF -> 300A1605536D6974680101FF
der foo 30801605536D6974680101FF0000 -> refused IndefiniteLengthNotAllowed
der validity 3020170D3138303132323133323930305A180F32303530303130313030303030305A -> 3020170D3138303132323133323930305A180F32303530303130313030303030305A
";

/// Returns whether the result of the line is `answer`, and the line is reported as malformed
/// exactly if `answer` is `malformed`.
fn is_answered(alloc: Global, line: &str, answer: &str) -> bool {
    let mut output = Vec::new(alloc);
    match run_normalise(alloc, &mut line.as_bytes(), &mut output) {
        Ok(well_formed) => {
            output.strip_suffix(b"\n") == Some(answer.as_bytes())
                && well_formed == (answer != "malformed")
        }
        Err(_) => false,
    }
}

// Encodings under any of the three rules are normalised to that of DER (X.690 10, 11).
#[test]
fn lines_are_normalised(rt: HostRuntime) {
    for row in TABLE.lines() {
        match row.split_once(" -> ") {
            Some((line, answer)) => assert!(rt; is_answered(rt.alloc(), line, answer), "{row}"),
            None => assert!(rt; false, "{row}"),
        }
    }
}

#[test]
fn all_lines_are_normalised(rt: HostRuntime) {
    let mut input = b"ber bool 010101\n\nber u32 02020007\nber\n\xFF".as_slice();
    let mut output = Vec::new(rt.alloc());
    let answer = run_normalise(rt.alloc(), &mut input, &mut output);
    assert!(rt; answer == Err(RunFault::Read));
    assert!(rt; output.as_slice() == b"0101FF\n020107\nmalformed\n".as_slice());
}

/// Returns the error that octets follow the value under these rules.
fn more(length: usize, codec: Codec) -> NormaliseError {
    NormaliseError::Decode(DecodeError {
        codec,
        kind: DecodeErrorKind::UnexpectedExtraData { length },
    })
}

fn are_equal(one: NormaliseError, other: NormaliseError) -> bool {
    one == other
}

// Two errors are equal exactly if their kinds and rules are.
#[test]
fn causes_are_compared(rt: HostRuntime) {
    assert_facts(
        &rt,
        &[
            are_equal(more(1, Codec::Cer), more(1, Codec::Cer)),
            !are_equal(more(1, Codec::Cer), more(1, Codec::Der)),
            !are_equal(more(1, Codec::Cer), more(2, Codec::Cer)),
            !are_equal(more(1, Codec::Cer), NormaliseError::NotCanonical),
        ],
    );
}
