//! Names of ASN.1 (X.680 12.2, 12.3) as names of Rattle.
ghost use Rattle.std.specs.Prelude.{◌≡◌, true, IfOk};
ghost use Rattle.std.specs.String.{string_bytes};
ghost use Rattle.rasn_rattle.specs.Words.{is_name, is_name_letter, is_word, is_word_letter};

use std::alloc::{AllocError, Global};

/// Words that no field or file may be called: those of Rattle and of its contracts, and names that
/// generated files use for themselves.
const RESERVED: &str =
    "as async await break const continue crate dyn else enum extern false fn for ghost if impl in \
    let loop match mod move mut pub ref return self static struct super trait true type unsafe \
    use where while abstract become box do final macro override priv try typeof unsized virtual \
    yield union data record deriving module package open unfoldable abbrev axiom unfold unfolding \
    ruleset mutual infix infixl infixr elim coe fcoe tcoe hcom com requires ensures lib main \
    decoder encoder tag rest unknown done now old new std core rasn tests open_sequence open_set";

/// Names that generated files use, which no type of their own may have.
const TAKEN: &str =
    "Self Type Option Some None Result Ok Err Vec String Box Debug PartialEq Eq Drop Clone Copy \
    AllocError Global This Other Parts Alternatives Written Addition DecodeAlternatives \
    DecodeParts DecodeSetParts DefaultValue Defaulted DefaultedChoice DefaultedExplicit \
    EncodeAlternative EncodeParts EncodeSetParts End ExplicitDefault Last LeastTag OneOf Optional \
    OptionalChoice Put PutAddition PutChoice PutDefault PutDefaultChoice PutDefaultExplicit \
    PutOptional PutOptionalChoice Required Alphabet Any ApplicationTag AsnType BitStr BitString \
    BmpString Bound Bounded Class Codec Constraints Constructed ContextTag Date Enumerated \
    Explicit Extensible Field FieldPresence Fields FirstTags FixedOctetString GeneralString \
    GeneralizedTime GraphicString Ia5String Identifier Implicit Integer IntegerType LawfulEq \
    NamedBits NumericString ObjectIdentifier OctetString Present PrintableString PrivateTag SetOf \
    Tag TeletexString TryClone Unknown UtcTime Utf8String VisibleString Decoder Decode \
    OpenSequence OpenSet DecodeChoice Error Encoder Encode DecodeError EncodeError";

/// Returns whether one of the words, which have spaces between them, is this one.
fn is_among(words: &str, word: &str) -> bool {
    words.split(' ').any(|known| known == word)
}

/// Returns a name in snake case, as `tbs_certificate` of `tbsCertificate`, with `_` in place of
/// what is no letter or digit. One that is reserved ends with `_value`.
#[tactic(auto, using(crate::proofs::WordLetters::word_append))]
pub(crate) fn snake(alloc: Global, name: &str) -> Result<String, AllocError>
    ensures { IfOk result (λ snake. is_word (string_bytes snake) ≡ true) }
{
    let mut text = words_of(alloc, name)?;
    if is_among(RESERVED, text.as_str()) {
        text.push_str("_value")?;
    }
    Ok(text)
}

/// Returns the name of a field in snake case. Unlike a file it may be called `data`.
pub(crate) fn field_name(alloc: Global, name: &str) -> Result<String, AllocError> {
    if name == "data" {
        return String::from_str(alloc, name);
    }
    snake(alloc, name)
}

/// Returns the words of a name in small letters, with `_` between them.
#[tactic(auto, using(crate::proofs::WordLetters::word_push))]
fn words_of(alloc: Global, name: &str) -> Result<String, AllocError>
    ensures { IfOk result (λ words. is_word (string_bytes words) ≡ true) }
{
    let letters = name.as_bytes();
    let mut text = String::new(alloc);
    for (index, letter) in letters.iter().enumerate() {
        if begins_word(letters, index) {
            text.push('_')?;
        }
        text.push(word_letter(*letter))?;
    }
    Ok(text)
}

/// Returns a letter or digit of a name in small letters, or `_` in place of anything else.
fn word_letter(letter: u8) -> char
    ensures { is_word_letter result ≡ true }
{
    if letter.is_ascii_alphanumeric() {
        char::from(letter.to_ascii_lowercase())
    } else {
        '_'
    }
}

/// Returns whether a word begins at this index, so that `_` is put before its letter. A capital
/// begins one after a small letter or a digit; within capitals only before small letters other than
/// an `s` alone, as in `PDUs`, or the `v` of a version, which begins one, as in `SNMPv3Message`.
fn begins_word(letters: &[u8], index: usize) -> bool {
    let Some(before) = index.checked_sub(1) else {
        return false;
    };
    let letter = letter_at(letters, index);
    let (next, second) = after(letters, index);
    if is_capital_at(letters, before) {
        let is_version = letter == b'v' && next.is_ascii_digit();
        let is_plural = next == b's' && !second.is_ascii_lowercase();
        let is_first = letter.is_ascii_uppercase() && next.is_ascii_lowercase();
        let is_last = next == b'v' && second.is_ascii_digit();
        return is_version || is_first && !is_plural && !is_last;
    }
    letter.is_ascii_uppercase() && letter_at(letters, before).is_ascii_alphanumeric()
}

/// Returns whether the letter is a capital, or counts as one: a small letter before two capitals or
/// one alone begins a name's capitals, as in `cRLIssuer`.
fn is_capital_at(letters: &[u8], index: usize) -> bool {
    let (next, second) = after(letters, index);
    let begins_capitals = index == 0
        && next.is_ascii_uppercase()
        && (second == 0 || second.is_ascii_uppercase());
    letter_at(letters, index).is_ascii_uppercase() || begins_capitals
}

/// Returns the two letters after the one at this index.
fn after(letters: &[u8], index: usize) -> (u8, u8) {
    let next = index.saturating_add(1);
    (
        letter_at(letters, next),
        letter_at(letters, next.saturating_add(1)),
    )
}

/// Returns the letter at this index, or 0 after the last.
fn letter_at(letters: &[u8], index: usize) -> u8 {
    letters.get(index).copied().unwrap_or(0)
}

/// Returns the words of a name in snake case as one in camel case, as `TbsCertificate` of
/// `tbs_certificate`.
#[tactic(auto, using(crate::proofs::WordLetters::name_push))]
fn joined(alloc: Global, snake: &str) -> Result<String, AllocError>
    ensures { IfOk result (λ name. is_name (string_bytes name) ≡ true) }
{
    let mut text = String::new(alloc);
    let mut begins = true;
    for letter in snake.as_bytes() {
        let is_letter = *letter != b'_';
        if is_letter {
            text.push(name_letter(*letter, begins))?;
        }
        begins = !is_letter;
    }
    Ok(text)
}

/// Returns a letter or digit of a name, as a capital if a word begins with it, or `_` in place of
/// anything else.
fn name_letter(letter: u8, begins: bool) -> char
    ensures { is_name_letter result ≡ true }
{
    if !letter.is_ascii_alphanumeric() {
        return '_';
    }
    char::from(if begins {
        letter.to_ascii_uppercase()
    } else {
        letter
    })
}

/// Returns the name of a variant in camel case, as `NoSuchName` of `noSuchName`.
pub(crate) fn variant(alloc: Global, name: &str) -> Result<String, AllocError> {
    camel_except(alloc, name, "Self Type Some None")
}

/// Returns a name in camel case, as `LdapMessage` of `LDAPMessage`. One that generated files use
/// for something else ends with `Value`.
pub(crate) fn camel(alloc: Global, name: &str) -> Result<String, AllocError>
    ensures { IfOk result (λ name. is_name (string_bytes name) ≡ true) }
{
    camel_except(alloc, name, TAKEN)
}

/// Returns a name in camel case, which ends with `Value` if it would be one of the words.
#[tactic(auto, using(crate::proofs::WordLetters::name_append))]
fn camel_except(alloc: Global, name: &str, words: &str) -> Result<String, AllocError>
    ensures { IfOk result (λ name. is_name (string_bytes name) ≡ true) }
{
    let snake = snake(alloc, name)?;
    let mut text = joined(alloc, snake.as_str())?;
    if is_among(words, text.as_str()) {
        text.push_str("Value")?;
    }
    Ok(text)
}
