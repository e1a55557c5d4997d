//! The arguments of the program.
ghost use Rattle.std.specs.Prelude.{IsTrue, ◌↔◌, ◌≡◌, Bool, map, MatchResult, ℕ, List, Option, string_bytes};
ghost use Rattle.rasn_bench.specs.Arguments.{option_word, IsCall, name_in};

use thiserror::Error;

/// The error of arguments that aren't well-formed. Its text says how the program is called.
#[derive(Clone, Copy, Debug, PartialEq, Eq, Drop, Error)]
#[error("usage: rasn-vectors [--normalise] [file]")]
pub struct Usage;

/// The option that asks for normal encodings.
const NORMALISE: &str = "--normalise";

/// Returns whether the word is the option.
fn is_option(word: &String) -> bool
    ensures { IsTrue result ↔ (string_bytes word.now ≡ option_word) }
{
    word.as_str() == NORMALISE
}

/// Returns whether the arguments after the program's name ask to normalise, and the file that they
/// name, or `None` for standard input.
///
/// # Errors
/// `Usage` if the arguments aren't well-formed.
pub fn file_of(arguments: &[String]) -> Result<(bool, Option<&str>), Usage>
    ensures { MatchResult result
        (λ call. IsCall (map string_bytes arguments.now) call.0 (name_in call.1))
        (λ _. (normalises : Bool) (file : Option (List ℕ)) → IsCall (map string_bytes arguments.now) normalises file → ⊥) }
{
    match arguments {
        [] => Ok((false, None)),
        [word] if is_option(word) => Ok((true, None)),
        [name] => Ok((false, Some(name.as_str()))),
        [word, name] if is_option(word) => Ok((true, Some(name.as_str()))),
        _ => Err(Usage),
    }
}
