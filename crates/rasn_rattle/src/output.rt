//! The files that are written.
ghost use Rattle.std.specs.Prelude.{◌≡◌, true};
ghost use Rattle.std.specs.String.{string_bytes};
ghost use Rattle.rasn_rattle.specs.Words.{is_name, is_word};

/// A file of a crate, which is in its folder `src`.
#[derive(Drop)]
pub struct File {
    /// Its name without `.rt`, as `account`: small letters, digits and `_`.
    pub name: String,
    /// Its text.
    pub text: String,
    /// The proofs of its functions that the prover doesn't find by itself.
    pub answers: Vec<Answers>,
    /// Why its type is written as an open type, if it is and no option names it.
    pub reason: Option<&'static str>,
    pub ghost word: { is_word (string_bytes name) ≡ true },
}

/// Proofs of what a function promises, which are the file
/// `proofs/NAME/OWNER/FUNCTION/Answers.antt` of the crate, where `NAME` is that of the function's
/// file.
#[derive(Drop)]
pub struct Answers {
    /// The type and the trait that the function is of, as `AccountDecode`: letters, digits and `_`.
    pub owner: String,
    /// The name of the function, as `from_discriminant`: small letters, digits and `_`.
    pub function: &'static str,
    /// The text of the file.
    pub text: String,
    pub ghost name: { is_name (string_bytes owner) ≡ true },
    pub ghost word: { is_word function.now ≡ true },
}
