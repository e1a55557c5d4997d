//! What takes the tokens of JSON.
ghost use Rattle.std.specs.Prelude.{◌≡◌, List, [], ◌∷◌, ◌++◌, OnOk};
ghost use Rattle.json.specs.Token.{Token as SpecToken};
ghost use Rattle.json.specs.Reads.{token_of};
ghost use Rattle.json.specs.Print.{IsPrintable};

use json::{Pretty, Token, Writer};
use std::alloc::AllocError;

/// A sink for the tokens of JSON.
pub trait Tokens {
    ghost written: { Self → List SpecToken };

    /// Appends a token.
    fn put(&mut self, token: Token<'_>) -> Result<(), AllocError>
        requires { IsPrintable (token_of token) }
        ensures { OnOk result (written self.new ≡ written self.old ++ token_of token.entry ∷ []) };
}

/// A writer of text without spaces, which held nothing at the start.
#[derive(Drop)]
pub struct Compact {
    pub out: Writer,
    pub ghost fresh: { out.before ≡ [] },
}

impl Tokens for Compact {
    ghost written = { λ w. w.out.tokens };

    fn put(&mut self, token: Token<'_>) -> Result<(), AllocError> {
        self.out.token(token)
    }
}

impl Tokens for Pretty {
    ghost written = { λ w. w };

    fn put(&mut self, token: Token<'_>) -> Result<(), AllocError> {
        self.token(token)
    }
}
