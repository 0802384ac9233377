//! Where tokens stand in a text.

ghost use Rattle.std.specs.Prelude.{◌≡◌};
ghost use Rattle.sqltokens.specs.What.{pieces};
ghost use Rattle.sqltokens.specs.Syntax.{place};

use crate::token::Token;

/// Where the token with this number begins, or the end of the text.
pub fn place(tokens: &[Token], number: usize, end: usize) -> usize
    ensures { result ≡ place (pieces tokens.now) number end }
{
    match tokens.get(number) {
        Some(token) => token.at,
        None => end,
    }
}
