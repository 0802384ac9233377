//! What a text is refused with that spells nothing.

ghost use Rattle.std.specs.Prelude.{◌≡◌, length};
ghost use Rattle.sqltokens.specs.What.{pieces};
ghost use Rattle.namesyntax.specs.Parsing.{IsWithin, refusal_of};

use fault::Refusal;
use phrase::ReadError;
use sqltokens::{Token, place};

/// The refusal of tokens that spell nothing, in a text of `end` bytes: `NoMemory`, or `Syntax` with the byte at which
/// the wrong token begins, which is `end` where none is left.
pub fn refusal(error: ReadError, tokens: &[Token], end: usize) -> Refusal
    requires { IsWithin error (length tokens.now) }
    ensures { result ≡ refusal_of error (pieces tokens.now) end }
{
    match error {
        ReadError::Memory => Refusal::NoMemory,
        ReadError::Wrong(left) => Refusal::Syntax(place(tokens, tokens.len() - left, end)),
    }
}
