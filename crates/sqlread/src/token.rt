//! The tokens of a text.
ghost use Rattle.std.specs.Prelude.{IfOk};
ghost use Rattle.sqltokens.specs.What.{pieces};
ghost use Rattle.sqltokens.specs.Lexing.{IsTokens};

pub use sqltokens::{Digits, Keyword, Kind, Quoted, Sign, Token};
use std::alloc::{AllocError, Global};

/// The tokens of a text, each the longest that begins where it does. A byte that begins none is the last, as
/// `Kind::Stray`. Refused for want of memory alone.
pub fn tokens(alloc: Global, text: &str) -> Result<Vec<Token<'_>>, AllocError>
    ensures { IfOk result (λ v. IsTokens text.now 0 (pieces v.items)) }
{
    sqltokens::tokens(alloc, text.as_bytes())
}
