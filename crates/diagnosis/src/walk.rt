//! Places in a text, found by its tokens.
use fault::Refusal;
use sqltokens::{KEYWORDS, Keyword, Kind, Sign, Token};
use std::alloc::{AllocError, AllocFailed, Global};

/// Bytes of a text that stand together.
#[derive(Clone, Copy)]
pub(crate) struct Spot {
    /// The first of them, counted from 0.
    pub at: usize,
    pub len: usize,
}

impl Spot {
    /// All bytes from the first of this spot to the last of another.
    pub fn to(self, other: Spot) -> Spot {
        let at = self.at.min(other.at);
        let end = self.end().max(other.end());
        Spot {
            at,
            len: end.saturating_sub(at),
        }
    }

    /// Where the bytes behind it begin.
    pub fn end(self) -> usize {
        self.at.saturating_add(self.len)
    }
}

/// What is wrong in a text, where, and what could be done.
#[derive(Drop)]
pub(crate) struct Found {
    pub spot: Spot,
    pub refusal: Refusal,
    /// Lines without an LF at the end of the last; empty where nothing is known.
    pub hint: String,
}

/// What ends a look into a text.
#[derive(Drop)]
pub(crate) enum Stop {
    NoMemory,
    Found(Found),
}

impl From<AllocError> for Stop {
    fn from(_error: AllocError) -> Stop {
        Stop::NoMemory
    }
}

impl<T: Drop> From<AllocFailed<T>> for Stop {
    fn from(_error: AllocFailed<T>) -> Stop {
        Stop::NoMemory
    }
}

/// What was found, where something was.
pub(crate) fn found_by(looked: Result<(), Stop>) -> Result<Option<Found>, AllocError> {
    match looked {
        Ok(()) => Ok(None),
        Err(Stop::NoMemory) => Err(AllocError),
        Err(Stop::Found(found)) => Ok(Some(found)),
    }
}

/// That this is wrong there, with what could be done.
pub(crate) fn wrong(spot: Spot, refusal: Refusal, hint: Result<String, AllocError>) -> Stop {
    match hint {
        Ok(hint) => Stop::Found(Found {
            spot,
            refusal,
            hint,
        }),
        Err(AllocError) => Stop::NoMemory,
    }
}

/// Pieces of a text, one behind the other.
pub(crate) fn joined(alloc: Global, pieces: &[&str]) -> Result<String, AllocError> {
    pieces.concat(alloc)
}

/// That this is wrong there, with what could be done in pieces.
pub(crate) fn wrong_as(alloc: Global, spot: Spot, refusal: Refusal, pieces: &[&str]) -> Stop {
    wrong(spot, refusal, joined(alloc, pieces))
}

/// The tokens of a text, and which of them is next.
#[derive(Clone, Copy)]
pub(crate) struct Walk<'t, 'a> {
    tokens: &'t [Token<'a>],
    next: usize,
    end: usize,
}

impl<'t, 'a> Walk<'t, 'a> {
    /// Before the first of the tokens of a text of so many bytes.
    pub fn new(tokens: &'t [Token<'a>], end: usize) -> Walk<'t, 'a> {
        Walk {
            tokens,
            next: 0,
            end,
        }
    }

    /// Passes so many tokens.
    pub fn pass(&mut self, count: usize) {
        self.next = self.next.saturating_add(count);
    }

    // Where the token at this place ends; where there is none, as many bytes as the text has.
    fn end_of(self, place: usize) -> usize {
        match self.tokens.get(place) {
            Some(token) => token.at.saturating_add(token_len(token.kind)),
            None => self.end,
        }
    }

    /// The bytes of the next tokens, of so many of them; where none is left, the end of the text.
    pub fn spot(self, count: usize) -> Spot {
        let at = match self.tokens.get(self.next) {
            Some(token) => token.at,
            None => self.end,
        };
        let last = self.next.saturating_add(count).saturating_sub(1);
        Spot {
            at,
            len: self.end_of(last).saturating_sub(at),
        }
    }

    /// The token that begins at this byte.
    pub fn token_at(self, at: usize) -> Option<Token<'a>> {
        for token in self.tokens {
            if token.at == at {
                return Some(*token);
            }
        }
        None
    }
}

fn keyword_len(keyword: Keyword) -> usize {
    for word in &KEYWORDS {
        if word.1 == keyword {
            return word.0.len();
        }
    }
    1
}

/// How many bytes a token has.
pub(crate) fn token_len(kind: Kind) -> usize {
    match kind {
        Kind::Keyword(keyword) => keyword_len(keyword),
        Kind::Sign(Sign::NotEqual | Sign::LessEqual | Sign::GreaterEqual) => 2,
        Kind::Sign(_) | Kind::Stray => 1,
        Kind::Name(bytes) => bytes.len(),
        Kind::Digits(digits) => digits.digits.len(),
        Kind::Text(quoted) => quoted.source.len().saturating_add(2),
    }
}
