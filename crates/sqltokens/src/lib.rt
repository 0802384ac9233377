//! A text cut into tokens, and the tokens taken from the left.
#![tactic(auto)]

mod cursor;
mod lexing;
mod places;
mod token;

pub use cursor::{
    Cursor, date_text, digits, has_shape, next_is, next_is_sign, next_is_text, point_text, sign,
    text, word,
};
pub use lexing::tokens;
pub use places::place;
pub use token::{Digits, KEYWORDS, Keyword, Kind, Quoted, Sign, Token};
