//! A text cut into tokens.

ghost use Rattle.std.specs.Prelude.{◌≡◌, ◌∷◌, ℕ, ◌+◌, ◌<◌, ◌≤◌, List, Bool, true, false, length, map, slice_index, take, drop, IsTrue, IfSome, IfNone, IfOk};
ghost use Rattle.std.specs.Char.{is_ascii_digit};
ghost use Rattle.std.specs.Str.{IsAscii, str_eq_ignore_ascii_case};
ghost use Rattle.std.specs.List.{list_all};
ghost use Rattle.sqltokens.specs.What.{what_of, pieces, Symbol};
ghost use Rattle.sqltokens.specs.Lexing.{is_blank, is_word_byte, is_printable, keyword_in, keyword_of, word_what, sign_of, one_sign, two_sign, longest_text, IsLongest, BeginsNone, IsTokens, IsOther};

use crate::token::{Digits, KEYWORDS, Keyword, Kind, Quoted, Sign, Token};
use std::alloc::{AllocError, Global};

// How many tokens there is room for at once: as many as most texts have, in less than a kilobyte, which an allocator hands out fast.
const FEW: usize = 31;

fn is_blank(b: u8) -> bool
    ensures { result ≡ is_blank b }
{
    b == b' ' || b == b'\t' || b == b'\n' || b == b'\r'
}

fn is_word_byte(b: u8) -> bool
    ensures { result ≡ is_word_byte b }
{
    b.is_ascii_alphanumeric() || b == b'_'
}

fn is_printable(b: u8) -> bool
    ensures { result ≡ is_printable b }
{
    b >= b' ' && b <= b'~'
}

fn same_word(a: &[u8], b: &[u8]) -> bool
    ensures { result ≡ str_eq_ignore_ascii_case a.now b.now }
{
    a.eq_ignore_ascii_case(b)
}

fn keyword_in(mut table: &[(&[u8], Keyword)], word: &[u8]) -> Option<Keyword>
    ensures { result ≡ keyword_in (map (λ k. (k.0.now, k.1)) table.entry.now) word.now }
{
    while let [entry, rest @ ..] = table {
        if same_word(entry.0, word) {
            return Some(entry.1);
        }
        table = rest;
    }
    None
}

// The reserved words that begin with this letter, in either case; all of them where it is no letter.
fn keywords_with(first: u8) -> &'static [(&'static [u8], Keyword)]
    ensures { (rest : List ℕ) → keyword_in (map (λ k. (k.0.now, k.1)) result.now) (first ∷ rest) ≡ keyword_of (first ∷ rest) }
{
    match first.to_ascii_lowercase() {
        b'a' => &KEYWORDS[0..3],
        b'b' => &KEYWORDS[3..4],
        b'c' => &KEYWORDS[4..6],
        b'd' => &KEYWORDS[6..8],
        b'e' => &KEYWORDS[8..10],
        b'f' => &KEYWORDS[10..13],
        b'g' => &KEYWORDS[13..14],
        b'h' => &[],
        b'i' => &KEYWORDS[14..18],
        b'j' => &[],
        b'k' => &KEYWORDS[18..19],
        b'l' => &[],
        b'm' => &[],
        b'n' => &[],
        b'o' => &KEYWORDS[19..21],
        b'p' => &KEYWORDS[21..25],
        b'q' => &[],
        b'r' => &KEYWORDS[25..27],
        b's' => &KEYWORDS[27..33],
        b't' => &KEYWORDS[33..36],
        b'u' => &KEYWORDS[36..37],
        b'v' => &KEYWORDS[37..40],
        b'w' => &KEYWORDS[40..43],
        b'x' => &[],
        b'y' => &[],
        b'z' => &[],
        _ => &KEYWORDS,
    }
}

// The reserved word that this is, if it is one.
#[tactic(auto, unfolding(crate::specs::Lexing::keyword_of))]
fn keyword_of(word: &[u8]) -> Option<Keyword>
    ensures { result ≡ keyword_of word.now }
{
    match word {
        [first, ..] => keyword_in(keywords_with(*first), word),
        [] => None,
    }
}

/// A reserved word, or else a name.
fn word_kind(word: &[u8]) -> Kind<'_>
    ensures { what_of result ≡ word_what word.now }
{
    match keyword_of(word) {
        Some(keyword) => Kind::Keyword(keyword),
        None => Kind::Name(word),
    }
}

/// How many bytes the word at the front has, of the 32 that it may have.
fn word_len(bytes: &[u8]) -> usize
    requires { 0 < length bytes.now }
    ensures within { (1 ≤ result) × (result ≤ length bytes.now) × (result ≤ 32) }
    ensures each { (k : ℕ) → 1 ≤ k → k < result → is_word_byte (slice_index bytes.now k) ≡ true }
    ensures ends { result < 32 → result < length bytes.now → is_word_byte (slice_index bytes.now result) ≡ false }
{
    let mut n = 1;
    while n < 32 && n < bytes.len() && is_word_byte(bytes[n]) {
        n += 1;
    }
    n
}

/// How many digits stand at the front, where the first byte is one.
fn digits_len(bytes: &[u8]) -> usize
    requires { 0 < length bytes.now }
    ensures within { (1 ≤ result) × (result ≤ length bytes.now) }
    ensures each { (k : ℕ) → 1 ≤ k → k < result → is_ascii_digit (slice_index bytes.now k) ≡ true }
    ensures ends { result < length bytes.now → is_ascii_digit (slice_index bytes.now result) ≡ false }
{
    let mut n = 1;
    while n < bytes.len() && bytes[n].is_ascii_digit() {
        n += 1;
    }
    n
}

/// How many of the bytes behind a quote end the longest text that it begins, 0 where it begins none.
fn text_len(bytes: &[u8]) -> usize
    ensures value { result ≡ longest_text bytes.now }
    ensures within { result ≤ length bytes.now }
{
    let mut best = 0;
    let mut at = 0;
    while at < bytes.len() {
        if bytes[at] == b'\'' {
            best = at + 1;
            if best == bytes.len() || bytes[best] != b'\'' {
                break;
            }
            at += 2;
        } else if is_printable(bytes[at]) {
            at += 1;
        } else {
            break;
        }
    }
    best
}

#[tactic(auto, unfolding(crate::specs::Lexing::one_sign))]
fn one_sign(b: u8) -> Option<Sign>
    ensures { result ≡ one_sign b }
{
    match b {
        b'(' => Some(Sign::Open),
        b')' => Some(Sign::Close),
        b',' => Some(Sign::Comma),
        b';' => Some(Sign::Semicolon),
        b'*' => Some(Sign::Star),
        b'=' => Some(Sign::Equal),
        b'<' => Some(Sign::Less),
        b'>' => Some(Sign::Greater),
        b'+' => Some(Sign::Plus),
        b'-' => Some(Sign::Minus),
        _ => None,
    }
}

#[tactic(auto, unfolding(crate::specs::Lexing::two_sign))]
fn two_sign(b: u8, c: u8) -> Option<Sign>
    ensures { result ≡ two_sign b c }
{
    if b == b'<' && c == b'>' {
        Some(Sign::NotEqual)
    } else if b == b'<' && c == b'=' {
        Some(Sign::LessEqual)
    } else if b == b'>' && c == b'=' {
        Some(Sign::GreaterEqual)
    } else {
        None
    }
}

/// The sign at the front of bytes that begin no word, no digits and no text.
fn sign_at(bytes: &[u8]) -> Option<(Sign, usize)>
    requires some { 0 < length bytes.now }
    requires other { IsOther (slice_index bytes.now 0) }
    ensures found { IfSome result (λ x. (x.1 ≤ length bytes.now) × (0 < x.1) × IsLongest bytes.now x.1 (Symbol x.0)) }
    ensures none { IfNone result (BeginsNone bytes.now) }
{
    if bytes.len() > 1 {
        if let Some(sign) = two_sign(bytes[0], bytes[1]) {
            return Some((sign, 2));
        }
    }
    match one_sign(bytes[0]) {
        Some(sign) => Some((sign, 1)),
        None => None,
    }
}

/// Digits as a text.
fn digits(bytes: &[u8]) -> Digits<'_>
    requires some { 0 < length bytes.now }
    requires all_digits { list_all is_ascii_digit bytes.now ≡ true }
    ensures { result.digits.now ≡ bytes.now }
{
    Digits {
        digits: ascii(bytes),
    }
}

/// What stands between quotes, as a text.
fn quoted(bytes: &[u8]) -> Quoted<'_>
    requires { IsAscii bytes.now }
    ensures { result.source.now ≡ bytes.now }
{
    Quoted {
        source: ascii(bytes),
    }
}

/// ASCII as a text.
fn ascii(bytes: &[u8]) -> &str
    requires { IsAscii bytes.now }
    ensures { result.now ≡ bytes.now }
{
    str::from_utf8(bytes).unwrap()
}

/// The longest token at the front, and how many bytes it has.
fn token_at(bytes: &[u8]) -> Option<(Kind<'_>, usize)>
    requires { 0 < length bytes.now }
    ensures found { IfSome result (λ x. (x.1 ≤ length bytes.now) × (0 < x.1) × IsLongest bytes.now x.1 (what_of x.0)) }
    ensures none { IfNone result (BeginsNone bytes.now) }
{
    let first = bytes[0];
    if first.is_ascii_alphabetic() {
        let n = word_len(bytes);
        Some((word_kind(&bytes[..n]), n))
    } else if first.is_ascii_digit() {
        let n = digits_len(bytes);
        Some((Kind::Digits(digits(&bytes[..n])), n))
    } else if first == b'\'' {
        let n = text_len(&bytes[1..]);
        if n == 0 {
            None
        } else {
            Some((Kind::Text(quoted(&bytes[1..n])), n + 1))
        }
    } else {
        let (sign, n) = sign_at(bytes)?;
        Some((Kind::Sign(sign), n))
    }
}

/// The tokens of a text, each the longest that begins where it does. A byte that begins none is the
/// last, as `Kind::Stray`.
pub fn tokens(alloc: Global, text: &[u8]) -> Result<Vec<Token<'_>>, AllocError>
    ensures { IfOk result (λ v. IsTokens text.now 0 (pieces v.items)) }
{
    let mut found = Vec::with_capacity(alloc, FEW)?;
    let mut at = 0;
    while at < text.len() {
        if is_blank(text[at]) {
            at += 1;
        } else if let Some((kind, n)) = token_at(&text[at..]) {
            found.push(Token { kind, at })?;
            at += n;
        } else {
            found.push(Token {
                kind: Kind::Stray,
                at,
            })?;
            return Ok(found);
        }
    }
    Ok(found)
}
