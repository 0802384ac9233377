//! What could stand where a text leaves the grammar.
use crate::names::nearest_of;
use crate::walk::{Found, Spot, Walk, joined, token_len};
use fault::Refusal;
use schemasyntax::read_schema_form;
use sqlread::token::tokens;
use sqlsyntax::{read_query_form, read_transaction_form};
use sqltokens::{Keyword, Kind, Token, has_shape};
use std::alloc::{AllocError, Global};

/// What a text is read as.
#[derive(Clone, Copy)]
pub(crate) enum Grammar {
    Transaction,
    Query,
    Schema,
}

fn refusal_of<T: Drop>(read: Result<T, Refusal>) -> Option<Refusal> {
    match read {
        Ok(_) => None,
        Err(refusal) => Some(refusal),
    }
}

// The byte at which a text leaves the grammar; none where it is in it.
fn leaves_at(alloc: Global, grammar: Grammar, text: &str) -> Result<Option<usize>, AllocError> {
    let refusal = match grammar {
        Grammar::Transaction => refusal_of(read_transaction_form(alloc, text)),
        Grammar::Query => refusal_of(read_query_form(alloc, text)),
        Grammar::Schema => refusal_of(read_schema_form(alloc, text)),
    };
    match refusal {
        None => Ok(None),
        Some(Refusal::Syntax(at)) => Ok(Some(at)),
        Some(_) => Err(AllocError),
    }
}

const A_NAME: &str = "a name";

const DIGITS: &str = "digits";

const A_TEXT: &str = "a text between quotes";

const A_DAY: &str = "a day as '2026-01-31'";

const AN_INSTANT: &str = "an instant as '2026-01-31 00:00:00.000000'";

// What can stand in a text, and how that is told.
const TOKENS: [(&str, &str); 59] = [
    ("ALWAYS", "ALWAYS"),
    ("AND", "AND"),
    ("AS", "AS"),
    ("BETWEEN", "BETWEEN"),
    ("CONTAINS", "CONTAINS"),
    ("CREATE", "CREATE"),
    ("DATE", "DATE"),
    ("DELETE", "DELETE"),
    ("END", "END"),
    ("EQUALS", "EQUALS"),
    ("FOR", "FOR"),
    ("FOREIGN", "FOREIGN"),
    ("FROM", "FROM"),
    ("GENERATED", "GENERATED"),
    ("IMMEDIATELY", "IMMEDIATELY"),
    ("INSERT", "INSERT"),
    ("INTEGER", "INTEGER"),
    ("INTO", "INTO"),
    ("KEY", "KEY"),
    ("OF", "OF"),
    ("OVERLAPS", "OVERLAPS"),
    ("PERIOD", "PERIOD"),
    ("PORTION", "PORTION"),
    ("PRECEDES", "PRECEDES"),
    ("PRIMARY", "PRIMARY"),
    ("REFERENCES", "REFERENCES"),
    ("ROW", "ROW"),
    ("SELECT", "SELECT"),
    ("SET", "SET"),
    ("START", "START"),
    ("SUCCEEDS", "SUCCEEDS"),
    ("SYSTEM", "SYSTEM"),
    ("SYSTEM_TIME", "SYSTEM_TIME"),
    ("TABLE", "TABLE"),
    ("TIMESTAMP", "TIMESTAMP"),
    ("TO", "TO"),
    ("UPDATE", "UPDATE"),
    ("VALUES", "VALUES"),
    ("VARCHAR", "VARCHAR"),
    ("VERSIONING", "VERSIONING"),
    ("WHERE", "WHERE"),
    ("WITH", "WITH"),
    ("WITHOUT", "WITHOUT"),
    ("(", "("),
    (")", ")"),
    (",", ","),
    (";", ";"),
    ("*", "*"),
    ("=", "="),
    ("<>", "<>"),
    ("<", "<"),
    ("<=", "<="),
    (">", ">"),
    (">=", ">="),
    ("+", "+"),
    ("-", "-"),
    ("a", A_NAME),
    ("1", DIGITS),
    ("'a'", A_TEXT),
];

// What is tried where none of these can stand.
const SHAPES: [(&str, &str); 3] = [
    ("'2026-01-31'", A_DAY),
    ("'2026-01-31 00:00:00.000000'", AN_INSTANT),
    ("6", "6"),
];

// Whether a token can stand behind the beginning of a text.
fn can_stand(
    alloc: Global,
    grammar: Grammar,
    before: &str,
    token: &str,
) -> Result<bool, AllocError> {
    let text = joined(alloc, &[before, " ", token, " "])?;
    let left = leaves_at(alloc, grammar, text.as_str())?;
    Ok(match left {
        Some(at) => at > before.len().saturating_add(1),
        None => true,
    })
}

// Which of these tokens can stand behind the beginning of a text.
fn standing_of(
    alloc: Global,
    grammar: Grammar,
    before: &str,
    tokens: &[(&str, &'static str)],
) -> Result<Vec<&'static str>, AllocError> {
    let mut standing = Vec::new(alloc);
    for (token, told) in tokens {
        if can_stand(alloc, grammar, before, *token)? {
            standing.push(*told)?;
        }
    }
    Ok(standing)
}

// What can stand behind the beginning of a text.
fn standing(
    alloc: Global,
    grammar: Grammar,
    before: &str,
) -> Result<Vec<&'static str>, AllocError> {
    let standing = standing_of(alloc, grammar, before, &TOKENS)?;
    if standing.is_empty() {
        return standing_of(alloc, grammar, before, &SHAPES);
    }
    Ok(standing)
}

fn has(words: &[&str], word: &str) -> bool {
    for one in words {
        if *one == word {
            return true;
        }
    }
    false
}

// Adds the words with commas between them, and `or` before the last.
fn put_words(words: &[&str], hint: &mut String) -> Result<(), AllocError> {
    for (at, word) in words.iter().enumerate() {
        if at > 0 {
            let is_last = at.saturating_add(1) == words.len();
            hint.push_str(if is_last { " or " } else { ", " })?;
        }
        hint.push_str(*word)?;
    }
    Ok(())
}

// What could stand at the end of a text, where few things could.
fn hint_at_end(alloc: Global, words: &[&str]) -> Result<String, AllocError> {
    let mut hint = String::from_str(alloc, "the text ends here")?;
    if words.len() <= 3 {
        hint.push_str("; ")?;
        put_words(words, &mut hint)?;
        hint.push_str(" could follow")?;
    }
    hint.push_str(".")?;
    Ok(hint)
}

// The instant to the microsecond that a text to the second means.
fn hint_of_instant(alloc: Global, text: &str) -> Result<String, AllocError> {
    let second = if has_shape(b"dddd-dd-dd dd:dd:dd", text.as_bytes()) {
        text
    } else {
        "2026-01-31 00:00:00"
    };
    joined(
        alloc,
        &[
            "an instant is written to the microsecond: '",
            second,
            ".000000'.",
        ],
    )
}

// What could stand in place of a token, where few things could.
fn hint_of_few(alloc: Global, words: &[&str]) -> Result<String, AllocError> {
    match words {
        [one] => hint_of_one(alloc, *one),
        [_, _] | [_, _, _] => hint_of_some(alloc, words),
        _ if has(words, A_TEXT) && has(words, DIGITS) => String::from_str(
            alloc,
            "a value could stand here: digits, a text between quotes or DATE '2026-01-31'.",
        ),
        _ => Ok(String::new(alloc)),
    }
}

fn hint_of_one(alloc: Global, word: &str) -> Result<String, AllocError> {
    if word == "*" {
        return String::from_str(
            alloc,
            "after SELECT only * can follow: an answer has all columns.",
        );
    }
    joined(alloc, &["only ", word, " can stand here."])
}

fn hint_of_some(alloc: Global, words: &[&str]) -> Result<String, AllocError> {
    let mut hint = String::new(alloc);
    put_words(words, &mut hint)?;
    hint.push_str(" could stand here.")?;
    Ok(hint)
}

// What is said of a byte that begins no token.
fn hint_of_stray(alloc: Global, byte: u8) -> Result<String, AllocError> {
    let told = match byte {
        b'\'' => "this quote is not closed, or what it holds is not printable ASCII.",
        0..=127 => "no text has this sign but between quotes.",
        _ => "texts have ASCII alone.",
    };
    String::from_str(alloc, told)
}

// What is said of a word that can't stand where it does.
fn hint_of_word(alloc: Global, word: &str, words: &[&str]) -> Result<String, AllocError> {
    match nearest_of(alloc, word, words)?.name {
        Some(near) => joined(
            alloc,
            &[word, " can't stand here. Did you mean ", near, "?"],
        ),
        None => hint_of_few(alloc, words),
    }
}

// What is said of a token of a text that can't stand where it does, where these could.
fn hint_of_token(
    alloc: Global,
    kind: Kind,
    written: &str,
    words: &[&str],
) -> Result<String, AllocError> {
    match kind {
        Kind::Stray => hint_of_stray(alloc, written.as_bytes().first().copied().unwrap_or(0)),
        Kind::Text(text) if has(words, AN_INSTANT) => hint_of_instant(alloc, text.source),
        Kind::Keyword(_) if has(words, A_NAME) => {
            joined(alloc, &[written, " is a reserved word, and no name."])
        }
        Kind::Name(_) => hint_of_word(alloc, written, words),
        _ => hint_of_few(alloc, words),
    }
}

/// What is wrong at this byte, at which a text leaves its grammar.
pub(crate) fn found_at(
    alloc: Global,
    grammar: Grammar,
    text: &str,
    at: usize,
) -> Result<Found, AllocError> {
    let before = text.get(..at).unwrap_or("");
    let words = standing(alloc, grammar, before)?;
    let tokens = tokens(alloc, text)?;
    let (len, hint) = match Walk::new(&tokens, text.len()).token_at(at) {
        Some(token) => {
            let len = token_len(token.kind);
            let written = text.get(at..at.saturating_add(len)).unwrap_or("");
            (len, hint_of_token(alloc, token.kind, written, &words)?)
        }
        None => (0, hint_at_end(alloc, &words)?),
    };
    Ok(Found {
        spot: Spot { at, len },
        refusal: Refusal::Syntax(at),
        hint,
    })
}
