//! Texts that are whole: requests and questions.
ghost use Rattle.std.specs.Prelude.{◌≡◌, ◌↔◌, ◌<◌, ◌++◌, ℕ, List, IsTrue, IfSome, IfNone, codes, length, map};
ghost use Rattle.std.specs.Char.{to_ascii_lowercase};
ghost use Rattle.storecommands.specs.Text.{EndsName, IsNamePart, IsQuestion, IsReadAs, NamesMember};
ghost use Rattle.storecommands.specs.declared.text.Kind.{Kind as What};

use crate::words::{after, read_member, split_word};
use model::member::Member;

/// What a text is.
#[derive(Clone, Copy, PartialEq, Eq, Debug)]
pub enum Kind {
    /// A request in the store's own name.
    Own,
    /// A question, at a member if one is named.
    Question(Option<Member>),
}

// Whether a name goes on with this byte.
fn is_name_part(byte: u8) -> bool
    ensures { IsTrue result ↔ IsNamePart byte }
{
    matches!(byte, b'a'..=b'z' | b'A'..=b'Z' | b'0'..=b'9' | b'_')
}

// The first six bytes of a text, and those after them.
fn first_six(text: &str) -> Option<(&[u8], &[u8])>
    ensures some { IfSome result (λ p. (text.now ≡ p.0.now ++ p.1.now) × (length p.0.now ≡ 6)) }
    ensures none { IfNone result (length text.now < 6) }
{
    text.as_bytes().split_at_checked(6)
}

fn is_select(word: &[u8]) -> bool
    ensures { IsTrue result ↔ (map to_ascii_lowercase word.now ≡ codes "select") }
{
    word.eq_ignore_ascii_case(b"select")
}

// Whether no name goes on here.
fn ends_name(rest: &[u8]) -> bool
    ensures { IsTrue result ↔ EndsName rest.now }
{
    match rest {
        [] => true,
        [byte, ..] => !is_name_part(*byte),
    }
}

/// Whether a text begins with the word SELECT, in capital or small letters.
pub fn is_question(text: &str) -> bool
    ensures yes { IsTrue result → IsQuestion text.now }
    ensures no { IsQuestion text.now → IsTrue result }
{
    match first_six(text) {
        Some((word, rest)) => is_select(word) && ends_name(rest),
        None => false,
    }
}

// What a text is that names no member.
fn read_own(text: &str) -> (Kind, &str)
    requires { ¬ NamesMember text.now }
    ensures { IsReadAs text.now result.0 result.1.now }
{
    if is_question(text) {
        (Kind::Question(None), text)
    } else {
        (Kind::Own, text)
    }
}

/// What a text is, and its words: those of a question at a member follow `@`, the member's number and a space. None where a text
/// begins with `@` and is no such question.
pub fn read_kind(text: &str) -> Option<(Kind, &str)>
    ensures some { IfSome result (λ p. IsReadAs text.now p.0 p.1.now) }
    ensures none { IfNone result ((kind : What) (words : List ℕ) → ¬ IsReadAs text.now kind words) }
{
    let Some(rest) = after(text, "@") else {
        return Some(read_own(text));
    };
    let (member, words) = split_word(rest)?;
    let member = read_member(member)?;
    if is_question(words) {
        Some((Kind::Question(Some(member)), words))
    } else {
        None
    }
}
