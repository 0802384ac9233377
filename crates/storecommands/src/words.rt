//! Words of lines.
ghost use Rattle.std.specs.Prelude.{◌≡◌, ◌≢◌, ◌++◌, ◌∷◌, ◌<◌, ◌^◌, ℕ, List, decimal, IfSome, IfNone};
ghost use Rattle.lines.specs.Reading.{HasNoSpace};

use lines::number::read_number;
use model::member::Member;

/// What follows a word at the beginning of a text.
pub(crate) fn after<'a>(text: &'a str, word: &str) -> Option<&'a str>
    ensures some { IfSome result (λ rest. text.entry.now ≡ word.now ++ rest.now) }
    ensures none { IfNone result ((rest : List ℕ) → text.entry.now ≢ word.now ++ rest) }
{
    text.strip_prefix(word)
}

/// A first word, and what follows the space after it.
pub(crate) fn split_word(text: &str) -> Option<(&str, &str)>
    ensures parts { IfSome result (λ p. text.now ≡ p.0.now ++ 32 ∷ p.1.now) }
    ensures first { IfSome result (λ p. HasNoSpace p.0.now) }
    ensures none { IfNone result (HasNoSpace text.now) }
{
    text.split_once(' ')
}

/// The member that a word names.
pub(crate) fn read_member(word: &str) -> Option<Member>
    ensures range { IfSome result (λ n. n < 2 ^ 64) }
    ensures text { IfSome result (λ n. word.now ≡ decimal n) }
    ensures none { IfNone result ((n : ℕ) → n < 2 ^ 64 → word.now ≢ decimal n) }
{
    match read_number(word) {
        Some(number) => Some(number as usize),
        None => None,
    }
}
