//! Readers of what lines are made of. A reader gives a value and what follows it in the text.
ghost use Rattle.std.specs.Prelude.{◌≡◌, ◌≢◌, ℕ, List, ◌++◌, ◌∷◌, IfSome, IfNone, IfOk, IfErr};
ghost use Rattle.lines.specs.Number.{IsSigned};
ghost use Rattle.flight.specs.Spelling.{signed_text};
ghost use Rattle.flight.specs.Reading.{Spells, SpellsOnly, IsUnread, Lacks};

use fault::Refusal;
use lines::number::read_signed as signed_of;

// What stands before the end of the line, and what after it.
fn split(text: &str) -> Option<(&str, &str)>
    ensures parts { IfSome result (λ p. text.now ≡ p.0.now ++ 10 ∷ p.1.now) }
    ensures only { IfSome result (λ p. (word other : List ℕ) → Lacks 10 word → text.now ≡ word ++ 10 ∷ other → (p.0.now ≡ word) × (p.1.now ≡ other)) }
    ensures none { IfNone result ((word other : List ℕ) → Lacks 10 word → text.now ≢ word ++ 10 ∷ other) }
{
    text.split_once('\n')
}

// A number that may be below zero, up to the end of its line.
pub(crate) fn read_signed(text: &str) -> Result<(i64, &str), Refusal>
    ensures ok { IfOk result (λ p. Spells IsSigned (signed_text 10) text.now p.0 p.1.now) }
    ensures only { IfOk result (λ p. SpellsOnly IsSigned (signed_text 10) text.now p.0 p.1.now) }
    ensures err { IfErr result (IsUnread IsSigned (signed_text 10) text.now) }
{
    let Some((word, rest)) = split(text) else {
        return Err(Refusal::BadFlight);
    };
    match signed_of(word) {
        Some(number) => Ok((number, rest)),
        None => Err(Refusal::BadFlight),
    }
}
