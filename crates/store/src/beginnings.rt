//! Logs that databases hold, and what was stored once.
ghost use Rattle.std.specs.Prelude.{◌≡◌, ℕ, List, None, IfSome};
ghost use Rattle.model.specs.declared.entry.Entry.{Entry as TheEntry};
ghost use Rattle.store.specs.HeldAt.{BeginsAt};

use crate::held::HeldLog;
use journal::Summary;
use model::entry::Entry;

// The first entries of the log that is held at this place, where they are what was stored.
fn beginning_at<'a>(held: &'a [Option<HeldLog>], at: usize, stored: &Summary) -> Option<&'a [Entry]>
    ensures some { IfSome result (λ first. BeginsAt held.now stored.now first.now at) }
    ensures none { result ≡ None → (first : List TheEntry) → BeginsAt held.now stored.now first at → ⊥ }
{
    if at >= held.len() {
        return None;
    }
    match &held[at] {
        Some(log) => log.beginning(stored),
        None => None,
    }
}

/// The log that was stored, as the beginning of one that is held, first of the one at this place; none where none begins so.
pub fn beginning_of<'a>(
    held: &'a [Option<HeldLog>],
    at: usize,
    stored: &Summary,
) -> Option<&'a [Entry]>
    ensures some { IfSome result (λ first. (i : ℕ) × BeginsAt held.now stored.now first.now i) }
    ensures none { result ≡ None → (i : ℕ) (first : List TheEntry) → BeginsAt held.now stored.now first i → ⊥ }
{
    if let Some(first) = beginning_at(held, at, stored) {
        return Some(first);
    }
    for other in 0..held.len() {
        if let Some(first) = beginning_at(held, other, stored) {
            return Some(first);
        }
    }
    None
}
