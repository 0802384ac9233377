//! Whether two messages or two lists of entries are the same.
ghost use Rattle.std.specs.Prelude.{◌≡◌, ◌↔◌, IsTrue};

use model::entry::Entry;
use model::message::{Body, Message};
use node::recall::is_same_entry;

pub(crate) fn are_same_entries(some: &[Entry], others: &[Entry]) -> bool
    ensures { IsTrue result ↔ (some.now ≡ others.now) }
{
    if some.len() != others.len() {
        return false;
    }
    for (place, entry) in some.iter().enumerate() {
        if !is_same_entry(entry, &others[place]) {
            return false;
        }
    }
    true
}

fn is_same_body(one: &Body, other: &Body) -> bool
    ensures { IsTrue result ↔ (one.now ≡ other.now) }
{
    match (one, other) {
        (
            Body::RequestVote {
                last_index,
                last_term,
            },
            Body::RequestVote {
                last_index: index,
                last_term: term,
            },
        ) => last_index == index && last_term == term,
        (
            Body::Vote { given, floor },
            Body::Vote {
                given: another,
                floor: other,
            },
        ) => given == another && floor == other,
        (
            Body::Append {
                prev_index,
                prev_term,
                entries,
                commit,
            },
            Body::Append {
                prev_index: index,
                prev_term: term,
                entries: others,
                commit: committed,
            },
        ) => {
            prev_index == index
                && prev_term == term
                && commit == committed
                && are_same_entries(entries.as_slice(), others.as_slice())
        }
        (
            Body::Reply { ok, matched },
            Body::Reply {
                ok: another,
                matched: other,
            },
        ) => { ok == another && matched == other }
        (
            Body::Seek { index, floor },
            Body::Seek {
                index: another,
                floor: other,
            },
        ) => { index == another && floor == other }
        (
            Body::Stored { index, floor },
            Body::Stored {
                index: another,
                floor: other,
            },
        ) => { index == another && floor == other }
        (
            Body::Seal { index, floor },
            Body::Seal {
                index: another,
                floor: other,
            },
        ) => { index == another && floor == other }
        _ => false,
    }
}

pub(crate) fn is_same_message(one: &Message, other: &Message) -> bool
    ensures { IsTrue result ↔ (one.now ≡ other.now) }
{
    one.sender == other.sender
        && one.addressee == other.addressee
        && one.term == other.term
        && is_same_body(&one.body, &other.body)
}
