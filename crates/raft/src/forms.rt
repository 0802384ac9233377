//! Whether what is stored may be that of a member, and whether texts read.
ghost use Rattle.std.specs.Prelude.{◌≡◌, ◌⊎◌, IfOk, true, false, None, nat_le};
ghost use Rattle.std.specs.List.{list_all};
ghost use Rattle.sqlread.specs.Meaning.{language_of};
ghost use Rattle.model.specs.Steps.{spells, TERM_LAST};
ghost use Rattle.keep.specs.Log.{is_vote};
ghost use Rattle.raft.specs.Start.{IsStart};

use keep::state::{State, TAIL_MOST};
use model::entry::{Entry, Request};
use model::member::Member;
use model::message::{LAST_TERM, LOG_ROOM};
use schema::Schema;
use sqlread::transaction::misreading;
use std::alloc::{AllocError, Global};

/// The request's text spells a transaction.
pub(crate) fn reads(
    alloc: Global,
    schema: &Schema,
    request: &Option<Request>,
) -> Result<bool, AllocError>
    ensures { IfOk result (λ yes. yes ≡ spells (language_of schema.now) request.now) }
{
    match request {
        None => Ok(true),
        Some(request) => {
            let refusal = misreading(alloc, schema, request.text.as_str())?;
            Ok(refusal.is_none())
        }
    }
}

/// None, or one of the members.
fn is_vote(members: usize, vote: Option<Member>) -> bool
    ensures { result ≡ is_vote members vote }
{
    match vote {
        None => true,
        Some(member) => 0 < member && member <= members,
    }
}

/// No term is above the last.
fn have_terms(entries: &[Entry]) -> bool
    ensures { result ≡ list_all (λ e. nat_le e.term TERM_LAST) entries.now }
{
    for entry in entries {
        if entry.term > LAST_TERM {
            return false;
        }
    }
    true
}

/// Whether a member of a group of so many may start with this state, as far as it tells: a term of at most `LAST_TERM`, a
/// vote for one of the members or none, at most 100,000 entries, the last 1,024 of them or all, whose terms are at most
/// `LAST_TERM`. It is so where what is stored forms a log.
pub fn is_start(members: usize, state: &State) -> bool
    ensures yes { result ≡ true → IsStart members state.now }
    ensures no { result ≡ false → IsStart members state.now → ⊥ }
{
    state.hard.term <= LAST_TERM
        && is_vote(members, state.hard.vote)
        && state.length <= LOG_ROOM
        && state.tail.len() == state.length.min(TAIL_MOST)
        && have_terms(&state.tail)
}
