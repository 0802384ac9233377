//! The statements of one save, inside its transaction.
ghost use Rattle.std.specs.Prelude.{◌≡◌, ◌+◌, ◌++◌, ◌<◌, ◌≤◌, ◌^◌, [], ◌∷◌, true, length, take, OnOk, IsTrue, nat_le};
ghost use Rattle.std.specs.List.{list_all};
ghost use Rattle.sqlite.specs.State.{HasCleanDisk, KeepsCommit, Survives};
ghost use Rattle.sqlite.specs.Held.{state};
ghost use Rattle.model.specs.Steps.{TERM_LAST};
ghost use Rattle.keep.specs.Log.{IsSmall};
ghost use Rattle.durable.specs.Contents.{Contents, item_of, items_of, changed, number_of_vote, client_of, number_of, body_of};
ghost use Rattle.durable.specs.Steps.{Goes, IsKnown, IsMeta, IsFloor};
ghost use Rattle.durable.specs.Rows.{Holds};
ghost use Rattle.durable.specs.Stored.{IsText, AreTexts};

use crate::whole::{Floor, Whole};
use keep::{Change, HardState};
use model::entry::{Entry, Request};
use model::member::Member;
use model::stamp::Stamp;
use sqlite::{Alter, Error, Transaction, params};

/// The number that stands for the client: 0 for a Close.
fn client_of(request: &Option<Request>) -> Whole
    ensures { result.value ≡ client_of request.now }
{
    match request {
        None => Whole { value: 0 },
        Some(request) => Whole {
            value: request.client.get() as u64,
        },
    }
}

/// The number of the request: 0 for a Close.
fn number_of(request: &Option<Request>) -> Whole
    ensures { result.value ≡ number_of request.now }
{
    match request {
        None => Whole { value: 0 },
        Some(request) => Whole {
            value: request.number.get(),
        },
    }
}

/// The text of the request: empty for a Close.
fn body_of(request: &Option<Request>) -> &str
    ensures text { result.now ≡ body_of request.now }
    ensures is_text { IsText request.now }
{
    match request {
        None => "",
        Some(request) => request.text.as_str(),
    }
}

/// The number that stands for the vote: 0 for none.
fn number_of_vote(vote: Option<Member>) -> u64
    ensures { result ≡ number_of_vote vote }
{
    match vote {
        None => 0,
        Some(member) => member as u64,
    }
}

/// Appends one entry, whose number comes next.
fn append_one<S: Alter>(tx: &mut Transaction<'_, S>, at: Whole, entry: &Entry) -> Result<(), Error>
    requires small { entry.now.term < 2 ^ 63 }
    requires next { HasCleanDisk (state S.Store tx.old.conn.now) → (d : Contents) × Holds (state S.Store tx.old.conn.now).now d × (at.value ≡ length d.log + 1) }
    ensures same_reference { tx.new.conn.ghost_name ≡ tx.old.conn.ghost_name }
    ensures ok { HasCleanDisk (state S.Store tx.new.conn.now) → OnOk result (Goes (state S.Store tx.old.conn.now) (state S.Store tx.new.conn.now) (λ d. record d { log = d.log ++ item_of entry.now ∷ [] })) }
    ensures texts { OnOk result (IsText entry.now.request) }
    ensures keeps { HasCleanDisk (state S.Store tx.new.conn.now) → KeepsCommit (state S.Store tx.old.conn.now) (state S.Store tx.new.conn.now) }
    ensures survives { Survives (state S.Store tx.old.conn.now) (state S.Store tx.new.conn.now) (λ _. ⊥) }
{
    let term = Whole { value: entry.term };
    let stamp = Whole {
        value: entry.stamp.micros(),
    };
    let client = client_of(&entry.request);
    let number = number_of(&entry.request);
    let body = body_of(&entry.request);
    tx.execute(
        "INSERT INTO log VALUES (?1, ?2, ?3, ?4, ?5, ?6)",
        params![at, term, stamp, client, number, body],
    )?;
    Ok(())
}

/// Sets the term and the vote.
fn set_meta<S: Alter>(tx: &mut Transaction<'_, S>, term: Whole, vote: Whole) -> Result<(), Error>
    ensures same_reference { tx.new.conn.ghost_name ≡ tx.old.conn.ghost_name }
    ensures ok { HasCleanDisk (state S.Store tx.new.conn.now) → OnOk result (Goes (state S.Store tx.old.conn.now) (state S.Store tx.new.conn.now) (λ d. record d { term = term.value; vote = vote.value })) }
    ensures keeps { HasCleanDisk (state S.Store tx.new.conn.now) → KeepsCommit (state S.Store tx.old.conn.now) (state S.Store tx.new.conn.now) }
    ensures survives { Survives (state S.Store tx.old.conn.now) (state S.Store tx.new.conn.now) (λ _. ⊥) }
{
    tx.execute("UPDATE meta SET term = ?1, vote = ?2", params![term, vote])?;
    Ok(())
}

/// Sets the floor.
fn set_floor<S: Alter>(tx: &mut Transaction<'_, S>, floor: Option<Stamp>) -> Result<(), Error>
    ensures same_reference { tx.new.conn.ghost_name ≡ tx.old.conn.ghost_name }
    ensures ok { HasCleanDisk (state S.Store tx.new.conn.now) → OnOk result (Goes (state S.Store tx.old.conn.now) (state S.Store tx.new.conn.now) (λ d. record d { floor = floor })) }
    ensures keeps { HasCleanDisk (state S.Store tx.new.conn.now) → KeepsCommit (state S.Store tx.old.conn.now) (state S.Store tx.new.conn.now) }
    ensures survives { Survives (state S.Store tx.old.conn.now) (state S.Store tx.new.conn.now) (λ _. ⊥) }
{
    let floor = Floor { value: floor };
    tx.execute("UPDATE floor SET t = ?1", params![floor])?;
    Ok(())
}

/// Keeps the first entries of the log.
fn cut_log<S: Alter>(tx: &mut Transaction<'_, S>, kept: Whole) -> Result<(), Error>
    ensures same_reference { tx.new.conn.ghost_name ≡ tx.old.conn.ghost_name }
    ensures ok { HasCleanDisk (state S.Store tx.new.conn.now) → OnOk result (Goes (state S.Store tx.old.conn.now) (state S.Store tx.new.conn.now) (λ d. record d { log = take kept.value d.log })) }
    ensures keeps { HasCleanDisk (state S.Store tx.new.conn.now) → KeepsCommit (state S.Store tx.old.conn.now) (state S.Store tx.new.conn.now) }
    ensures survives { Survives (state S.Store tx.old.conn.now) (state S.Store tx.new.conn.now) (λ _. ⊥) }
{
    tx.execute("DELETE FROM log WHERE idx > ?1", params![kept])?;
    Ok(())
}

/// Sets the term and the vote, unless they are known to be stored.
fn renew_meta<S: Alter>(
    tx: &mut Transaction<'_, S>,
    term: Whole,
    vote: Whole,
    known: &Option<HardState>,
) -> Result<(), Error>
    requires inside { HasCleanDisk (state S.Store tx.old.conn.now) → IsTrue (state S.Store tx.old.conn.now).is_open × IsTrue (state S.Store tx.old.conn.now).in_transaction }
    requires known { HasCleanDisk (state S.Store tx.old.conn.now) → (d : Contents) × Holds (state S.Store tx.old.conn.now).now d × IsMeta known.now d.term d.vote }
    ensures same_reference { tx.new.conn.ghost_name ≡ tx.old.conn.ghost_name }
    ensures ok { HasCleanDisk (state S.Store tx.new.conn.now) → OnOk result (Goes (state S.Store tx.old.conn.now) (state S.Store tx.new.conn.now) (λ d. record d { term = term.value; vote = vote.value })) }
    ensures keeps { HasCleanDisk (state S.Store tx.new.conn.now) → KeepsCommit (state S.Store tx.old.conn.now) (state S.Store tx.new.conn.now) }
    ensures survives { Survives (state S.Store tx.old.conn.now) (state S.Store tx.new.conn.now) (λ _. ⊥) }
{
    match known {
        Some(hard) if hard.term == term.value && number_of_vote(hard.vote) == vote.value => Ok(()),
        _ => set_meta(tx, term, vote),
    }
}

/// Sets the floor, unless it is known to be stored.
fn renew_floor<S: Alter>(
    tx: &mut Transaction<'_, S>,
    floor: Option<Stamp>,
    known: &Option<HardState>,
) -> Result<(), Error>
    requires inside { HasCleanDisk (state S.Store tx.old.conn.now) → IsTrue (state S.Store tx.old.conn.now).is_open × IsTrue (state S.Store tx.old.conn.now).in_transaction }
    requires known { HasCleanDisk (state S.Store tx.old.conn.now) → (d : Contents) × Holds (state S.Store tx.old.conn.now).now d × IsFloor known.now d.floor }
    ensures same_reference { tx.new.conn.ghost_name ≡ tx.old.conn.ghost_name }
    ensures ok { HasCleanDisk (state S.Store tx.new.conn.now) → OnOk result (Goes (state S.Store tx.old.conn.now) (state S.Store tx.new.conn.now) (λ d. record d { floor = floor })) }
    ensures keeps { HasCleanDisk (state S.Store tx.new.conn.now) → KeepsCommit (state S.Store tx.old.conn.now) (state S.Store tx.new.conn.now) }
    ensures survives { Survives (state S.Store tx.old.conn.now) (state S.Store tx.new.conn.now) (λ _. ⊥) }
{
    match known {
        Some(hard) if hard.floor == floor => Ok(()),
        _ => set_floor(tx, floor),
    }
}

/// Keeps the first entries of a log that has so many.
fn shorten_log<S: Alter>(
    tx: &mut Transaction<'_, S>,
    kept: Whole,
    count: usize,
) -> Result<(), Error>
    requires inside { HasCleanDisk (state S.Store tx.old.conn.now) → IsTrue (state S.Store tx.old.conn.now).is_open × IsTrue (state S.Store tx.old.conn.now).in_transaction }
    requires counted { HasCleanDisk (state S.Store tx.old.conn.now) → (d : Contents) × Holds (state S.Store tx.old.conn.now).now d × (count ≡ length d.log) }
    ensures same_reference { tx.new.conn.ghost_name ≡ tx.old.conn.ghost_name }
    ensures ok { HasCleanDisk (state S.Store tx.new.conn.now) → OnOk result (Goes (state S.Store tx.old.conn.now) (state S.Store tx.new.conn.now) (λ d. record d { log = take kept.value d.log })) }
    ensures keeps { HasCleanDisk (state S.Store tx.new.conn.now) → KeepsCommit (state S.Store tx.old.conn.now) (state S.Store tx.new.conn.now) }
    ensures survives { Survives (state S.Store tx.old.conn.now) (state S.Store tx.new.conn.now) (λ _. ⊥) }
{
    if count as u64 <= kept.value {
        return Ok(());
    }
    cut_log(tx, kept)
}

/// Appends entries, the first with this number.
fn append_all<S: Alter>(
    tx: &mut Transaction<'_, S>,
    from: Whole,
    entries: &[Entry],
) -> Result<(), Error>
    requires small { from.value + length entries.now < 2 ^ 63 }
    requires terms { list_all (λ e. nat_le e.term TERM_LAST) entries.now ≡ true }
    requires inside { HasCleanDisk (state S.Store tx.old.conn.now) → IsTrue (state S.Store tx.old.conn.now).is_open × IsTrue (state S.Store tx.old.conn.now).in_transaction }
    requires next { HasCleanDisk (state S.Store tx.old.conn.now) → (d : Contents) × Holds (state S.Store tx.old.conn.now).now d × (from.value ≡ length d.log + 1) }
    ensures same_reference { tx.new.conn.ghost_name ≡ tx.old.conn.ghost_name }
    ensures ok { HasCleanDisk (state S.Store tx.new.conn.now) → OnOk result (Goes (state S.Store tx.old.conn.now) (state S.Store tx.new.conn.now) (λ d. record d { log = d.log ++ items_of entries.now })) }
    ensures texts { OnOk result (AreTexts entries.now) }
    ensures keeps { HasCleanDisk (state S.Store tx.new.conn.now) → KeepsCommit (state S.Store tx.old.conn.now) (state S.Store tx.new.conn.now) }
    ensures survives { Survives (state S.Store tx.old.conn.now) (state S.Store tx.new.conn.now) (λ _. ⊥) }
{
    let mut at = from.value;
    'each: for entry in entries {
        append_one(tx, Whole { value: at }, entry)?;
        at += 1;
    }
    Ok(())
}

/// Makes a change of what the tables hold. It states only what changes where a hard state is known to be stored, and all
/// of the new one where none is; `count` is how many entries the log has.
pub(crate) fn write_change<S: Alter>(
    tx: &mut Transaction<'_, S>,
    change: &Change,
    known: &Option<HardState>,
    count: usize,
) -> Result<(), Error>
    requires small { IsSmall change.now }
    requires inside { HasCleanDisk (state S.Store tx.old.conn.now) → IsTrue (state S.Store tx.old.conn.now).is_open × IsTrue (state S.Store tx.old.conn.now).in_transaction }
    requires held { HasCleanDisk (state S.Store tx.old.conn.now) → (d : Contents) × Holds (state S.Store tx.old.conn.now).now d × (change.now.kept ≤ length d.log) }
    requires known { HasCleanDisk (state S.Store tx.old.conn.now) → (d : Contents) → Holds (state S.Store tx.old.conn.now).now d → IsKnown known.now count d }
    ensures same_reference { tx.new.conn.ghost_name ≡ tx.old.conn.ghost_name }
    ensures ok { HasCleanDisk (state S.Store tx.new.conn.now) → OnOk result (Goes (state S.Store tx.old.conn.now) (state S.Store tx.new.conn.now) (changed change.now)) }
    ensures texts { OnOk result (AreTexts change.now.entries.items) }
    ensures keeps { HasCleanDisk (state S.Store tx.new.conn.now) → KeepsCommit (state S.Store tx.old.conn.now) (state S.Store tx.new.conn.now) }
    ensures survives { Survives (state S.Store tx.old.conn.now) (state S.Store tx.new.conn.now) (λ _. ⊥) }
{
    let term = Whole {
        value: change.hard.term,
    };
    let vote = Whole {
        value: number_of_vote(change.hard.vote),
    };
    renew_meta(tx, term, vote, known)?;
    renew_floor(tx, change.hard.floor, known)?;
    let kept = change.kept as u64;
    shorten_log(tx, Whole { value: kept }, count)?;
    append_all(tx, Whole { value: kept + 1 }, &change.entries)?;
    Ok(())
}
