//! Logs, and entries that come to them.
ghost use Rattle.std.specs.Prelude.{◌≡◌, ◌+◌, ◌-◌, ◌<◌, ◌≤◌, ◌^◌, length, take, slice_get, drop, true, option_map};
ghost use Rattle.model.specs.Lists.{nth};
ghost use Rattle.model.specs.Stamps.{TIME_LAST, above};
ghost use Rattle.model.specs.Members.{agreed, has_term, last_term, term_at};
ghost use Rattle.model.specs.Steps.{go_on, continues};
ghost use Rattle.keep.specs.Log.{is_numbered};
ghost use Rattle.raft.specs.Follows.{may_follow, go_on_from};

use model::entry::Entry;

/// The term of the entry at an index, 0 where there is none.
pub(crate) fn term_at(log: &[Entry], index: usize) -> u64
    ensures { result ≡ term_at log.now index }
{
    if index == 0 {
        return 0;
    }
    match log.get(index - 1) {
        Some(entry) => entry.term,
        None => 0,
    }
}

/// Its stamp is an instant, and its request's client and number are in their ranges, as their types keep.
pub(crate) fn has_ranges(entry: &Entry)
    ensures stamp { entry.now.stamp ≤ TIME_LAST }
    ensures request { is_numbered entry.now.request ≡ true }
{
    let _ = entry.stamp.micros();
    if let Some(request) = &entry.request {
        let _ = request.client.get();
        let _ = request.number.get();
    }
}

/// The least stamp after the entry at an index, 0 where there is none.
pub(crate) fn least_at(log: &[Entry], index: usize) -> u64
    ensures value { result ≡ above (option_map (λ e. e.stamp) (nth log.now index)) }
    ensures small { result ≤ 253402214400000000 }
{
    if index == 0 {
        return 0;
    }
    match log.get(index - 1) {
        Some(entry) => entry.stamp.micros() + 1,
        None => 0,
    }
}

/// The term of the last entry, 0 where there is none.
pub(crate) fn last_term(log: &[Entry]) -> u64
    ensures { result ≡ last_term log.now }
{
    term_at(log, log.len())
}

/// An entry of this term has so many others before it.
pub(crate) fn has_term(log: &[Entry], before: usize, term: u64) -> bool
    ensures value { result ≡ has_term (slice_get log.now before) term }
    ensures within { result ≡ true → before < length log.now }
{
    match log.get(before) {
        Some(entry) => entry.term == term,
        None => false,
    }
}

/// Up to which index the log and the entries that come after index `start` have the same terms.
#[tactic(auto, using(crate::proofs::Lists::agreed_step, crate::proofs::Lists::agreed_all))]
pub(crate) fn agreed(log: &[Entry], start: usize, entries: &[Entry]) -> usize
    ensures value { result ≡ agreed log.now start entries.now }
    ensures low { start ≤ result }
    ensures high { result ≤ start + length entries.now }
{
    let mut index = start;
    for entry in entries {
        if !has_term(log, index, entry.term) {
            return index;
        }
        index += 1;
    }
    index
}

/// An entry may follow one of this term, with at least this stamp, in a message of term `bound`.
fn may_follow(term: u64, least: u64, bound: u64, entry: &Entry) -> bool
    ensures { result ≡ may_follow term least bound entry.now }
{
    0 < entry.term && term <= entry.term && entry.term <= bound && least <= entry.stamp.micros()
}

/// Terms do not fall and are not above the bound, and stamps rise.
#[tactic(auto, using(crate::proofs::Lists::go_on_step, crate::proofs::Lists::go_on_all))]
pub(crate) fn go_on(term: u64, least: u64, bound: u64, entries: &[Entry]) -> bool
    ensures { result ≡ go_on_from term least bound entries.now }
{
    let mut last_term = term;
    let mut least_stamp = least;
    for entry in entries {
        if !may_follow(last_term, least_stamp, bound, entry) {
            return false;
        }
        last_term = entry.term;
        least_stamp = entry.stamp.micros() + 1;
    }
    true
}

/// The entries go on after the one at an index, in a message of this term.
#[tactic(auto, using(crate::proofs::Lists::go_on_is))]
fn goes_on(log: &[Entry], index: usize, term: u64, entries: &[Entry]) -> bool
    ensures { result ≡ go_on (nth log.now index) term entries.now }
{
    go_on(term_at(log, index), least_at(log, index), term, entries)
}

/// The entries go on after the one at `prev`, and those that are new after the last one that stays.
pub(crate) fn continues(log: &[Entry], prev: usize, term: u64, entries: &[Entry]) -> bool
    requires { prev + length entries.now < 2 ^ 63 }
    ensures { result ≡ continues log.now prev term entries.now }
{
    if !goes_on(log, prev, term, entries) {
        return false;
    }
    let index = agreed(log, prev, entries);
    let (_, new) = entries.split_at(index - prev);
    goes_on(log, index, term, new)
}
