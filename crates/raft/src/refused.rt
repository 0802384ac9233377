//! Wrong bodies that no contract here lets through: functions that do nothing but call what they speak of.
ghost use Rattle.std.specs.Prelude.{◌≡◌, ◌≢◌, ◌+◌, ◌*◌, ◌<◌, ◌≤◌, ◌++◌, ℕ, List, Some, None, nat_le, take, length, vec_len, true, false, [], IfOk, IfSome, OnOk, MatchOption};
ghost use Rattle.std.specs.List.{list_all};
ghost use Rattle.model.specs.declared.entry.Entry as in_log;
ghost use Rattle.model.specs.Lists.{with_nth};
ghost use Rattle.model.specs.Logs.{closed};
ghost use Rattle.model.specs.Members.{agreed, count_members, is_in, is_majority, last_term, term_at};
ghost use Rattle.model.specs.Steps.{TERM_LAST, go_on, holds_to, is_matched};
ghost use Rattle.raft.specs.View.{log_of, node_of, sends, Reaches};

use crate::short_log::ShortLog;
use crate::state::{Core, Sending};
use crate::voting::is_free_for;
use keep::change::Change;
use keep::error::StoreError;
use keep::hard_state::HardState;
use keep::keeper::LogReader;
use model::entry::Entry;
use model::member::{Member, SealedFloor};
use model::message::Message;
use model::stamp::Stamp;
use std::alloc::AllocError;

/// A function that cuts the log by entries that it has does not meet the contract of `ShortLog::accept`.
fn cuts_what_agrees(
    log: &mut ShortLog,
    index: usize,
    prev: usize,
    entries: Vec<Entry>,
) -> Result<(), AllocError>
    ghost stored: { List in_log.Entry }
    requires reaches { log.old.elsewhere ≤ length stored }
    requires whole { index ≡ prev + vec_len entries }
    requires within { index ≤ log.old.elsewhere + vec_len log.old.tail }
    requires agrees { index ≡ agreed (take log.old.elsewhere stored ++ log.old.tail.items) prev entries.items }
    requires few { vec_len entries ≤ 64 }
    requires terms { list_all (λ e. nat_le e.term TERM_LAST) entries.items ≡ true }
    ensures { OnOk result (take log.new.elsewhere stored ++ log.new.tail.items ≡ take log.old.elsewhere stored ++ log.old.tail.items) }
{
    log.accept(index, prev, entries)
}

/// A function by which half of the members elect does not meet the contract of `Core::is_elected`.
fn half_elects(core: &Core) -> bool
    requires { 2 * count_members core.now.members (is_in core.now.votes.items) ≤ core.now.members }
    ensures { result ≡ false }
{
    core.is_elected()
}

/// A function by which half of the members commit does not meet the contract of `Core::is_held`.
fn half_holds(core: &Core, index: usize) -> bool
    requires { 2 * count_members core.now.members (holds_to core.now.me core.now.matched.items index) ≤ core.now.members }
    ensures { result ≡ false }
{
    core.is_held(index)
}

/// A function that commits an entry of an older term by its copies does not meet the contract of `Core::commits`.
fn commits_an_older_term<S: LogReader>(core: &Core, reader: &mut S) -> Result<usize, StoreError>
    requires up { S.is_up reader.old ≡ true }
    requires reaches { S.is_honest reader.old → Reaches core.now (S.stored reader.old).log }
    requires rises { S.is_honest reader.old → go_on None core.now.term (log_of core.now (S.stored reader.old).log) ≡ true }
    ensures { IfOk result (λ index. S.is_honest reader.new → core.now.commit < index → term_at (log_of core.now (S.stored reader.old).log) index ≡ core.now.term) }
{
    core.commits(reader)
}

/// A function that does not commit what a majority holds of its own term does not meet the contract of `Core::on_agreed`.
fn never_commits<S: LogReader>(
    core: &mut Core,
    reader: &mut S,
    sender: Member,
) -> Result<Vec<Message>, StoreError>
    requires up { S.is_up reader.old ≡ true }
    requires reaches { S.is_honest reader.old → Reaches core.old (S.stored reader.old).log }
    requires rises { S.is_honest reader.old → go_on None core.old.term (log_of core.old (S.stored reader.old).log) ≡ true }
    ensures { IfOk result (λ ms. S.is_honest reader.new → (index : ℕ) → index ≤ length (log_of core.old (S.stored reader.old).log) → is_matched core.old.members core.old.me (node_of core.old (S.stored reader.old).log) index ≡ true → index ≤ core.new.commit) }
{
    core.on_agreed(reader, sender)
}

/// A function that stamps at or below the floor, or the last stamp, does not meet the contract of `Core::next_stamp`.
fn stamps_below(core: &Core, reading: i64) -> Option<Stamp>
    ensures floor { IfSome result (λ t. (floor : ℕ) → core.now.floor ≡ Some floor → floor < t) }
    ensures last { IfSome result (λ t. (last : ℕ) → closed core.now.log.tail.items ≡ Some last → last < t) }
{
    core.next_stamp(reading)
}

/// A function that lets a seal count before its entry is applied does not meet the contract of `Core::is_applied`.
fn seals_before_it_applies<S: LogReader>(
    core: &Core,
    reader: &mut S,
    seal: SealedFloor,
) -> Result<bool, StoreError>
    requires up { S.is_up reader.old ≡ true }
    requires reaches { S.is_honest reader.old → Reaches core.now (S.stored reader.old).log }
    requires past { core.now.commit < seal.index }
    ensures { IfOk result (λ yes. S.is_honest reader.new → yes ≡ false) }
{
    core.is_applied(reader, seal)
}

/// A function that seals where those that stored the floor are no majority does not meet the contract of `Core::on_stored`.
fn seals_without_a_majority(
    core: &mut Core,
    sender: Member,
    term: u64,
    index: usize,
    floor: Stamp,
) -> Sending
    ghost stored: { List in_log.Entry }
    requires { is_majority core.old.members (is_in (with_nth core.old.stored.items sender true)) ≡ false }
    ensures sent { (sends core.old.members core.old.me result (node_of core.new stored)).sent ≡ [] }
    ensures sealed { (sends core.old.members core.old.me result (node_of core.new stored)).node.sealed ≡ core.old.sealed }
{
    core.on_stored(sender, term, index, floor)
}

/// A function by which a vote that one has is free for another does not meet the contract of `is_free_for`.
fn votes_twice(vote: Option<Member>, candidate: Member) -> bool
    ghost other: { ℕ }
    requires given { vote ≡ Some other }
    requires differs { other ≢ candidate }
    ensures { result ≡ false }
{
    is_free_for(vote, candidate)
}

/// A function by which a log of the same last term is up to date though it is shorter does not meet the contract of `Core::is_up_to_date`.
fn shorter_is_up_to_date(core: &Core, last_index: usize, ended: u64) -> bool
    ghost stored: { List in_log.Entry }
    requires reaches { Reaches core.now stored }
    requires same { last_term (log_of core.now stored) ≡ ended }
    requires shorter { last_index < length (log_of core.now stored) }
    ensures { result ≡ false }
{
    core.is_up_to_date(last_index, ended)
}

/// A function that leaves a new vote out of what is to be stored does not meet the contract of `Core::change_since`.
fn forgets_the_vote(core: &Core, before: HardState) -> Result<Option<Change>, AllocError>
    ghost stored: { List in_log.Entry }
    requires reaches { Reaches core.now stored }
    requires differs { core.now.vote ≢ before.vote }
    ensures { IfOk result (λ news. MatchOption news ⊥ (λ change. change.hard.vote ≡ core.now.vote)) }
{
    core.change_since(before)
}
