//! The audit of a folder: its journals are played again, each database has to be what they give, and what they spell has to be one run.
ghost use Rattle.std.specs.Prelude.{◌≡◌, IfOk, OnOk};
ghost use Rattle.playback.specs.Scenes.{scene_of};
ghost use Rattle.sqlite.specs.Held.{state};
ghost use Rattle.storeaudit.specs.Audit.{AreLeft, IsUpheld, WasPlayed};
ghost use Rattle.storeaudit.specs.Found.{AreAlike, IsAlike};
ghost use Rattle.durable.specs.Stored.{IsSound, Offers};

use crate::later::{Later, audit_later};
use durable::SqlKeeper;
use fault::Refusal;
use model::member::Member;
use playback::Play;
use progressline::Progress;
use schema::Schema;
use sqlite::{Alter, Connection};
use std::alloc::Global;
use store::announcing::Judging;
use store::found::found_in;
use store::known::KnownLog;
use store::{Past, StoreRefusal};
use storefolder::{Form, Journals, check_synced, enter, find_journals, open_databases, tell_all};

/// What an audit that says yes found.
#[derive(Drop)]
pub struct Audited {
    /// The tables.
    pub schema: Schema,
    /// How many members there are.
    pub members: Member,
    /// How many journals there are.
    pub sessions: u64,
    /// How many outcomes of requests were given out.
    pub requests: u64,
    /// The members whose database is missing, in their order.
    pub missing: Vec<Member>,
}

/// What an audit says.
#[derive(Drop)]
pub enum Verdict {
    Yes(Audited),
    /// Yes of the journals that are there, where the first ones are away.
    Later(Later),
    /// No: the first fault.
    No(StoreRefusal),
}

// Compares a member's database, which is not missing, with what the journals give.
fn compare<K: Judging>(
    alloc: Global,
    database: K::Image,
    form: &Form,
    member: Member,
    known: &mut KnownLog,
    play: &mut Play,
) -> Result<(), StoreRefusal>
where
    K::Image: Drop,
    ensures { OnOk result (IsAlike K.holds K.is_sound database (scene_of play.old) member (scene_of play.new)) }
{
    let found = found_in::<K>(alloc, database, &form.schema, form.members, member, known)?;
    play.check_found(member, &found.summary, found.log.entries())
}

// Compares each database that is there, and names those that are missing. 50 of another number of them than members.
fn compare_databases<K: Judging>(
    alloc: Global,
    databases: Vec<Option<K::Image>>,
    form: &Form,
    play: &mut Play,
) -> Result<Vec<Member>, StoreRefusal>
where
    K::Image: Drop,
    ensures { IfOk result (λ missing. AreAlike K.holds K.is_sound databases.items (scene_of play.old) form.now.members missing.items (scene_of play.new)) }
{
    if databases.len() != form.members {
        return Err(StoreRefusal::Refused(Refusal::BadFlight));
    }
    let mut missing = Vec::new(alloc);
    let mut known = KnownLog::new(alloc);
    let mut before: Member = 0;
    for database in databases {
        let Some(member) = before.checked_add(1) else {
            return Err(StoreRefusal::Refused(Refusal::BadFlight));
        };
        match database {
            Some(database) => compare::<K>(alloc, database, form, member, &mut known, play)?,
            None => missing.push(member)?,
        }
        before = member;
    }
    Ok(missing)
}

// Compares databases of any kind: each that is there held just what its member has stored, as `compare_databases` says it.
fn compare_stored<S: Alter + Drop>(
    alloc: Global,
    databases: Vec<Option<Connection<S>>>,
    form: &Form,
    play: &mut Play,
) -> Result<Vec<Member>, StoreRefusal>
    ensures alike { IfOk result (λ missing. AreAlike (λ c d. Offers (state S.Store c) d) (λ c. IsSound (state S.Store c)) databases.items (scene_of play.old) form.now.members missing.items (scene_of play.new)) }
    ensures left { IfOk result (λ missing. AreLeft (scene_of play.old) form.now.members missing.items (scene_of play.new)) }
{
    compare_databases::<SqlKeeper<S>>(alloc, databases, form, play)
}

// Opens the databases of which the journals tell, and compares them.
fn check_databases<Q: Progress>(
    rt: &HostRuntime,
    alloc: Global,
    dir: &str,
    form: &Form,
    journals: Journals,
    play: &mut Play,
    progress: &Q,
) -> Result<Vec<Member>, StoreRefusal>
    ensures { IfOk result (λ missing. AreLeft (scene_of play.old) form.now.members missing.items (scene_of play.new)) }
{
    let mut past = Past::new(alloc, form.members)?;
    tell_all(rt, alloc, dir, form, journals, &mut past, progress)?;
    let databases = open_databases(rt, alloc, dir, &past)?;
    compare_stored(alloc, databases, form, play)
}

// Plays all journals, compares the databases, and gives how many journals there are, and whose databases are missing.
fn check_all<Q: Progress>(
    rt: &HostRuntime,
    alloc: Global,
    dir: &str,
    form: &Form,
    journals: Journals,
    play: &mut Play,
    progress: &Q,
) -> Result<(u64, Vec<Member>), StoreRefusal>
    ensures { IfOk result (λ found. WasPlayed (scene_of play.old) found.0 form.now.members found.1.items (scene_of play.new)) }
{
    let count = tell_all(rt, alloc, dir, form, journals, play, progress)?;
    let missing = check_databases(rt, alloc, dir, form, journals, play, progress)?;
    Ok((count, missing))
}

// Whether a refusal is what an audit says no by.
fn is_verdict(refusal: &StoreRefusal) -> bool {
    match refusal {
        StoreRefusal::Altered { .. } => true,
        StoreRefusal::BadJournal { .. } => true,
        StoreRefusal::Refused(Refusal::BrokenLife { .. }) => true,
        StoreRefusal::Refused(Refusal::Unsent { .. }) => true,
        StoreRefusal::Refused(Refusal::WrongAnswer { .. }) => true,
        _ => false,
    }
}

// What an audit says where this ends it.
fn verdict_of(refusal: StoreRefusal) -> Result<Verdict, StoreRefusal>
    ensures { IfOk result IsUpheld }
{
    if is_verdict(&refusal) {
        Ok(Verdict::No(refusal))
    } else {
        Err(refusal)
    }
}

// What an audit says where all journals are there: what they spell is played on one world, from its first event on.
fn audit_whole<Q: Progress>(
    rt: &HostRuntime,
    alloc: Global,
    dir: &str,
    form: &Form,
    journals: Journals,
    progress: &Q,
) -> Result<Verdict, StoreRefusal>
    ensures { IfOk result IsUpheld }
{
    // Its contract says what holds of the events of each run.
    believed::promises();
    let schema = form.schema.clone()?;
    let mut play = Play::new(alloc, form.members, form.schema.clone()?, false)?;
    let (sessions, missing) = match check_all(rt, alloc, dir, form, journals, &mut play, progress) {
        Ok(found) => found,
        Err(refusal) => return verdict_of(refusal),
    };
    let (_, requests) = play.counts();
    Ok(Verdict::Yes(Audited {
        schema,
        members: form.members,
        sessions,
        requests,
        missing,
    }))
}

/// Audits the store in a folder: whether the events that its journals spell, one run of its members from the first one on, give each outcome
/// and each answer that the journals tell of, and each database that is there holds what its member has stored in that run. Where the first
/// journals are away, the others are judged in the same way, from what the databases say that was stored before.
///
/// A fault is 49 of a database that holds something else, 55 of a journal that spells nothing or is missing, 51 of a member that began with
/// what it did not have, 52 of a message that was not sent, 54 of an outcome or an answer that the events don't give. Refused is 46 to 48,
/// 57, and 40 and 43. How many journals are read is told to who asks for it.
pub fn audit<Q: Progress>(
    rt: &HostRuntime,
    alloc: Global,
    dir: &str,
    progress: &Q,
) -> Result<Verdict, StoreRefusal>
    ensures { IfOk result IsUpheld }
{
    let folder = enter(rt, alloc, dir)?;
    check_synced(rt, alloc, dir)?;
    let form = &folder.form;
    let journals = match find_journals(rt, alloc, dir) {
        Ok(journals) => journals,
        Err(refusal) => return verdict_of(refusal),
    };
    if !journals.is_later() {
        return audit_whole(rt, alloc, dir, form, journals, progress);
    }
    match audit_later(rt, alloc, dir, form, journals, progress) {
        Ok(later) => Ok(Verdict::Later(later)),
        Err(refusal) => verdict_of(refusal),
    }
}
