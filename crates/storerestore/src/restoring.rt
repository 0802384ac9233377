//! The restoring of a store's folder.
ghost use Rattle.std.specs.Prelude.{◌≡◌, ◌↔◌, ℕ, None, map, IfErr, IfOk, IsTrue, OnErr, OnOk};
ghost use Rattle.storerestore.specs.Looking.{AllLost, MayBeMade, MostFit};
ghost use Rattle.storerestore.specs.declared.looking.Looked.{Looked as TheLooked};

use crate::looking::{Looked, look_at_file};
use crate::making::fill_database;
use fault::Refusal;
use model::member::Member;
use playback::{Play, Stored};
use progressline::Progress;
use std::alloc::Global;
use store::held::HeldLog;
use store::known::KnownLog;
use store::{Past, StoreRefusal};
use storefolder::{
    Form, Journals, begin_database, enter, find_database, find_journals, forget_boot, is_unsynced,
    put_database, tell_all,
};

/// A database that was made anew.
#[derive(Debug, Drop)]
pub struct Restored {
    pub member: Member,
    /// How many entries its log has.
    pub entries: usize,
    /// The name, in the folder, under which what was there is kept; none where nothing was.
    pub kept: Option<String>,
}

// Looks at the database of each member.
fn look_at_all(
    rt: &HostRuntime,
    alloc: Global,
    dir: &str,
    form: &Form,
    past: &Past,
) -> Result<Vec<Looked>, StoreRefusal> {
    let mut all = Vec::new(alloc);
    let mut known = KnownLog::new(alloc);
    for before in 0..form.members {
        let member = before.saturating_add(1);
        let database = find_database(rt, alloc, dir, member);
        let tale = past.tale(member);
        all.push(look_at_file(alloc, database, form, &tale, member, &mut known)?)?;
    }
    Ok(all)
}

// Of databases that may hold anything none is looked at.
fn look_at_none(alloc: Global, members: usize) -> Result<Vec<Looked>, StoreRefusal>
    ensures { IfOk result (λ all. AllLost all.items members) }
{
    let mut all = Vec::new(alloc);
    for _before in 0..members {
        all.push(Looked::unreadable())?;
    }
    Ok(all)
}

// Looks at the databases, of which those that the machine stopped over may hold anything. 55 of the journal before the first one, where
// that is away and they do.
fn look(
    rt: &HostRuntime,
    alloc: Global,
    dir: &str,
    form: &Form,
    journals: Journals,
    past: &Past,
    are_lost: bool,
) -> Result<Vec<Looked>, StoreRefusal> {
    if !are_lost {
        return look_at_all(rt, alloc, dir, form, past);
    }
    if journals.is_later() {
        return Err(journals.refusal_before());
    }
    look_at_none(alloc, form.members)
}

// Whether more than half of the databases are what the journals tell.
fn most_fit(all: &[Looked]) -> bool
    ensures { IsTrue result ↔ MostFit all.now }
{
    let fitting = all.iter().filter(|looked| looked.fits).count();
    fitting > all.len() / 2
}

// A database that can be read, and holds something else, is made anew only where most others are what the journals tell: else it may be a
// journal that was changed. 49 of the first one otherwise.
fn check_most(all: &[Looked]) -> Result<(), StoreRefusal>
    ensures ok { OnOk result (MayBeMade all.now) }
    ensures err { OnErr result (¬ MayBeMade all.now) }
    ensures why { IfErr result (λ refusal. (member : ℕ) × (refusal ≡ StoreRefusal.Altered member None)) }
{
    if most_fit(all) {
        return Ok(());
    }
    let mut member: Member = 0;
    for looked in all {
        member = member.saturating_add(1);
        if !looked.fits && looked.log.is_some() {
            return Err(StoreRefusal::Altered {
                member,
                entry: None,
            });
        }
    }
    Ok(())
}

// The members whose databases are not what the journals tell.
fn unfit_in(alloc: Global, all: &[Looked]) -> Result<Vec<Member>, StoreRefusal> {
    let mut members = Vec::new(alloc);
    let mut member: Member = 0;
    for looked in all {
        member = member.saturating_add(1);
        if !looked.fits {
            members.push(member)?;
        }
    }
    Ok(members)
}

// The logs that the databases hold, in their order.
fn logs_in(alloc: Global, all: Vec<Looked>) -> Result<Vec<Option<HeldLog>>, StoreRefusal>
    ensures { IfOk result (λ logs. logs.items ≡ map (λ (looked : TheLooked). looked.log) all.items) }
{
    let mut logs = Vec::new(alloc);
    for looked in all {
        logs.push(looked.log)?;
    }
    Ok(logs)
}

// Before the first journal that is there: nothing happened, or where others are away members go on with the beginnings of these logs.
fn new_play(
    alloc: Global,
    form: &Form,
    journals: Journals,
    logs: Vec<Option<HeldLog>>,
) -> Result<Play, StoreRefusal> {
    let schema = form.schema.clone()?;
    if journals.is_later() {
        Play::later(alloc, form.members, schema, journals.first, logs)
    } else {
        Play::new(alloc, form.members, schema, false)
    }
}

// Makes a member's database anew, with this stored, and puts it in its place.
fn replace_database(
    rt: &HostRuntime,
    alloc: Global,
    dir: &str,
    form: &Form,
    member: Member,
    stored: &Stored,
) -> Result<Restored, StoreRefusal> {
    let database = begin_database(rt, alloc, dir, member)?;
    let database = fill_database(alloc, database, form, member, stored)?;
    if unsynced::close(database).is_err() {
        return Err(StoreRefusal::Refused(Refusal::StoreFault));
    }
    Ok(Restored {
        member,
        entries: stored.entries.len(),
        kept: put_database(rt, alloc, dir, member)?,
    })
}

// Makes the databases of these members anew, as the journals that were played give them.
fn replace_all(
    rt: &HostRuntime,
    alloc: Global,
    dir: &str,
    form: &Form,
    members: &[Member],
    play: &mut Play,
) -> Result<Vec<Restored>, StoreRefusal> {
    let mut all = Vec::new(alloc);
    for member in members {
        let stored = play.left_by(*member)?;
        all.push(replace_database(rt, alloc, dir, form, *member, &stored)?)?;
    }
    Ok(all)
}

// Makes the databases anew that are to be, and gives those.
fn restore_in<Q: Progress>(
    rt: &HostRuntime,
    alloc: Global,
    dir: &str,
    form: &Form,
    are_lost: bool,
    progress: &Q,
) -> Result<Vec<Restored>, StoreRefusal> {
    let journals = find_journals(rt, alloc, dir)?;
    let mut past = Past::new(alloc, form.members)?;
    tell_all(rt, alloc, dir, form, journals, &mut past, progress)?;
    let all = look(rt, alloc, dir, form, journals, &past, are_lost)?;
    check_most(all.as_slice())?;
    let members = unfit_in(alloc, all.as_slice())?;
    if members.is_empty() {
        return Ok(Vec::new(alloc));
    }
    let mut play = new_play(alloc, form, journals, logs_in(alloc, all)?)?;
    tell_all(rt, alloc, dir, form, journals, &mut play, progress)?;
    replace_all(rt, alloc, dir, form, members.as_slice(), &mut play)
}

/// Makes each database of the store in a folder anew that is missing, can't be read, or is not what the last journal tells: with what all
/// journals give. Where the machine stopped while the store was open, that is each one, whatever it holds. What was there is kept beside it.
/// It gives those that were made, in the order of the members, and changes nothing else. Where the first journals are away, the log of
/// another member has to begin as the journals tell.
///
/// 46 to 48 as `enter` refuses them; 49 of a database that can be read, where not more than half of all are what the journals tell, with
/// nothing changed: it may be a journal that was changed; 50 to 52, 54 and 55 of journals that are not what their events give, or that are
/// away; 44 where these come to what no member can have stored; 38, 40 and 43 where files can't be read or written, and 56 where a thousand
/// databases of a member are kept, after which it can be done again. How many journals were read and played is told to who asks for it.
pub fn restore<Q: Progress>(
    rt: &HostRuntime,
    alloc: Global,
    dir: &str,
    progress: &Q,
) -> Result<Vec<Restored>, StoreRefusal> {
    let folder = enter(rt, alloc, dir)?;
    let are_lost = is_unsynced(rt, alloc, dir)?;
    let restored = restore_in(rt, alloc, dir, &folder.form, are_lost, progress)?;
    if are_lost {
        forget_boot(rt, alloc, dir)?;
    }
    Ok(restored)
}
