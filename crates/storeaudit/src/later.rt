//! A folder whose first journals are away.
use durable::SqlKeeper;
use journal::Summary;
use model::member::Member;
use playback::Play;
use progressline::Progress;
use sqlite::{Alter, Connection};
use std::alloc::Global;
use store::announcing::Judging;
use store::found::found_in;
use store::held::HeldLog;
use store::known::KnownLog;
use store::{Past, StoreRefusal};
use storefolder::{Form, Journals, open_databases, tell_all};

/// What an audit found of a folder whose first journals are away, and says yes of.
#[derive(Debug, Drop)]
pub struct Later {
    /// The number of the first journal that is there. It rests on what the one before it left.
    pub journal: u64,
    /// How many journals are there.
    pub sessions: u64,
    /// How many outcomes of requests they gave out.
    pub requests: u64,
    pub members: Member,
    /// The members whose database is missing.
    pub missing: Vec<Member>,
}

// What the databases hold, member by member: in short, and their logs; none of one that is missing.
#[derive(Drop)]
struct Held {
    found: Vec<Option<Summary>>,
    logs: Vec<Option<HeldLog>>,
}

fn read_databases<K: Judging>(
    alloc: Global,
    databases: Vec<Option<K::Image>>,
    form: &Form,
) -> Result<Held, StoreRefusal>
where
    K::Image: Drop,
{
    let mut held = Held {
        found: Vec::new(alloc),
        logs: Vec::new(alloc),
    };
    let mut known = KnownLog::new(alloc);
    let mut member: Member = 0;
    for database in databases {
        member = member.saturating_add(1);
        match database {
            Some(database) => {
                let found = found_in::<K>(
                    alloc,
                    database,
                    &form.schema,
                    form.members,
                    member,
                    &mut known,
                )?;
                held.found.push(Some(found.summary))?;
                held.logs.push(Some(found.log))?;
            }
            None => {
                held.found.push(None)?;
                held.logs.push(None)?;
            }
        }
    }
    Ok(held)
}

// What databases of any kind hold.
fn read_stored<S: Alter + Drop>(
    alloc: Global,
    databases: Vec<Option<Connection<S>>>,
    form: &Form,
) -> Result<Held, StoreRefusal> {
    read_databases::<SqlKeeper<S>>(alloc, databases, form)
}

/// Plays journals of which the first ones are away, and gives what each database holds, none of one that is missing. 55 of the journal
/// before the first one, where no database has the log any more that a member had as that began.
pub(crate) fn play_later<Q: Progress>(
    rt: &HostRuntime,
    alloc: Global,
    dir: &str,
    form: &Form,
    journals: Journals,
    progress: &Q,
) -> Result<(Play, Vec<Option<Summary>>), StoreRefusal> {
    let mut past = Past::new(alloc, form.members)?;
    tell_all(rt, alloc, dir, form, journals, &mut past, progress)?;
    let databases = open_databases(rt, alloc, dir, &past)?;
    let Held { found, logs } = read_stored(alloc, databases, form)?;
    let schema = form.schema.clone()?;
    let mut play = Play::later(alloc, form.members, schema, journals.first, logs)?;
    tell_all(rt, alloc, dir, form, journals, &mut play, progress)?;
    Ok((play, found))
}

/// The same, and compares each database with what the journals give.
pub(crate) fn audit_later<Q: Progress>(
    rt: &HostRuntime,
    alloc: Global,
    dir: &str,
    form: &Form,
    journals: Journals,
    progress: &Q,
) -> Result<Later, StoreRefusal> {
    let (mut play, found) = play_later(rt, alloc, dir, form, journals, progress)?;
    let mut missing = Vec::new(alloc);
    let mut member: Member = 0;
    for found in found {
        member = member.saturating_add(1);
        match found {
            Some(found) => play.check_held(member, &found)?,
            None => missing.push(member)?,
        }
    }
    let (sessions, requests) = play.counts();
    Ok(Later {
        journal: journals.first,
        sessions,
        requests,
        members: form.members,
        missing,
    })
}
