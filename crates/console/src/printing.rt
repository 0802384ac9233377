//! What is printed of a store.
ghost use Rattle.std.specs.Prelude.{IfErr};
ghost use Rattle.console.specs.Sittings.{IsOfPrinting};

use crate::room::put_room_left;
use crate::stop::Fault;
use model::member::Member;
use model::stamp::Stamp;
use std::alloc::{AllocError, Global};
use std::io;
use std::io::Write;
use store::announcing::Announces;
use store::status::{Standing, Status};
use store::{Room, Store, StoreRefusal};
use storefolder::Found;

// How many columns an instant has.
const INSTANT: usize = 26;

/// Prints bytes on standard output, at once.
pub(crate) fn print_bytes(rt: &HostRuntime, bytes: &[u8]) -> Result<(), Fault>
    ensures { IfErr result IsOfPrinting }
{
    match io::writer(rt).write_all(bytes) {
        Ok(()) => Ok(()),
        Err(error) => Err(Fault::Output(error)),
    }
}

/// Prints a text on standard output, at once.
pub(crate) fn print(rt: &HostRuntime, text: &str) -> Result<(), Fault>
    ensures { IfErr result IsOfPrinting }
{
    print_bytes(rt, text.as_bytes())
}

/// The last name of a folder's path.
pub(crate) fn name_of(dir: &str) -> &str {
    let dir = match dir.strip_suffix('/') {
        Some(dir) => dir,
        None => dir,
    };
    match dir.rsplit_once('/') {
        Some((_, name)) => name,
        None => dir,
    }
}

/// A refusal as a line, and below it what to do, if that can be said.
pub(crate) fn refusal_lines(alloc: Global, refusal: &StoreRefusal) -> Result<String, AllocError> {
    let mut text = format!(in alloc; "{refusal}\n")?;
    if let Some(hint) = refusal.hint() {
        write!(text, "        {hint}\n")?;
    }
    Ok(text)
}

/// How many, with the word for one or for several.
pub(crate) fn counted(alloc: Global, count: usize, one: &str) -> Result<String, AllocError> {
    if count == 1 {
        format!(in alloc; "1 {one}")
    } else {
        format!(in alloc; "{count} {one}s")
    }
}

/// Who leads.
pub(crate) fn leads(alloc: Global, leader: Option<Member>) -> Result<String, AllocError> {
    match leader {
        Some(leader) => format!(in alloc; "node {leader} leads"),
        None => format!(in alloc; "nobody leads"),
    }
}

// Who is there, and who leads.
fn put_members<K: Announces>(
    alloc: Global,
    dir: &str,
    store: &Store<K>,
    text: &mut String,
) -> Result<(), AllocError>
where
    K::Image: Drop,
{
    let name = name_of(dir);
    let members = counted(alloc, store.members(), "member")?;
    let leads = leads(alloc, store.leader())?;
    write!(text, "{name}: {members}, {leads}, ")
}

// An instant behind a line or, where it would pass so many columns, below it.
fn put_instant(stamp: Stamp, width: Option<usize>, text: &mut String) -> Result<(), AllocError> {
    let instant = stamp.instant();
    let fits = width.is_none_or(|columns| text.len().saturating_add(INSTANT) < columns);
    text.push(if fits { ' ' } else { '\n' })?;
    write!(text, "{instant}\n")
}

/// What a sitting at a terminal begins with: who is there, who leads, how many requests are decided, and when the last one was.
pub(crate) fn banner<K: Announces>(
    alloc: Global,
    dir: &str,
    store: &Store<K>,
    width: Option<usize>,
) -> Result<String, AllocError>
where
    K::Image: Drop,
{
    let mut text = String::new(alloc);
    put_members(alloc, dir, store, &mut text)?;
    let Some(last) = store.last_decided() else {
        text.push_str("nothing decided yet. .help tells what can be typed\n")?;
        return Ok(text);
    };
    let requests = counted(alloc, store.decided(), "request")?;
    write!(text, "{requests} decided, the last one at")?;
    put_instant(last, width, &mut text)?;
    Ok(text)
}

/// What was cut as the store was opened, and what is missing.
pub(crate) fn warnings(alloc: Global, found: &Found) -> Result<String, AllocError> {
    let mut text = String::new(alloc);
    if let Some(cut) = found.cut {
        let journal = cut.journal;
        let at = cut.at;
        if cut.bytes > 0 {
            write!(
                text,
                "journal {journal} was cut at byte {at}: its end was torn. Nothing that was told is lost\n"
            )?;
        }
    }
    put_missing(found.missing.as_slice(), &mut text)?;
    Ok(text)
}

fn put_missing(missing: &[Member], text: &mut String) -> Result<(), AllocError> {
    for member in missing {
        let member = *member;
        write!(
            text,
            "the database of node {member} is missing: the store goes on without it; bitable restore makes it anew\n"
        )?;
    }
    Ok(())
}

fn standing_word(standing: Standing) -> &'static str {
    match standing {
        Standing::Leads => "leads",
        Standing::Follows => "follows",
        Standing::Down => "down",
        Standing::Missing => "missing",
    }
}

// What a member that is up has.
fn put_numbers(status: &Status, text: &mut String) -> Result<(), AllocError> {
    let term = status.term;
    let entries = status.entries;
    let applied = status.applied;
    write!(text, "{term:>5}  {entries:>7}  {applied:>7}  ")?;
    match status.closed {
        Some(stamp) => {
            let instant = stamp.instant();
            write!(text, "{instant}\n")
        }
        None => text.push_str("nothing\n"),
    }
}

// The line of a member.
fn put_status(status: &Status, text: &mut String) -> Result<(), AllocError> {
    let member = status.member;
    let word = standing_word(status.standing);
    match status.standing {
        Standing::Leads | Standing::Follows => {
            write!(text, "node {member}  {word:<7}")?;
            put_numbers(status, text)
        }
        Standing::Down | Standing::Missing => write!(text, "node {member}  {word}\n"),
    }
}

/// How the members stand, as a table; below it how much of the log is full, once nine tenths are.
pub(crate) fn status_lines(
    alloc: Global,
    all: &[Status],
    room: Room,
) -> Result<String, AllocError> {
    let mut text = String::from_str(
        alloc,
        "member           term  entries  applied  time is closed to\n",
    )?;
    text.push_str("------           ----  -------  -------  --------------------------\n")?;
    for status in all {
        put_status(status, &mut text)?;
    }
    put_room_left(room, &mut text)?;
    Ok(text)
}
