//! Opening a store that is in a folder.
ghost use Rattle.std.specs.Prelude.{IfOk};
ghost use Rattle.store.specs.Opening.{IsRunFrom};

use crate::boot::{Noted, forget_boot, note_boot, noted_synced};
use crate::databases::{Database, open_each};
use crate::faults::file_refusal;
use crate::form::Form;
use crate::journal_file::{JournalFile, Syncs};
use crate::journals::tell_one;
use crate::numbers::find_journals;
use crate::place::{
    Folder, check_form, cut_journal, enter, new_journal, read_journal, sync_journal,
};
use crate::torn::is_torn;
use durable::SqlKeeper;
use fault::Refusal;
use journal::blocks::text_in;
use model::member::Member;
use sqlite::{Alter, Connection};
use std::alloc::Global;
use store::announcing::{Announces, Announcing};
use store::members::Members;
use store::past::End;
use store::scribe::Scribe;
use store::{Databases, Device, Past, Store, StoreRefusal};
use unsynced::Stored;

/// What keeps a member of a store: a database in S, and what it is about to store is told to a journal J first.
pub type Kept<S, J> = Announcing<SqlKeeper<S>, J>;

/// A store that is open in a folder.
pub type FolderStore = Opened<Kept<Stored, JournalFile>>;

/// A journal whose end is torn: where its whole blocks end, and how many bytes follow that are not zero.
#[derive(Clone, Copy, PartialEq, Eq, Debug)]
pub struct Cut {
    pub journal: u64,
    pub at: usize,
    pub bytes: usize,
}

// What an opening has to know of what was before.
#[derive(Drop)]
struct Before {
    past: Past,
    /// The number of the journal that comes next, and the sum that it goes on from.
    next: u64,
    sum: u64,
    cut: Option<Cut>,
    /// Whether the first journals are away, so that no database can be made anew.
    is_later: bool,
}

/// What an opening found, and the folder, which is this process's own.
#[derive(Drop)]
pub struct Found {
    alloc: Global,
    folder: Folder,
    /// The folder's name.
    dir: String,
    /// The number of the journal that was begun.
    pub journal: u64,
    /// What was torn of the journal before, and is cut.
    pub cut: Option<Cut>,
    /// The members whose database is missing.
    pub missing: Vec<Member>,
}

/// A store that is open, and what its opening found.
#[derive(Drop)]
pub struct Opened<K: Announces>
where
    K::Image: Drop,
{
    pub store: Store<K>,
    pub found: Found,
}

// What is left of a store whose members are stopped.
#[derive(Drop)]
struct Stopped<S: Alter + Drop, J: Device> {
    databases: Vec<Connection<S>>,
    /// Whether that is each one that there was.
    is_whole: bool,
    journal: Option<J>,
    /// What could not be written to the journal.
    closed: Result<(), StoreRefusal>,
    found: Found,
}

// How many bytes from this place on are not zero.
fn torn_bytes(bytes: &[u8], at: usize) -> usize {
    match bytes.split_at_checked(at) {
        Some((_, rest)) => rest.iter().filter(|byte| **byte != 0).count(),
        None => 0,
    }
}

// Where the last journal is to be cut, if anything follows its last whole block.
fn cut_of(journal: u64, bytes: &[u8], end: End) -> Option<Cut> {
    if end.at >= bytes.len() {
        return None;
    }
    Some(Cut {
        journal,
        at: end.at,
        bytes: torn_bytes(bytes, end.at),
    })
}

// Reads one journal by itself; none where it has no whole block. 55 where bytes follow its last one that no write left that was cut short.
fn read_alone(
    rt: &HostRuntime,
    alloc: Global,
    dir: &str,
    form: &Form,
    journal: u64,
) -> Result<Option<Before>, StoreRefusal> {
    let bytes = read_journal(rt, alloc, dir, journal)?;
    let mut past = Past::new(alloc, form.members)?;
    let before = if journal == 1 { Some(form.sum()) } else { None };
    let end = tell_one(alloc, journal, text_in(&bytes), before, &mut past)?;
    let at = match end {
        Some(end) => end.at,
        None => 0,
    };
    if !is_torn(&bytes, at) {
        return Err(StoreRefusal::BadJournal { journal, at });
    }
    Ok(end.map(|end| Before {
        past,
        next: journal.saturating_add(1),
        sum: end.sum,
        cut: cut_of(journal, &bytes, end),
        is_later: false,
    }))
}

// Reads the last journal. One without a whole block was begun by an opening that was cut short, and counts as not there.
fn read_before(
    rt: &HostRuntime,
    alloc: Global,
    dir: &str,
    form: &Form,
) -> Result<Before, StoreRefusal> {
    let journals = find_journals(rt, alloc, dir)?;
    if journals.has(1) && journals.last > 1 {
        check_form(rt, alloc, dir, form)?;
    }
    for back in 0..2u64 {
        let journal = journals.last.saturating_sub(back);
        if journals.has(journal) {
            if let Some(mut before) = read_alone(rt, alloc, dir, form, journal)? {
                before.is_later = journals.is_later();
                return Ok(before);
            }
        }
    }
    if journals.last > 1 {
        return Err(StoreRefusal::BadJournal {
            journal: journals.last.saturating_sub(1),
            at: 0,
        });
    }
    Ok(Before {
        past: Past::new(alloc, form.members)?,
        next: 1,
        sum: form.sum(),
        cut: None,
        is_later: false,
    })
}

// When the next journal is brought to the disk: where a power cut may lose nothing that was told, and where databases sync that it is
// written ahead of.
fn syncs_of(syncs: bool, databases_sync: bool) -> Syncs {
    if !syncs {
        Syncs::AtTheEnd
    } else if databases_sync {
        Syncs::Always
    } else {
        Syncs::WhenSettled
    }
}

// Cuts what is torn at the last journal's end, has the rest of it on the disk, and makes the next journal.
fn next_journal(
    rt: &HostRuntime,
    alloc: Global,
    dir: &str,
    before: &Before,
    syncs: Syncs,
) -> Result<JournalFile, StoreRefusal> {
    match before.cut {
        Some(cut) => cut_journal(rt, alloc, dir, cut.journal, cut.at)?,
        None if before.next > 1 => sync_journal(rt, alloc, dir, before.next - 1)?,
        None => {}
    }
    let file = new_journal(rt, alloc, dir, before.next)?;
    Ok(JournalFile::new(alloc, file, syncs))
}

// Starts each member over its database and, if each is what was told of it, begins the journal that this gives. The store, and the
// members whose database is missing.
fn go_on<K: Announces, F: FnOnce() -> Result<K::Journal, StoreRefusal>>(
    alloc: Global,
    form: &Form,
    before: &Before,
    images: Vec<Option<K::Image>>,
    begin_journal: F,
    reading: i64,
) -> Result<(Store<K>, Vec<Member>), StoreRefusal>
where
    K::Image: Drop,
    requires { F.IsAlwaysCallable begin_journal }
    ensures { IfOk result (λ p. IsRunFrom K.is_honest K.may_hold K.holds images.items p.0) }
{
    let schema = form.schema.clone()?;
    let members = Members::<K>::open(alloc, schema, images, &before.past)?;
    let missing = members.missing()?;
    let scribe = Scribe::new(alloc, begin_journal()?, before.sum);
    let store = Store::begin(members, scribe, before.next, before.past.marks, reading)?;
    Ok((store, missing))
}

// The same over databases in S.
fn go_on_over<S: Alter + Drop, J: Device, F: FnOnce() -> Result<J, StoreRefusal>>(
    alloc: Global,
    form: &Form,
    before: &Before,
    databases: Vec<Option<Connection<S>>>,
    begin_journal: F,
    reading: i64,
) -> Result<(Store<Kept<S, J>>, Vec<Member>), StoreRefusal>
    requires { F.IsAlwaysCallable begin_journal }
{
    go_on::<Kept<S, J>, F>(alloc, form, before, databases, begin_journal, reading)
}

// How a session keeps what it writes.
#[derive(Clone, Copy)]
struct Ways {
    /// Whether each commit of a database is brought to the disk.
    databases_sync: bool,
    /// When the journal is.
    journal: Syncs,
    /// Whether nothing was noted of the databases before.
    is_new: bool,
}

// How a session keeps what it writes. Where its databases need not sync that is noted before they are opened.
fn ways_in(
    rt: &HostRuntime,
    alloc: Global,
    dir: &str,
    syncs: bool,
    is_later: bool,
    noted: Noted,
) -> Result<Ways, StoreRefusal> {
    let is_noted = !is_later && (noted == Noted::ThisBoot || note_boot(rt, alloc, dir)?);
    Ok(Ways {
        databases_sync: !is_noted,
        journal: syncs_of(syncs, !is_noted),
        is_new: noted == Noted::Nothing,
    })
}

// What was opened, unless what had to follow was refused.
fn unless_refused<T: Drop>(
    opened: Result<T, StoreRefusal>,
    followed: Result<(), StoreRefusal>,
) -> Result<T, StoreRefusal> {
    let opened = opened?;
    followed?;
    Ok(opened)
}

// The databases in a folder. Those that sync are on the disk once they are open, behind the last journal, so that nothing has to be noted of
// them any more.
fn open_noted(
    rt: &HostRuntime,
    alloc: Global,
    dir: &str,
    before: &Before,
    syncs: bool,
) -> Result<Vec<Option<Database>>, StoreRefusal> {
    if !syncs {
        return open_each(rt, alloc, dir, &before.past, false);
    }
    if before.next > 1 {
        sync_journal(rt, alloc, dir, before.next - 1)?;
    }
    let opened = open_each(rt, alloc, dir, &before.past, true);
    let forgotten = match &opened {
        Ok(_) => forget_boot(rt, alloc, dir),
        Err(_) => Ok(()),
    };
    unless_refused(opened, forgotten)
}

// Goes on over the databases in a folder.
fn go_on_in(
    rt: &HostRuntime,
    alloc: Global,
    dir: &str,
    form: &Form,
    before: &Before,
    ways: Ways,
    reading: i64,
) -> Result<(Store<Kept<Stored, JournalFile>>, Vec<Member>), StoreRefusal> {
    let databases = open_noted(rt, alloc, dir, before, ways.databases_sync)?;
    let begin_journal = || next_journal(rt, alloc, dir, before, ways.journal);
    go_on_over(alloc, form, before, databases, begin_journal, reading)
}

// Whether a refusal of an opening comes before any member saved.
fn is_before_saves(refusal: &StoreRefusal) -> bool {
    !matches!(
        refusal,
        StoreRefusal::DiskFull | StoreRefusal::Refused(Refusal::StoreFault | Refusal::NoMemory)
    )
}

// Takes a new note away where an opening is refused before anything was stored.
fn withdraw_note(rt: &HostRuntime, alloc: Global, dir: &str, refusal: &StoreRefusal) {
    if is_before_saves(refusal) {
        let _ = forget_boot(rt, alloc, dir);
    }
}

// Goes on, and takes the note away that is new where this is refused before anything was stored.
fn go_on_noted(
    rt: &HostRuntime,
    alloc: Global,
    dir: &str,
    form: &Form,
    before: &Before,
    ways: Ways,
    reading: i64,
) -> Result<(Store<Kept<Stored, JournalFile>>, Vec<Member>), StoreRefusal> {
    let opened = go_on_in(rt, alloc, dir, form, before, ways, reading);
    match &opened {
        Err(refusal) if ways.is_new => withdraw_note(rt, alloc, dir, refusal),
        _ => {}
    }
    opened
}

/// Opens the store in a folder: reads what its last journal tells, which may be the only one that is there, looks whether each member's
/// database is what that says, and only then cuts what is torn at the journal's end, begins the next journal, and has a member elected. The
/// clock shows `reading`. Where it does not sync the journal, a kill of the process loses nothing, but a power cut may.
///
/// The databases are not brought to the disk before the store is closed, since they can be made anew from the journals: a note in the folder
/// says so till then. Where the first journals are away, or the system does not say which start of the machine this is, they are.
///
/// 39, 46 to 49, 55 and 57 as `StoreRefusal` says them; 38, 40 and 43 where files can't be read or written. After an error nothing is
/// changed but by 38, 40 and 43, and then what was there is not.
pub fn open(
    rt: &HostRuntime,
    alloc: Global,
    dir: &str,
    syncs: bool,
    reading: i64,
) -> Result<FolderStore, StoreRefusal> {
    let name = format!(in alloc; "{dir}")?;
    let folder = enter(rt, alloc, dir)?;
    let noted = noted_synced(rt, alloc, dir)?;
    let before = read_before(rt, alloc, dir, &folder.form)?;
    let ways = ways_in(rt, alloc, dir, syncs, before.is_later, noted)?;
    let (store, missing) = go_on_noted(rt, alloc, dir, &folder.form, &before, ways, reading)?;
    Ok(Opened {
        store,
        found: Found {
            alloc,
            folder,
            dir: name,
            journal: before.next,
            cut: before.cut,
            missing,
        },
    })
}

// The databases that are there, in the order of the members. One for which there is no memory is closed without more.
fn images_of<K: Announces>(alloc: Global, databases: Databases<K>) -> Vec<K::Image>
where
    K::Image: Drop,
{
    let mut databases = databases;
    let mut images = Vec::new(alloc);
    for member in 1..=databases.members() {
        if let Some(image) = databases.take(member) {
            let _ = images.push(image);
        }
    }
    images
}

// Ends each of these. Whether each one says that it ended well.
fn end_each<T: Drop, F: Fn(T) -> bool>(all: Vec<T>, end: F) -> bool
    requires { F.IsAlwaysCallable end }
{
    let mut are_well = true;
    for one in all {
        are_well = end(one) && are_well;
    }
    are_well
}

// Closes databases, and has them on the disk. Whether each one is.
fn close_databases(databases: Vec<Database>) -> bool {
    end_each(databases, |database| unsynced::close(database).is_ok())
}

// Gives the room back that a journal does not need.
fn finish_journal(file: Option<JournalFile>) -> Result<(), StoreRefusal> {
    match file {
        Some(file) => file.finish().map_err(|error| file_refusal(&error)),
        None => Ok(()),
    }
}

impl Found {
    /// What the store's form says.
    pub fn form(&self) -> &Form {
        &self.folder.form
    }
}

// Stops every member.
fn stop<S: Alter + Drop, J: Device>(opened: Opened<Kept<S, J>>) -> Stopped<S, J> {
    let Opened { store, found } = opened;
    let (databases, journal, closed) = store.close();
    let members = databases.members();
    let databases = images_of::<Kept<S, J>>(found.alloc, databases);
    let is_whole = databases.len().saturating_add(found.missing.len()) == members;
    Stopped {
        databases,
        is_whole,
        journal,
        closed,
        found,
    }
}

// Takes the note away where all is on the disk. The refusal of what could not be written first.
fn end_note(
    rt: &HostRuntime,
    found: &Found,
    written: Result<(), StoreRefusal>,
    are_stored: bool,
) -> Result<(), StoreRefusal> {
    written?;
    if are_stored {
        forget_boot(rt, found.alloc, found.dir.as_str())?;
    }
    Ok(())
}

/// Stops every member, gives the room back that the journal does not need, and has all that was written on the disk. The refusal of what
/// could not be written: nothing that was told is lost by it. Where a database could not be brought to the disk the note of that stays.
pub fn close(rt: &HostRuntime, opened: FolderStore) -> Result<(), StoreRefusal> {
    let Stopped {
        databases,
        is_whole,
        journal,
        closed,
        found,
    } = stop(opened);
    let are_stored = close_databases(databases) && is_whole;
    let finished = finish_journal(journal);
    end_note(rt, &found, closed.and(finished), are_stored)
}
