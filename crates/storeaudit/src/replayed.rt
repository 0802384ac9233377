//! What else the journals of a store give: its decided requests, and the flights of its members.
use crate::later::play_later;
use answertext::outlet::WriteFault;
use fault::{Refusal, Text};
use flight::flight::{Flight, Version};
use flight::{Records, write_flight};
use model::member::Member;
use playback::Play;
use progressline::Progress;
use std::alloc::Global;
use std::fs;
use std::fs::File;
use store::StoreRefusal;
use storefolder::{enter, file_refusal, find_journals, tell_all};

/// The journals of the store in a folder, played: its requests that are decided, in the order of the log. What `audit` refuses, and
/// each of its faults but 53 and, where all journals are there, 49. How many journals are played is told to who asks for it.
pub fn replay<Q: Progress>(
    rt: &HostRuntime,
    alloc: Global,
    dir: &str,
    progress: &Q,
) -> Result<Play, StoreRefusal> {
    let folder = enter(rt, alloc, dir)?;
    let form = &folder.form;
    let journals = find_journals(rt, alloc, dir)?;
    if journals.is_later() {
        let (play, _) = play_later(rt, alloc, dir, form, journals, progress)?;
        return Ok(play);
    }
    let mut play = Play::new(alloc, form.members, form.schema.clone()?, false)?;
    tell_all(rt, alloc, dir, form, journals, &mut play, progress)?;
    Ok(play)
}

fn fault_refusal(fault: WriteFault) -> StoreRefusal {
    match fault {
        WriteFault::NoMemory => StoreRefusal::Refused(Refusal::NoMemory),
        WriteFault::Writer(error) => file_refusal(&error),
    }
}

// Writes a flight into a new file; one that is there already is refused 56.
fn write_one(
    rt: &HostRuntime,
    alloc: Global,
    out: &str,
    flight: &Flight,
) -> Result<(), StoreRefusal> {
    let node = flight.node;
    let path = format!(in alloc; "{out}/node{node}.flight")?;
    let mut file = match File::create_new(rt, path.as_str()) {
        Ok(file) => file,
        Err(error) if error.kind() == std::io::ErrorKind::AlreadyExists => {
            return Err(StoreRefusal::NotEmpty);
        }
        Err(error) => return Err(file_refusal(&error)),
    };
    write_flight(alloc, flight, &mut file).map_err(fault_refusal)
}

fn write_all(
    rt: &HostRuntime,
    alloc: Global,
    out: &str,
    schema: &Text,
    records: Records,
) -> Result<(), StoreRefusal> {
    let Records { lives, answers } = records;
    let members = lives.len();
    let mut node: Member = 0;
    for (lives, answers) in lives.into_iter().zip(answers) {
        node = node.saturating_add(1);
        let flight = Flight {
            version: Version::Three,
            node,
            members,
            schema: schema.clone()?,
            lives,
            answers,
        };
        write_one(rt, alloc, out, &flight)?;
    }
    Ok(())
}

// Makes a folder where there is none.
fn make_folder(rt: &HostRuntime, out: &str) -> Result<(), StoreRefusal> {
    match fs::exists(rt, out) {
        Ok(true) => Ok(()),
        Ok(false) => fs::create_dir(rt, out).map_err(|error| file_refusal(&error)),
        Err(error) => Err(file_refusal(&error)),
    }
}

/// Writes the flights of the store in a folder into new files of another folder, which is made if it is not there: `node1.flight` and so
/// on, as `live` writes them. What `replay` refuses; 55 of the journal before the first one, where that is away; 56 where one of these files is there already; 40 where one can't be written. How
/// many journals are played is told to who asks for it.
pub fn flights<Q: Progress>(
    rt: &HostRuntime,
    alloc: Global,
    dir: &str,
    out: &str,
    progress: &Q,
) -> Result<(), StoreRefusal> {
    let folder = enter(rt, alloc, dir)?;
    let form = &folder.form;
    let journals = find_journals(rt, alloc, dir)?;
    if journals.is_later() {
        return Err(journals.refusal_before());
    }
    let mut play = Play::new(alloc, form.members, form.schema.clone()?, true)?;
    tell_all(rt, alloc, dir, form, journals, &mut play, progress)?;
    let records = play.into_records()?;
    make_folder(rt, out)?;
    write_all(rt, alloc, out, &form.schema_text, records)
}
