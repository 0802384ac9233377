//! A folder with the flights of a run, made a store.
use crate::group::read_run;
use crate::run::Run;
use fault::Refusal;
use journal::blocks::{FIRST_SUM, sum_after};
use model::member::Member;
use std::alloc::Global;
use std::fs;
use store::StoreRefusal;
use storefolder::{exists, file_refusal, is_new, put_store, text_of_form};

// A file of a run that is no flight of it.
fn bad_flight() -> StoreRefusal {
    StoreRefusal::Refused(Refusal::BadFlight)
}

// The texts of the flights that are there, in the order of their nodes. 50 of one that is no text.
fn read_texts(rt: &HostRuntime, alloc: Global, dir: &str) -> Result<Vec<String>, StoreRefusal> {
    let mut texts = Vec::new(alloc);
    for node in 1..8u8 {
        let path = format!(in alloc; "{dir}/node{node}.flight")?;
        if !exists(rt, path.as_str())? {
            continue;
        }
        let bytes: Vec<u8> = match fs::read(rt, path.as_str()) {
            Ok(bytes) => bytes,
            Err(error) => return Err(file_refusal(&error)),
        };
        match String::from_utf8(bytes) {
            Ok(text) => texts.push(text)?,
            Err(_) => return Err(bad_flight()),
        }
    }
    Ok(texts)
}

// Whether the folder has flights, and nothing of a store but the first journal.
fn is_run(rt: &HostRuntime, alloc: Global, dir: &str) -> Result<bool, StoreRefusal> {
    let flight = format!(in alloc; "{dir}/node1.flight")?;
    Ok(exists(rt, flight.as_str())? && is_new(rt, alloc, dir)?)
}

// The texts of a form and of a first journal for a run.
fn texts_of(alloc: Global, run: &Run) -> Result<(String, String), StoreRefusal> {
    let form = text_of_form(alloc, run.members(), run.schema_text().as_str())?;
    let sum = sum_after(FIRST_SUM, form.as_bytes());
    match run.journal(alloc, sum) {
        Ok(journal) => Ok((form, journal)),
        Err(fault) => Err(StoreRefusal::Refused(Refusal::from(fault))),
    }
}

/// Makes a store of a folder with the flights of a run and no form: its first journal spells the run. The form comes last, in one step,
/// so that where this failed or was cut short it can be done again. It gives how many members there are; none where the folder has a
/// form, or no flights, and then nothing is done.
///
/// 50 to 54 of flights that are not those of one run of a group, as an audit of them says, or are of version 1; 48 where another process
/// does this; 56 where another first journal is there; 38, 40 and 43 where files can't be read or written.
pub fn adopt_run(
    rt: &HostRuntime,
    alloc: Global,
    dir: &str,
) -> Result<Option<Member>, StoreRefusal> {
    if !is_run(rt, alloc, dir)? {
        return Ok(None);
    }
    let texts = read_texts(rt, alloc, dir)?;
    let run = read_run(alloc, &texts)?;
    let (form, journal) = texts_of(alloc, &run)?;
    if put_store(rt, alloc, dir, form.as_str(), journal.as_str())? {
        Ok(Some(run.members()))
    } else {
        Ok(None)
    }
}
