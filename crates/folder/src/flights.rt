//! The flight files of one run.
use crate::files::{Folder, no_memory, path_of};
use answertext::outlet::WriteFault;
use diagnosis::{Name, Trouble};
use fault::{Refusal, Text};
use flight::flight::{Flight, Version};
use flight::{Records, write_flight};
use std::alloc::Global;
use std::fs;
use std::fs::File;
use std::rt::Files;

const TRIED: &str = "writing the flight";

// Writes a flight into a new file. One that can't be written to its end is removed.
fn write_one<'a, R: Files>(
    rt: &R,
    alloc: Global,
    file: Name<'a>,
    flight: &Flight,
) -> Result<(), Trouble<'a>> {
    let path = path_of(alloc, file)?;
    let mut made = match File::create_new(rt, path.as_str()) {
        Ok(made) => made,
        Err(error) => return Err(Trouble::of_system(file, TRIED, Refusal::StoreFault, error)),
    };
    let Err(fault) = write_flight(alloc, flight, &mut made) else {
        return Ok(());
    };
    let _ = fs::remove_file(rt, path.as_str());
    match fault {
        WriteFault::NoMemory => Err(no_memory(file, TRIED)),
        WriteFault::Writer(error) => {
            Err(Trouble::of_system(file, TRIED, Refusal::StoreFault, error))
        }
    }
}

/// Writes the flight of each node, in version 3, into a new file of the folder: `node1.flight`, `node2.flight` and so on.
/// 40 where one can't be made or written, 43 for want of memory.
pub fn write_flights<'a, R: Files>(
    rt: &R,
    alloc: Global,
    folder: Folder<'a>,
    schema: &Text,
    records: Records,
) -> Result<(), Trouble<'a>> {
    let Records { lives, answers } = records;
    let members = lives.len();
    let mut node: u8 = 0;
    for (lives, answers) in lives.into_iter().zip(answers) {
        node = node.saturating_add(1);
        let file = folder.file(node, ".flight");
        let Ok(schema) = schema.clone() else {
            return Err(no_memory(file, TRIED));
        };
        let flight = Flight {
            version: Version::Three,
            node: usize::from(node),
            members,
            schema,
            lives,
            answers,
        };
        write_one(rt, alloc, file, &flight)?;
    }
    Ok(())
}
