//! The files of a run in its folder.
use diagnosis::{Cause, Found, Name, Trouble};
use fault::Refusal;
use std::alloc::Global;
use std::rt::Files;
use std::{fs, io};

/// A folder, and how many nodes have files in it: each node K its database `nodeK.db`, beside it what SQLite may make of
/// that, and its flight `nodeK.flight`.
#[derive(Clone, Copy, Debug)]
pub struct Folder<'a> {
    pub name: &'a str,
    pub nodes: u8,
}

const THERE: &str = "this file is there already; name a folder without it";

impl<'a> Folder<'a> {
    pub(crate) fn file(self, node: u8, end: &'static str) -> Name<'a> {
        let folder = self.name;
        Name::OfNode { folder, node, end }
    }

    /// Refuses 44 a folder that has any of these files, and 40 one that is not there or can't be looked at.
    pub(crate) fn check<R: Files>(self, rt: &R, alloc: Global) -> Result<(), Trouble<'a>> {
        self.check_there(rt)?;
        for at in 0..self.nodes {
            self.check_node(rt, alloc, at.saturating_add(1))?;
        }
        Ok(())
    }

    fn check_there<R: Files>(self, rt: &R) -> Result<(), Trouble<'a>> {
        let file = Name::Given(self.name);
        let tried = "looking at the folder";
        match fs::metadata(rt, self.name) {
            Ok(found) if found.is_dir() => Ok(()),
            Ok(_) => Err(in_words(file, tried, Refusal::StoreFault, "it is no folder")),
            Err(error) if error.kind() == io::ErrorKind::NotFound => {
                let words = "there is no such folder; make it first";
                Err(in_words(file, tried, Refusal::StoreFault, words))
            }
            Err(error) => Err(Trouble::of_system(file, tried, Refusal::StoreFault, error)),
        }
    }

    fn check_node<R: Files>(self, rt: &R, alloc: Global, node: u8) -> Result<(), Trouble<'a>> {
        let ends = [".db", ".db-wal", ".db-shm", ".db-journal", ".flight"];
        for end in ends {
            check_free(rt, alloc, self.file(node, end))?;
        }
        Ok(())
    }
}

/// A refusal that came of a file, of which these words tell.
pub(crate) fn in_words<'a>(
    file: Name<'a>,
    tried: &'static str,
    refusal: Refusal,
    words: &'static str,
) -> Trouble<'a> {
    let found = Found::Words(words);
    Trouble {
        refusal,
        cause: Cause { file, tried, found },
    }
}

/// 44, since this file is there already.
pub(crate) fn there_already<'a>(file: Name<'a>) -> Trouble<'a> {
    in_words(
        file,
        "making the files of a new run",
        Refusal::BadStore,
        THERE,
    )
}

/// 43, for what was tried with this file.
pub(crate) fn no_memory<'a>(file: Name<'a>, tried: &'static str) -> Trouble<'a> {
    in_words(file, tried, Refusal::NoMemory, "memory was refused")
}

/// The path of a file; 43 for want of memory.
pub(crate) fn path_of<'a>(alloc: Global, file: Name<'a>) -> Result<String, Trouble<'a>> {
    match format!(in alloc; "{file}") {
        Ok(path) => Ok(path),
        Err(_) => Err(no_memory(file, "naming the file")),
    }
}

// Refuses 44 a file that is there, also one that is a link to nothing.
fn check_free<'a, R: Files>(rt: &R, alloc: Global, file: Name<'a>) -> Result<(), Trouble<'a>> {
    let path = path_of(alloc, file)?;
    match fs::symlink_metadata(rt, path.as_str()) {
        Ok(_) => Err(there_already(file)),
        Err(error) if error.kind() == io::ErrorKind::NotFound => Ok(()),
        Err(error) => {
            let tried = "looking whether the file is there";
            Err(Trouble::of_system(file, tried, Refusal::StoreFault, error))
        }
    }
}
