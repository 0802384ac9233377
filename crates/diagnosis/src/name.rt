//! The names of files.
ghost use Rattle.std.specs.Prelude.{Some};
ghost use Rattle.diagnosis.specs.Names.{name_text};

use std::fmt;

/// The name of a file or a folder, as it was given or as it follows from the folder that was given.
#[derive(Clone, Copy, Debug)]
pub enum Name<'a> {
    /// What is read is standard input.
    Input,
    /// What was given.
    Given(&'a str),
    /// The file of a node in the folder that was given, by the end of its name, as `.db`.
    OfNode {
        folder: &'a str,
        node: u8,
        end: &'static str,
    },
}

/// The name as a path, by which the file is found; of standard input these words.
impl fmt::Display for Name<'_> {
    ghost output = { λ name. Some (name_text name) };

    fn fmt<W: fmt::Write>(&self, f: &mut fmt::Formatter<W>) -> fmt::Result {
        match self {
            Name::Input => f.write_str("standard input"),
            Name::Given(name) => f.write_str(name),
            Name::OfNode { folder, node, end } => write!(f, "{folder}/node{node}{end}"),
        }
    }
}
