//! Refusals, with their numbers and texts.
ghost use Rattle.std.specs.Prelude.{◌≡◌, Some};
ghost use Rattle.std.specs.Fmt.{DisplaysOnOk};
ghost use Rattle.fault.specs.Refusal.{number_of, text_of, shown};
ghost use Rattle.fault.specs.declared.refusal.Refusal.TheVariants.{NoMemory};

use crate::text::Text;
use std::alloc::{AllocError, AllocFailed};
use std::error::Error;
use std::fmt;

/// Why a request was refused. Each refusal has a number, by tens: 10 to 18 of a text, 20 to 23 of a
/// transaction, 30 to 37 of a request or a node, 40 to 45 of a store, memory or a node's end, 50 to 54
/// of an audit, 60 of a script.
///
/// Instants, days and key literals are texts that the refuser has printed, so a refusal is made
/// from what it is given and takes no memory. Nodes and lines count from 1.
#[derive(Clone, Debug, PartialEq, Eq, Drop)]
pub enum Refusal {
    /// 10: the text is not in the grammar. No text of the grammar goes on from this byte, counted
    /// from 0; it is the text's length where that ends too early.
    Syntax(usize),
    /// 11: no table of this name is declared.
    UnknownTable,
    /// 12: no column or period of this name is declared, or one that is needed is left out.
    UnknownColumn,
    /// 13: a literal of another type than the column's, or another number of values.
    WrongType,
    /// 14: a column that is not set here, as a key or system column, or one that is named twice.
    NotAssignable,
    /// 15: a period, portion or span of instants that does not start before its end.
    EmptyPeriod,
    /// 16: a number, day, instant or text that its type does not have.
    OutOfRange,
    /// 17: more bytes, tables, columns or statements than are taken.
    TooLarge,
    /// 18: a schema whose parts do not fit together.
    BadSchema,
    /// 20: an INSERT of a key that has a row on a day of the period.
    KeyOverlap,
    /// 21: a row of this table, with the key's literals joined by commas, has no parent on this day.
    NoParent { table: Text, key: Text, day: Text },
    /// 22: a table would have more than 20,000 current rows.
    RowLimit,
    /// 23: SET would give a number outside 64 bits signed.
    NumberRange,
    /// 30: the number lies below those of the client's latest eight that were executed.
    Old,
    /// 31: the number lies above the client's next one.
    Gap,
    /// 32: the node is not the leader. The node to try in its place, if it knows one.
    NotLeader(Option<usize>),
    /// 33: the query asks about an instant that is not closed. The instant that is, if any.
    NotClosed(Option<Text>),
    /// 35: no stamp is left: the last entry bears the last instant, or the member's floor is the last instant.
    TimeFull,
    /// 36: the log has all the entries that it may have.
    LogFull,
    /// 37: the node's term is the last one.
    TermFull,
    /// 40: the store failed.
    StoreFault,
    /// 41: the node, or the store that was asked, is down.
    NodeDown,
    /// 42: the life has all the steps that it may have, or no mark is left.
    LifeFull,
    /// 43: no memory was found.
    NoMemory,
    /// 44: what the store holds is no term, vote, floor and log.
    BadStore,
    /// 45: no view can be had, or the token is of another view.
    NoView,
    /// 50: the text is no flight file.
    BadFlight,
    /// 51: the life of this node that has this mark does not go on from what was there before.
    BrokenLife { node: usize, mark: u64 },
    /// 52: this node took a message at this mark that its sender did not send.
    Unsent { node: usize, mark: u64 },
    /// 53: the marks do not rise at this node, at this mark.
    StampOrder { node: usize, mark: u64 },
    /// 54: this node's answer at this mark, or what it told of requests there, is not what the replay gives.
    WrongAnswer { node: usize, mark: u64 },
    /// 60: the script's line that is at fault, or 0 for a script that cannot be read.
    BadScript(usize),
}

impl Refusal {
    /// The number by which a refusal is known, from 10 to 60. Takes no memory.
    pub fn number(&self) -> u8
        ensures { result ≡ number_of self.now }
    {
        match self {
            Refusal::Syntax(_) => 10,
            Refusal::UnknownTable => 11,
            Refusal::UnknownColumn => 12,
            Refusal::WrongType => 13,
            Refusal::NotAssignable => 14,
            Refusal::EmptyPeriod => 15,
            Refusal::OutOfRange => 16,
            Refusal::TooLarge => 17,
            Refusal::BadSchema => 18,
            Refusal::KeyOverlap => 20,
            Refusal::NoParent { .. } => 21,
            Refusal::RowLimit => 22,
            Refusal::NumberRange => 23,
            Refusal::Old => 30,
            Refusal::Gap => 31,
            Refusal::NotLeader(_) => 32,
            Refusal::NotClosed(_) => 33,
            Refusal::TimeFull => 35,
            Refusal::LogFull => 36,
            Refusal::TermFull => 37,
            Refusal::StoreFault => 40,
            Refusal::NodeDown => 41,
            Refusal::LifeFull => 42,
            Refusal::NoMemory => 43,
            Refusal::BadStore => 44,
            Refusal::NoView => 45,
            Refusal::BadFlight => 50,
            Refusal::BrokenLife { .. } => 51,
            Refusal::Unsent { .. } => 52,
            Refusal::StampOrder { .. } => 53,
            Refusal::WrongAnswer { .. } => 54,
            Refusal::BadScript(_) => 60,
        }
    }
}

/// The number, a space and the text.
impl fmt::Display for Refusal {
    ghost output = { λ r. Some (shown r) };

    fn fmt<W: fmt::Write>(&self, f: &mut fmt::Formatter<W>) -> fmt::Result {
        let number = self.number();
        write!(f, "{number} ")?;
        write_text(self, f)
    }
}

// The text without the number.
fn write_text<W: fmt::Write>(refusal: &Refusal, f: &mut fmt::Formatter<W>) -> fmt::Result
    ensures { DisplaysOnOk W.write_str_gives f.old result (Some (text_of refusal.now)) f.new }
{
    match refusal {
        Refusal::Syntax(at) => write!(f, "syntax error at byte {at}"),
        Refusal::UnknownTable => f.write_str("unknown table"),
        Refusal::UnknownColumn => f.write_str("unknown column"),
        Refusal::WrongType => f.write_str("wrong type"),
        Refusal::NotAssignable => f.write_str("not assignable"),
        Refusal::EmptyPeriod => f.write_str("empty period"),
        Refusal::OutOfRange => f.write_str("value out of range"),
        Refusal::TooLarge => f.write_str("too large"),
        Refusal::BadSchema => f.write_str("bad schema"),
        Refusal::KeyOverlap => f.write_str("key overlap"),
        Refusal::NoParent { table, key, day } => {
            write!(f, "no parent for {table} ({key}) on {day}")
        }
        Refusal::RowLimit => f.write_str("row limit"),
        Refusal::NumberRange => f.write_str("number out of range"),
        Refusal::Old => f.write_str("old request"),
        Refusal::Gap => f.write_str("gap in requests"),
        Refusal::NotLeader(Some(node)) => write!(f, "not leader, try {node}"),
        Refusal::NotLeader(None) => f.write_str("not leader"),
        Refusal::NotClosed(Some(instant)) => write!(f, "not closed, closed to {instant}"),
        Refusal::NotClosed(None) => f.write_str("not closed, nothing closed"),
        Refusal::TimeFull => f.write_str("time is full"),
        Refusal::LogFull => f.write_str("log is full"),
        Refusal::TermFull => f.write_str("term is full"),
        Refusal::StoreFault => f.write_str("store fault"),
        Refusal::NodeDown => f.write_str("node down"),
        Refusal::LifeFull => f.write_str("life is full"),
        Refusal::NoMemory => f.write_str("no memory"),
        Refusal::BadStore => f.write_str("bad store"),
        Refusal::NoView => f.write_str("no view"),
        Refusal::BadFlight => f.write_str("bad flight file"),
        Refusal::BrokenLife { node, mark } => { write!(f, "broken life of node {node} at {mark}") }
        Refusal::Unsent { node, mark } => { write!(f, "unsent message to node {node} at {mark}") }
        Refusal::StampOrder { node, mark } => {
            write!(f, "marks out of order at node {node} at {mark}")
        }
        Refusal::WrongAnswer { node, mark } => {
            write!(f, "wrong answer of node {node} at {mark}")
        }
        Refusal::BadScript(line) => write!(f, "bad script at line {line}"),
    }
}

impl Error for Refusal {}

impl From<AllocError> for Refusal {
    ghost from_gives = { λ _ r. r ≡ NoMemory };

    fn from(_error: AllocError) -> Refusal {
        Refusal::NoMemory
    }
}

impl<T: Drop> From<AllocFailed<T>> for Refusal {
    ghost from_gives = { λ _ r. r ≡ NoMemory };

    fn from(_error: AllocFailed<T>) -> Refusal {
        Refusal::NoMemory
    }
}
