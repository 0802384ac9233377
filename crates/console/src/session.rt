//! A sitting at a store: lines that come in, and what comes of them at once.
ghost use Rattle.std.specs.Prelude.{◌≡◌, ◌≢◌, true, false, IfErr, IfSome, IsOk, OnOk};
ghost use Rattle.store.specs.Journals.{IsSettled, IsSpent};
ghost use Rattle.console.specs.Sittings.{IsOfPrinting};

use crate::held::Held;
use crate::outputs::Manner;
use crate::printing::{banner, name_of, print, refusal_lines, warnings};
use crate::room::warn_of_room;
use crate::stop::Fault;
use fault::Refusal;
use model::stamp::Stamp;
use std::alloc::Global;
use store::announcing::Announces;
use store::room::NEARLY_FULL;
use store::status::Status;
use store::{Store, StoreRefusal};
use storecommands::dot::Form;
use storefolder::{Found, reading_of};

// How far ahead of the clock, in microseconds, a store's time may be before it is told.
const AHEAD_MOST: i64 = 60_000_000;

// The latest time that a member has closed, where that is so far ahead of what the clock shows.
fn time_ahead(members: &[Status], reading: i64) -> Option<Stamp> {
    let most = u64::try_from(reading.saturating_add(AHEAD_MOST)).unwrap_or(0);
    let closed = members.iter().filter_map(|status| status.closed);
    closed
        .max_by_key(|closed| closed.micros())
        .filter(|latest| latest.micros() > most)
}

/// What is known of the place that lines come from and outcomes go to.
#[derive(Clone, Copy, Debug)]
pub(crate) struct Place<'a> {
    /// The folder.
    pub dir: &'a str,
    /// The name of the input: `-` for standard input.
    pub name: &'a str,
    /// Whether somebody sits at a terminal.
    pub is_terminal: bool,
    /// How many columns a table may have; none for any number.
    pub width: Option<usize>,
    /// How answers are shown at first.
    pub form: Form,
}

/// A sitting.
#[derive(Drop)]
pub(crate) struct Session<'a, K: Announces>
where
    K::Image: Drop,
{
    pub alloc: Global,
    pub place: Place<'a>,
    pub store: Store<K>,
    /// What its opening found.
    pub found: &'a Found,
    /// What clocks show, if not the system's.
    pub clock: Option<i64>,
    pub manner: Manner,
    /// What came of requests, and is not told yet.
    pub held: Held,
    /// The line, from 1, at which what is taken begins.
    pub line: usize,
    /// Whether the last answer was shown as CSV.
    pub is_behind_csv: bool,
    /// Whether anything was refused.
    pub is_refused: bool,
    /// How many entries the log has to have when it is next said that it is nearly full.
    pub warns_from: usize,
}

impl<'a, K: Announces> Session<'a, K>
where
    K::Image: Drop,
{
    pub fn new(
        alloc: Global,
        place: Place<'a>,
        store: Store<K>,
        found: &'a Found,
        clock: Option<i64>,
    ) -> Session<'a, K>
        ensures store { result.store ≡ store }
        ensures nothing { (result.held.requests ≡ 0) × (result.line ≡ 0) × (result.is_refused ≡ false) }
        ensures place { (result.place ≡ place.entry) × (result.clock ≡ clock) }
    {
        Session {
            alloc,
            place,
            store,
            found,
            clock,
            manner: Manner {
                form: place.form,
                is_terminal: place.is_terminal,
                width: place.width,
            },
            held: Held::none(alloc),
            line: 0,
            is_behind_csv: false,
            is_refused: false,
            warns_from: NEARLY_FULL,
        }
    }

    /// Ends the sitting: the store, and whether anything was refused.
    pub fn end(self) -> (Store<K>, bool)
        ensures { (result.0 ≡ self.entry.store) × (result.1 ≡ self.entry.is_refused) }
    {
        let Session {
            store,
            is_refused,
            ..
        } = self;
        (store, is_refused)
    }

    // Says on standard error that the store's time is ahead of the clock, where it is by more than a minute.
    fn warn_of_time(&self, rt: &HostRuntime) -> Result<(), Fault> {
        let reading = self.reading(rt)?;
        if let Some(latest) = time_ahead(&self.store.status()?, reading) {
            let instant = latest.instant();
            let _ = eprintln!(*rt;
                "the store's time is {instant}, ahead of the clock: what is stored now is stamped behind that"
            );
        }
        Ok(())
    }

    /// Says what was cut and what is missing, and where the store's time is ahead of the clock; and, at a terminal, what is there.
    pub fn greet(&self, rt: &HostRuntime) -> Result<(), Fault> {
        let warned = warnings(self.alloc, self.found)?;
        if !warned.is_empty() {
            let _ = eprint!(*rt; "{warned}");
        }
        self.warn_of_time(rt)?;
        if self.place.is_terminal {
            let line = banner(self.alloc, self.place.dir, &self.store, self.place.width)?;
            print(rt, line.as_str())?;
        }
        Ok(())
    }

    /// Says on standard error that the log is nearly full: once nine tenths of it are, and every thousand entries from then on.
    pub fn warn(&mut self, rt: &HostRuntime) -> Result<(), Fault>
        ensures { self.new ≡ record self.old { warns_from = self.new.warns_from } }
    {
        self.warns_from = warn_of_room(rt, self.alloc, &self.store, self.warns_from)?;
        Ok(())
    }

    /// At a terminal: the store's name or, for a line that goes on, an arrow.
    pub fn prompt(&self, rt: &HostRuntime, is_first: bool) -> Result<(), Fault>
        ensures elsewhere { self.now.place.is_terminal ≡ false → IsOk result }
        ensures why { IfErr result IsOfPrinting }
    {
        if !self.place.is_terminal {
            return Ok(());
        }
        if !is_first {
            return print(rt, "  -> ");
        }
        let alloc = self.alloc;
        let name = name_of(self.place.dir);
        let line = format!(in alloc; "{name:.20}> ")?;
        print(rt, line.as_str())
    }

    /// Shows a refusal; one of a store that is spent ends the sitting.
    pub fn refuse(
        &mut self,
        rt: &HostRuntime,
        before: &str,
        refusal: StoreRefusal,
    ) -> Result<(), Fault>
        ensures noted { self.new ≡ record self.old { is_refused = true } }
        ensures ends { IsSpent self.old.store.scribe → result ≡ Err (Fault.Refused refusal) }
        ensures goes_on { ¬ IsSpent self.old.store.scribe → IfErr result IsOfPrinting }
    {
        self.is_refused = true;
        if self.store.is_spent() {
            return Err(Fault::Refused(refusal));
        }
        let alloc = self.alloc;
        let lines = refusal_lines(alloc, &refusal)?;
        let text = format!(in alloc; "{before}refused {lines}")?;
        print(rt, text.as_str())
    }

    /// Says, behind what is held, where a line is that asks for nothing.
    pub fn complain(&mut self, rt: &HostRuntime, line: usize) -> Result<(), Fault>
        ensures held { self.new.held.requests ≡ 0 }
        ensures settled { OnOk result (self.old.held.requests ≢ 0 → IsSettled K.Journal.is_settled self.new.store.scribe) }
        ensures noted { OnOk result (self.new.is_refused ≡ true) }
    {
        self.tell_held(rt)?;
        self.is_refused = true;
        let alloc = self.alloc;
        let name = self.place.name;
        let refusal = Refusal::BadScript(line);
        let text = format!(in alloc; "{name}:{line}:1: {refusal}\n")?;
        print(rt, text.as_str())?;
        if self.place.is_terminal {
            print(rt, "        .help tells what can be typed\n")?;
        }
        Ok(())
    }

    /// What clocks show.
    pub fn reading(&self, rt: &HostRuntime) -> Result<i64, StoreRefusal>
        ensures { IfSome self.now.clock (λ reading. result ≡ Ok reading) }
    {
        reading_of(rt, self.clock)
    }
}
