//! Requests and questions of a sitting.
ghost use Rattle.std.specs.Prelude.{◌≡◌, ◌≢◌, true, IsErr, OnOk};
ghost use Rattle.store.specs.Journals.{IsSettled, IsSpent};

use crate::outputs::{shown_answer, shown_outcome};
use crate::printing::{print, print_bytes};
use crate::session::Session;
use crate::stop::Fault;
use diagnosis::{fault_in_question, fault_in_request};
use fault::Refusal;
use forms::asked_by;
use model::member::Member;
use model::request::{Client, RequestNumber};
use std::alloc::AllocError;
use store::announcing::Announces;
use store::chain::OWN_CLIENT;
use store::{Outcome, StoreRefusal};
use storecommands::dot::Form;
use storecommands::{Kind, read_kind};

// Whether a refusal is one of a text by itself: 10 to 18.
fn is_refused_text(refusal: &Refusal) -> bool {
    refusal.number() < 20
}

/// Whether it is a text that is refused.
pub(crate) fn is_of_text(refusal: &StoreRefusal) -> bool {
    match refusal {
        StoreRefusal::Refused(refusal) => is_refused_text(refusal),
        _ => false,
    }
}

fn is_of_outcome(outcome: &Outcome) -> bool {
    match outcome {
        Outcome::Refused(refusal) => is_refused_text(refusal),
        _ => false,
    }
}

// Shows what is wrong in a text, if memory suffices for it.
fn show_fault(rt: &HostRuntime, fault: Result<Option<String>, AllocError>) -> Result<(), Fault> {
    match fault {
        Ok(Some(lines)) => print(rt, lines.as_str()),
        Ok(None) | Err(_) => Ok(()),
    }
}

impl<'a, K: Announces> Session<'a, K>
where
    K::Image: Drop,
{
    /// Hands in a request of a client, and holds what came of it or shows it. What is held is let go only once the store has settled.
    pub fn submit(
        &mut self,
        rt: &HostRuntime,
        client: Client,
        number: RequestNumber,
        text: &str,
    ) -> Result<(), Fault>
        ensures settled { OnOk result (self.old.held.requests ≢ 0 → self.new.held.requests ≡ 0 → IsSettled K.Journal.is_settled self.new.store.scribe) }
        ensures spent { IsSpent self.old.store.scribe → IsErr result }
    {
        let reading = self.reading(rt)?;
        match self.store.submit_unsettled(reading, client, number, text) {
            Ok(outcome) => self.show_outcome(rt, client, number, outcome, text),
            Err(refusal) => self.refuse_request(rt, refusal),
        }
    }

    // The same in the store's own name.
    fn execute(&mut self, rt: &HostRuntime, text: &str) -> Result<(), Fault>
        ensures settled { OnOk result (self.old.held.requests ≢ 0 → self.new.held.requests ≡ 0 → IsSettled K.Journal.is_settled self.new.store.scribe) }
    {
        let reading = self.reading(rt)?;
        let Some(client) = Client::new(OWN_CLIENT) else {
            return Ok(());
        };
        match self.store.execute_unsettled(reading, text) {
            Ok((number, outcome)) => self.show_outcome(rt, client, number, outcome, text),
            Err(refusal) => self.refuse_request(rt, refusal),
        }
    }

    // Shows the store's refusal of a request, behind what is held.
    fn refuse_request(&mut self, rt: &HostRuntime, refusal: StoreRefusal) -> Result<(), Fault>
        ensures held { self.new.held.requests ≡ 0 }
        ensures settled { OnOk result (self.old.held.requests ≢ 0 → IsSettled K.Journal.is_settled self.new.store.scribe) }
        ensures spent { IsSpent self.old.store.scribe → IsErr result }
    {
        self.tell_held(rt)?;
        self.refuse(rt, "", refusal)
    }

    // Holds what came of a request, to be shown once the store has settled; where its text is refused, that is shown at once.
    fn show_outcome(
        &mut self,
        rt: &HostRuntime,
        client: Client,
        number: RequestNumber,
        outcome: Outcome,
        text: &str,
    ) -> Result<(), Fault>
        ensures settled { OnOk result (self.new.held.requests ≡ 0 → IsSettled K.Journal.is_settled self.new.store.scribe) }
    {
        if !matches!(outcome, Outcome::Accepted(_)) {
            self.is_refused = true;
        }
        let is_of_text = is_of_outcome(&outcome);
        let line = shown_outcome(self.alloc, self.manner, client, number, outcome)?;
        self.hold(rt, line.as_slice())?;
        if is_of_text {
            self.tell_held(rt)?;
            let fault = fault_in_request(self.alloc, self.store.schema(), text);
            return self.show_place(rt, fault);
        }
        Ok(())
    }

    // Shows where a text is refused, if memory suffices for it: to somebody at a terminal below its refusal, but not among JSON objects; else
    // on standard error, with the line at which it begins.
    fn show_place(
        &self,
        rt: &HostRuntime,
        fault: Result<Option<String>, AllocError>,
    ) -> Result<(), Fault> {
        if self.points_at_faults() {
            return show_fault(rt, fault);
        }
        let name = self.place.name;
        let line = self.line;
        match fault {
            Ok(Some(lines)) if !self.place.is_terminal => {
                let _ = eprint!(*rt;
                    "{name}:{line}: the text that begins here is refused\n{lines}"
                );
            }
            _ => {}
        }
        Ok(())
    }

    // Whether it is shown where a text is refused: to somebody at a terminal, but not among JSON objects.
    fn points_at_faults(&self) -> bool {
        self.place.is_terminal && self.manner.form != Form::Json
    }

    /// Shows the refusal of a question that a member was asked, and where its text is refused.
    pub fn refuse_question(
        &mut self,
        rt: &HostRuntime,
        member: Member,
        text: &str,
        refusal: StoreRefusal,
    ) -> Result<(), Fault>
        ensures held { self.new.held ≡ self.old.held }
        ensures noted { OnOk result (self.new.is_refused ≡ true) }
        ensures ends { IsSpent self.old.store.scribe → IsErr result }
    {
        let alloc = self.alloc;
        let is_of_text = is_of_text(&refusal);
        let before = format!(in alloc; "node {member} ")?;
        self.refuse(rt, before.as_str(), refusal)?;
        if is_of_text {
            let fault = fault_in_question(alloc, self.store.schema(), text);
            return self.show_place(rt, fault);
        }
        Ok(())
    }

    // Asks a member, or if none is named the one that is asked first, and shows the answer, behind what is held.
    fn ask(&mut self, rt: &HostRuntime, member: Option<Member>, text: &str) -> Result<(), Fault>
        ensures held { self.new.held.requests ≡ 0 }
    {
        self.tell_held(rt)?;
        let reading = self.reading(rt)?;
        let member = match member {
            Some(member) => member,
            None => self.store.first_asked(),
        };
        let alloc = self.alloc;
        match self.store.ask(reading, member, text) {
            Ok(answer) => {
                let asked = asked_by(alloc, self.store.schema(), text);
                let is_next = self.is_behind_csv;
                let shown = shown_answer(alloc, self.manner, is_next, member, answer, asked)?;
                self.is_behind_csv = self.manner.form == Form::Csv;
                print_bytes(rt, shown.as_slice())
            }
            Err(refusal) => self.refuse_question(rt, member, text, refusal),
        }
    }

    /// Takes a text that is whole, whose first line is this one.
    pub fn take_text(&mut self, rt: &HostRuntime, text: &str, line: usize) -> Result<(), Fault> {
        self.line = line;
        match read_kind(text) {
            Some((Kind::Question(member), words)) => self.ask(rt, member, words),
            Some((Kind::Own, words)) => self.execute(rt, words),
            None => self.complain(rt, line),
        }
    }
}
