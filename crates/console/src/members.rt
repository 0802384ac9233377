//! What a sitting does with members.
use crate::help::HELP;
use crate::printing::{leads, print, status_lines};
use crate::session::Session;
use crate::stop::Fault;
use diagnosis::no_table;
use model::member::Member;
use sqlchecks::column::find_table;
use store::StoreRefusal;
use store::announcing::Announces;
use storecommands::DotCommand;

// The declaration of the table at this place in the text of a schema, without the semicolon that ends it. No other semicolons stand
// in such a text.
fn declared_at(schema: &str, place: usize) -> &str {
    match schema.split(';').nth(place) {
        Some(declared) => declared.trim(),
        None => "",
    }
}

impl<'a, K: Announces> Session<'a, K>
where
    K::Image: Drop,
{
    fn stop(&mut self, rt: &HostRuntime, member: Member) -> Result<(), Fault> {
        let reading = self.reading(rt)?;
        match self.store.stop(member) {
            Ok(()) => {
                let leader = self.store.lead(reading)?;
                self.tell_of(rt, member, "down", leader)
            }
            Err(refusal) => self.refuse_member(rt, member, refusal),
        }
    }

    fn start(&mut self, rt: &HostRuntime, member: Member) -> Result<(), Fault> {
        let reading = self.reading(rt)?;
        match self.store.start(reading, member) {
            Ok(()) => {
                let leader = self.store.leader();
                self.tell_of(rt, member, "up", leader)
            }
            Err(refusal) => self.refuse_member(rt, member, refusal),
        }
    }

    fn tell_of(
        &self,
        rt: &HostRuntime,
        member: Member,
        how: &str,
        leader: Option<Member>,
    ) -> Result<(), Fault> {
        let alloc = self.alloc;
        let leads = leads(alloc, leader)?;
        let line = format!(in alloc; "node {member} is {how}; {leads}\n")?;
        print(rt, line.as_str())
    }

    fn refuse_member(
        &mut self,
        rt: &HostRuntime,
        member: Member,
        refusal: StoreRefusal,
    ) -> Result<(), Fault> {
        let alloc = self.alloc;
        let before = format!(in alloc; "node {member} ")?;
        self.refuse(rt, before.as_str(), refusal)
    }

    fn show_status(&self, rt: &HostRuntime) -> Result<(), Fault> {
        let all = self.store.status()?;
        let lines = status_lines(self.alloc, all.as_slice(), self.store.room())?;
        print(rt, lines.as_str())
    }

    fn show_schema(&self, rt: &HostRuntime) -> Result<(), Fault> {
        print(rt, self.found.form().schema_text.as_str())?;
        print(rt, "\n")
    }

    // Shows the table of this name as it was declared. 11 where there is none, and at a terminal which one may be meant.
    fn show_table(&mut self, rt: &HostRuntime, name: &str) -> Result<(), Fault> {
        let alloc = self.alloc;
        match find_table(self.store.schema(), name) {
            Ok(place) => {
                let declared = declared_at(self.found.form().schema_text.as_str(), place);
                let lines = format!(in alloc; "{declared};\n")?;
                print(rt, lines.as_str())
            }
            Err(refusal) => {
                self.refuse(rt, "", StoreRefusal::from(refusal))?;
                self.hint_at_table(rt, name)
            }
        }
    }

    // At a terminal: that no table has this name.
    fn hint_at_table(&self, rt: &HostRuntime, name: &str) -> Result<(), Fault> {
        if !self.place.is_terminal {
            return Ok(());
        }
        let alloc = self.alloc;
        let hint = no_table(alloc, self.store.schema(), name)?;
        let line = format!(in alloc; "        {hint}\n")?;
        print(rt, line.as_str())
    }

    /// Obeys a command that is a line by itself, behind what is held unless it is a request too. Whether the sitting goes on.
    pub fn obey(&mut self, rt: &HostRuntime, command: DotCommand<'_>) -> Result<bool, Fault> {
        if !matches!(command, DotCommand::Submit(_, _, _)) {
            self.tell_held(rt)?;
        }
        match command {
            DotCommand::Stop(member) => self.stop(rt, member)?,
            DotCommand::Start(member) => self.start(rt, member)?,
            DotCommand::Status => self.show_status(rt)?,
            DotCommand::Schema => self.show_schema(rt)?,
            DotCommand::SchemaOf(table) => self.show_table(rt, table)?,
            DotCommand::Help => print(rt, HELP)?,
            DotCommand::Clock(reading) => self.clock = Some(reading),
            DotCommand::Format(form) => self.manner.form = form,
            DotCommand::Beliefs(text) => self.draw(rt, text)?,
            DotCommand::Submit(client, number, text) => self.submit(rt, client, number, text)?,
            DotCommand::Quit => return Ok(false),
        }
        Ok(true)
    }
}
