//! Playing scripts on a group.
ghost use Rattle.std.specs.Prelude.{◌≡◌, ◌≤◌, pos, [], replicate, false, IsTrue, IsErr, OnOk, OnErr, IfOk, IfErr};
ghost use Rattle.fault.specs.declared.refusal.Refusal.TheVariants.{NoMemory};
ghost use Rattle.model.specs.Worlds.{new_world};
ghost use Rattle.script.specs.Faults.{IsFaultOf, IsPlayFault};
ghost use Rattle.script.specs.Stage.{opening_stage, played, played_all};
ghost use Rattle.world.specs.Run.{events_of, members_in, now_of, tables_in};
ghost use Rattle.world.specs.View.{entry_in};

use crate::play::Play;
use crate::printer::Printer;
use crate::run_fault::RunFault;
use fault::Refusal;
use lines::line::Line;
use model::entry::Entry;
use model::member::Member;
use schema::Schema;
use std::alloc::{AllocError, Global};

/// A group, what the clock of each member shows, and which messages were delivered or lost.
#[derive(Drop)]
pub struct Player {
    play: Play,
    has_failed: bool,
    ghost live: { has_failed ≡ false → play.world.is_spent ≡ false },
}

impl Player {
    ghost use Rattle.script.specs.Player.{clocks_of, commit_of, group_of, has_failed, member_in, sent_count, standing_of, Plays};

    /// A group of 3 to 7 members with tables of this schema, at its outset, where all clocks show 0.
    pub fn new(alloc: Global, members: usize, schema: Schema) -> Result<Player, AllocError>
        requires least { 3 ≤ members }
        requires most { members ≤ 7 }
        ensures goes_on { IfOk result (λ player. has_failed player ≡ false) }
        ensures stage { IfOk result (λ player. standing_of player ≡ opening_stage members) }
        ensures members { IfOk result (λ player. members_in (group_of player) ≡ members) }
        ensures schema { IfOk result (λ player. tables_in (group_of player) ≡ schema) }
        ensures group { IfOk result (λ player. now_of (group_of player) ≡ new_world members) }
        ensures nothing { IfOk result (λ player. events_of (group_of player) ≡ []) }
        ensures clocks { IfOk result (λ player. clocks_of player ≡ replicate members (pos 0)) }
        ensures unsent { IfOk result (λ player. sent_count player ≡ 0) }
    {
        Ok(Player {
            play: Play::new(alloc, members, schema)?,
            has_failed: false,
        })
    }

    /// Plays one line: lets exactly the events happen that it brings, and prints what comes of them.
    ///
    /// It fails by want of memory or by the printer's fault, and what it printed then is a beginning of what the line
    /// prints. After either it answers only want of memory, and prints nothing.
    pub fn play<P: Printer>(&mut self, line: &Line, printer: &mut P) -> Result<(), RunFault>
        ensures plays { has_failed self.old ≡ false → Plays self.old result self.new (played (tables_in (group_of self.old)) (members_in (group_of self.old)) (standing_of self.old) line.now) (P.printed printer.old) (P.printed printer.new) }
        ensures err { IfErr result IsPlayFault }
        ensures fails { OnErr result (IsTrue (has_failed self.new)) }
        ensures goes_on { OnOk result (has_failed self.new ≡ false) }
        ensures stays { IsTrue (has_failed self.old) → (result ≡ Err (RunFault.Refused NoMemory)) × (printer.new ≡ printer.old) }
        ensures whose { IfErr result (IsFaultOf P.fails printer.new) }
    {
        if self.has_failed {
            return Err(RunFault::Refused(Refusal::NoMemory));
        }
        self.has_failed = true;
        match self.play.play_line(line, printer) {
            Ok(()) => {
                self.has_failed = false;
                Ok(())
            }
            Err(fault) => Err(fault),
        }
    }

    /// Plays lines, each after the one before, as `play` does. Where it fails, what it printed is a beginning of what
    /// all of them print.
    pub fn play_all<P: Printer>(&mut self, lines: &[Line], printer: &mut P) -> Result<(), RunFault>
        ensures plays { has_failed self.old ≡ false → Plays self.old result self.new (played_all (tables_in (group_of self.old)) (members_in (group_of self.old)) lines.now (standing_of self.old)) (P.printed printer.old) (P.printed printer.new) }
        ensures err { IfErr result IsPlayFault }
        ensures fails { OnErr result (IsTrue (has_failed self.new)) }
        ensures goes_on { OnOk result (has_failed self.new ≡ false) }
        ensures stays { IsTrue (has_failed self.old) → (result ≡ Err (RunFault.Refused NoMemory)) × (printer.new ≡ printer.old) }
        ensures whose { IfErr result (IsFaultOf P.fails printer.new) }
    {
        if self.has_failed {
            return Err(RunFault::Refused(Refusal::NoMemory));
        }
        self.has_failed = true;
        match self.play.play_lines(lines, printer) {
            Ok(()) => {
                self.has_failed = false;
                Ok(())
            }
            Err(fault) => Err(fault),
        }
    }

    /// Up to which index of its log a node has applied. None for a node that is down or not there, and where memory
    /// was refused to the group. Takes no memory.
    pub fn commit(&self, node: Member) -> Option<usize>
        ensures { result ≡ commit_of self.now node }
    {
        self.play.world.commit(node)
    }

    /// The entry that a node has stored at an index of its log, counted from 1. None outside the log, and for a node
    /// that is down or not there. No member changes.
    ///
    /// It fails only by want of memory, and after that the player answers nothing else; so it does after a line that
    /// failed.
    pub fn entry(&mut self, node: Member, index: usize) -> Result<Option<Entry>, AllocError>
        ensures found { IfOk result (λ found. found ≡ entry_in index (member_in self.old node)) }
        ensures same { OnOk result (member_in self.new ≡ member_in self.old) }
        ensures stage { OnOk result (standing_of self.new ≡ standing_of self.old) }
        ensures fails { OnErr result (IsTrue (has_failed self.new)) }
        ensures goes_on { OnOk result (has_failed self.new ≡ false) }
        ensures stays { IsTrue (has_failed self.old) → IsErr result }
    {
        if self.has_failed {
            return Err(AllocError);
        }
        self.has_failed = true;
        let entry = self.play.world.entry(node, index)?;
        self.has_failed = false;
        Ok(entry)
    }
}
