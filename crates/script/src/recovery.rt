//! Bringing a group to where one member leads and all have applied its log.
ghost use Rattle.std.specs.Prelude.{◌≡◌, false, suc, length, IfOk, IfErr, OnOk};
ghost use Rattle.model.specs.Lists.{nth};
ghost use Rattle.model.specs.Members.{term_of};
ghost use Rattle.world.specs.View.{entry_in};
ghost use Rattle.script.specs.Faults.{IsFaultOf};
ghost use Rattle.script.specs.Standing.{foremost, is_well, longest, standing_at};
ghost use Rattle.script.specs.Stage.{all_led_on, deliveries_from, led_by, led_on, recovery, spread_or_said, starts, stirred, turn, turns};

use crate::play::Play;
use crate::printer::Printer;
use crate::run_fault::RunFault;
use crate::standing::Standing;
use fault::Refusal;
use model::member::Member;
use model::message::Input;
use std::alloc::AllocError;
use world::event::Event;

// How many turns a member takes at most to be elected.
const TURNS_TO_LEAD: u128 = 2;

impl Play {
    ghost use Rattle.script.specs.Plays.{stage_of, tables_of, members_of, IsStill, Plays};

    // The term of the entry that a member has stored at an index of its log; 0 where there is none.
    fn term_at(&mut self, node: Member, index: usize) -> Result<u64, AllocError>
        requires live { self.old.world.is_spent ≡ false }
        ensures term { IfOk result (λ term. term ≡ term_of (entry_in index (nth (stage_of self.old).world.nodes node))) }
        ensures still { OnOk result (IsStill self.old self.new) }
    {
        let entry = self.world.entry(node, index)?;
        match entry {
            Some(entry) => Ok(entry.term),
            None => Ok(0),
        }
    }

    // The term of a member, and how many entries its log has; 0 of one that is down, or not there.
    #[tactic(auto, using(crate::proofs::Recovering::term_some, crate::proofs::Recovering::length_some, crate::proofs::Recovering::term_none, crate::proofs::Recovering::length_none))]
    fn stored(&mut self, node: Member) -> Result<(u64, usize), AllocError>
        requires live { self.old.world.is_spent ≡ false }
        ensures term { IfOk result (λ p. p.0 ≡ (standing_at (stage_of self.old).world node).term) }
        ensures length { IfOk result (λ p. p.1 ≡ (standing_at (stage_of self.old).world node).length) }
        ensures still { OnOk result (IsStill self.old self.new) }
    {
        match self.world.durable(node) {
            Ok(Some(stored)) => Ok((stored.hard.term, stored.length)),
            Ok(None) => Ok((0, 0)),
            Err(error) => Err(error),
        }
    }

    // How many entries a member has applied; 0 of one that is down, or not there.
    fn applied(&self, node: Member) -> usize
        requires live { self.now.world.is_spent ≡ false }
        ensures { result ≡ (standing_at (stage_of self.now).world node).applied }
    {
        match self.world.commit(node) {
            Some(applied) => applied,
            None => 0,
        }
    }

    // How a member stands.
    fn standing(&mut self, node: Member) -> Result<Standing, AllocError>
        requires live { self.old.world.is_spent ≡ false }
        ensures standing { IfOk result (λ standing. standing ≡ standing_at (stage_of self.old).world node) }
        ensures still { OnOk result (IsStill self.old self.new) }
    {
        let applied = self.applied(node);
        let (term, length) = self.stored(node)?;
        let last_term = self.term_at(node, length)?;
        Ok(Standing {
            term,
            last_term,
            length,
            applied,
        })
    }

    // A member whose log is most up to date, and how long the longest log is.
    fn survey(&mut self) -> Result<(Member, usize), AllocError>
        requires live { self.old.world.is_spent ≡ false }
        ensures foremost { IfOk result (λ p. p.0 ≡ foremost (length (stage_of self.old).clocks) (stage_of self.old).world) }
        ensures longest { IfOk result (λ p. p.1 ≡ longest (length (stage_of self.old).clocks) (stage_of self.old).world) }
        ensures still { OnOk result (IsStill self.old self.new) }
    {
        let mut first = 0;
        let mut best = Standing::NONE;
        let mut longest = 0;
        let members = self.clocks.len();
        for place in 0..members {
            let standing = self.standing(place + 1)?;
            longest = longest.max(standing.length);
            if standing.is_up_to_date(best) {
                first = place + 1;
                best = standing;
            }
        }
        Ok((first, longest))
    }

    // Whether the log of a member ends with an entry of its term, and each is in that term and has applied as much.
    fn is_well(&mut self, node: Member) -> Result<bool, AllocError>
        requires live { self.old.world.is_spent ≡ false }
        ensures well { IfOk result (λ well. well ≡ is_well (length (stage_of self.old).clocks) (stage_of self.old).world node) }
        ensures still { OnOk result (IsStill self.old self.new) }
    {
        let members = self.clocks.len();
        let leader = self.standing(node)?;
        let mut are_in_step = true;
        for place in 0..members {
            let standing = self.standing(place + 1)?;
            are_in_step = standing.is_in_step_too(leader, are_in_step);
        }
        Ok(leader.is_well(are_in_step))
    }

    // Starts all members.
    fn start_all<P: Printer>(&mut self, printer: &mut P) -> Result<(), RunFault>
        requires live { self.old.world.is_spent ≡ false }
        ensures plays { Plays self.old.world result self.new (starts (tables_of self.old) (members_of self.old) (length (stage_of self.old).clocks) 1 (stage_of self.old)) (P.printed printer.old) (P.printed printer.new) }
        ensures whose { IfErr result (IsFaultOf P.fails printer.new) }
    {
        let members = self.clocks.len();
        for place in 0..members {
            if let Err(fault) = self.happen(Event::Start(place + 1), printer) {
                return Err(fault);
            }
        }
        Ok(())
    }

    // Delivers so many messages from this place on, or fewer, until none is left.
    fn deliver_from<P: Printer>(
        &mut self,
        first: usize,
        most: u128,
        printer: &mut P,
    ) -> Result<(), RunFault>
        requires live { self.old.world.is_spent ≡ false }
        ensures plays { Plays self.old.world result self.new (deliveries_from (tables_of self.old) (members_of self.old) most (suc first) (stage_of self.old)) (P.printed printer.old) (P.printed printer.new) }
        ensures whose { IfErr result (IsFaultOf P.fails printer.new) }
    {
        let mut place = first;
        for delivered in 0..most {
            let sent = self.mail.len();
            if sent <= place {
                return Ok(());
            }
            if let Err(fault) = self.deliver_at(place, printer) {
                return Err(fault);
            }
            place += 1;
        }
        Ok(())
    }

    // The timer of a member goes off, and it is told to send its heartbeats.
    fn stir<P: Printer>(&mut self, node: Member, printer: &mut P) -> Result<(), RunFault>
        requires live { self.old.world.is_spent ≡ false }
        ensures plays { Plays self.old.world result self.new (stirred (tables_of self.old) (members_of self.old) node (stage_of self.old)) (P.printed printer.old) (P.printed printer.new) }
        ensures whose { IfErr result (IsFaultOf P.fails printer.new) }
    {
        if let Err(fault) = self.happen(Event::Hand(node, Input::Timeout), printer) {
            return Err(fault);
        }
        self.happen(Event::Hand(node, Input::Beat), printer)
    }

    // A member is stirred, and of what is sent then two messages for each member are delivered: to each other one, and
    // back.
    fn turn<P: Printer>(&mut self, node: Member, printer: &mut P) -> Result<(), RunFault>
        requires live { self.old.world.is_spent ≡ false }
        ensures plays { Plays self.old.world result self.new (turn (tables_of self.old) (members_of self.old) node (stage_of self.old)) (P.printed printer.old) (P.printed printer.new) }
        ensures whose { IfErr result (IsFaultOf P.fails printer.new) }
    {
        let sent = self.mail.len();
        let members = self.clocks.len();
        if let Err(fault) = self.stir(node, printer) {
            return Err(fault);
        }
        self.deliver_from(sent, 2 * (members as u128), printer)
    }

    // So many turns, or fewer, until all is well.
    #[tactic(auto, using(crate::proofs::Recovering::so_far_gives_up))]
    fn take_turns<P: Printer>(
        &mut self,
        node: Member,
        most: u128,
        printer: &mut P,
    ) -> Result<(), RunFault>
        requires live { self.old.world.is_spent ≡ false }
        ensures plays { Plays self.old.world result self.new (turns (tables_of self.old) (members_of self.old) most node (stage_of self.old)) (P.printed printer.old) (P.printed printer.new) }
        ensures whose { IfErr result (IsFaultOf P.fails printer.new) }
    {
        for taken in 0..most {
            let well = self.is_well(node)?;
            if well {
                return Ok(());
            }
            if let Err(fault) = self.turn(node, printer) {
                return Err(fault);
            }
        }
        Ok(())
    }

    // A member that was to be elected brings its log to all, or says why it cannot append an entry.
    #[tactic(auto, using(crate::proofs::Playing::nothing_yet))]
    fn spread_or_say<P: Printer>(
        &mut self,
        node: Member,
        longest: usize,
        printer: &mut P,
    ) -> Result<(), RunFault>
        requires live { self.old.world.is_spent ≡ false }
        ensures plays { Plays self.old.world result self.new (spread_or_said (tables_of self.old) (members_of self.old) node longest (stage_of self.old)) (P.printed printer.old) (P.printed printer.new) }
        ensures whose { IfErr result (IsFaultOf P.fails printer.new) }
    {
        let standing = self.standing(node)?;
        if standing.ends_own() {
            return self.take_turns(node, 2 * (longest as u128) + 4, printer);
        }
        let reading = self.reading_of(node);
        self.happen(Event::Hand(node, Input::Close { reading }), printer)
    }

    // A member leads the others on, whose logs have at most so many entries.
    fn lead_on<P: Printer>(
        &mut self,
        node: Member,
        longest: usize,
        printer: &mut P,
    ) -> Result<(), RunFault>
        requires live { self.old.world.is_spent ≡ false }
        ensures plays { Plays self.old.world result self.new (led_on (tables_of self.old) (members_of self.old) node longest (stage_of self.old)) (P.printed printer.old) (P.printed printer.new) }
        ensures whose { IfErr result (IsFaultOf P.fails printer.new) }
    {
        if let Err(fault) = self.take_turns(node, TURNS_TO_LEAD, printer) {
            return Err(fault);
        }
        self.spread_or_say(node, longest, printer)
    }

    // A member leads the others on, and messages that are still on their way are lost.
    fn lead_by<P: Printer>(
        &mut self,
        node: Member,
        longest: usize,
        printer: &mut P,
    ) -> Result<(), RunFault>
        requires live { self.old.world.is_spent ≡ false }
        ensures plays { Plays self.old.world result self.new (led_by (tables_of self.old) (members_of self.old) node longest (stage_of self.old)) (P.printed printer.old) (P.printed printer.new) }
        ensures whose { IfErr result (IsFaultOf P.fails printer.new) }
    {
        if let Err(fault) = self.lead_on(node, longest, printer) {
            return Err(fault);
        }
        self.lose_all();
        Ok(())
    }

    // So does one whose log is most up to date.
    fn lead_all<P: Printer>(&mut self, printer: &mut P) -> Result<(), RunFault>
        requires live { self.old.world.is_spent ≡ false }
        ensures plays { Plays self.old.world result self.new (all_led_on (tables_of self.old) (members_of self.old) (stage_of self.old)) (P.printed printer.old) (P.printed printer.new) }
        ensures whose { IfErr result (IsFaultOf P.fails printer.new) }
    {
        match self.survey() {
            Ok((node, longest)) => self.lead_by(node, longest, printer),
            Err(_) => Err(RunFault::Refused(Refusal::NoMemory)),
        }
    }

    // Starts all members, and one whose log is most up to date leads them on.
    pub(crate) fn recover<P: Printer>(&mut self, printer: &mut P) -> Result<(), RunFault>
        requires live { self.old.world.is_spent ≡ false }
        ensures plays { Plays self.old.world result self.new (recovery (tables_of self.old) (members_of self.old) (stage_of self.old)) (P.printed printer.old) (P.printed printer.new) }
        ensures whose { IfErr result (IsFaultOf P.fails printer.new) }
    {
        if let Err(fault) = self.start_all(printer) {
            return Err(fault);
        }
        self.lead_all(printer)
    }
}
