//! A group of three, the messages between its members, and a client that asks until it is told.
use crate::effect::{Effect, Notes};
use crate::packets::{beat, floor, submit, timeout};
use crate::seats::{Failing, Seat};
use crate::setting::{Setting, judge};
use cells::cell::Out;
use fault::Refusal;
use flight::life::{Life, Packet};
use model::mark::Mark;
use model::member::Member;
use model::message::Message;
use node::{Fault, Out as Given};
use sqlread::query::{Query, read_query};
use std::alloc::{AllocError, Global};
use std::collections::VecDeque;
use std::process::Abort;
use std::sync::Wait;

// What every member is asked besides, again and again. The third is about an instant that no request is stamped at, nor later.
const QUESTIONS: [&str; 4] = [
    "SELECT * FROM Emp FOR SYSTEM_TIME AS OF TIMESTAMP '1970-01-01 00:00:00.000200';",
    "SELECT * FROM Dept FOR SYSTEM_TIME BETWEEN TIMESTAMP '1970-01-01 00:00:00.000100' AND TIMESTAMP '1970-01-01 00:00:00.000400';",
    "SELECT * FROM Dept FOR SYSTEM_TIME AS OF TIMESTAMP '1970-01-01 00:00:00.000500';",
    "SELECT * FROM Emp FOR SYSTEM_TIME AS OF TIMESTAMP '1970-01-01 00:00:00.000400';",
];

/// Three members, and what was said so far.
#[derive(Drop)]
pub(crate) struct Group<'a> {
    setting: &'a Setting,
    pub seats: Vec<Option<Seat<'a>>>,
    letters: VecDeque<(Mark, Message)>,
    queries: Vec<Query>,
    /// What is sent to this member is lost.
    pub away: Option<Member>,
    // Of which of the client's requests an outcome was told last.
    told: u64,
    pub notes: Notes,
}

// Asks a member. Where it gives no answer, there may be none.
fn ask(rt: &impl Abort, alloc: Global, seat: &Seat<'_>, query: &Query, notes: &mut Notes) {
    match seat.cell.node.ask(query) {
        Ok(answer) => judge(rt, alloc, notes, query, &answer),
        Err(Refusal::NoMemory) => notes.note(rt, 43, Effect::Unanswered),
        Err(refusal) => assert!(rt; matches!(refusal, Refusal::NotClosed(_) | Refusal::NodeDown)),
    }
}

// Whether a member answers each of these.
fn answers_all(place: &Option<Seat<'_>>, queries: &[Query]) -> bool {
    let Some(seat) = place else {
        return false;
    };
    queries
        .iter()
        .all(|query| seat.cell.node.ask(query).is_ok())
}

// Notes that a member gave nothing.
fn note(rt: &impl Abort, notes: &mut Notes, node: Member, fault: Fault) {
    match fault {
        Fault::Kept(Refusal::NoMemory) => notes.note(rt, 43, Effect::Kept),
        Fault::Kept(_) => {}
        Fault::Down(error) => notes.note(rt, Refusal::from(error).number(), Effect::Down(node)),
    }
}

// Whether a member went down.
fn is_down(place: &Option<Seat<'_>>) -> bool {
    match place {
        Some(seat) => !seat.cell.node.is_up(),
        None => false,
    }
}

// Stops a member and starts it again. Its life that is over.
fn restart(
    rt: &(impl Wait + Abort),
    place: &mut Option<Seat<'_>>,
    notes: &mut Notes,
) -> Option<Life> {
    let seat = place.take()?;
    let (seat, life) = seat.restart(rt, notes);
    *place = Some(seat);
    Some(life)
}

// The questions of the tests.
fn questions(setting: &Setting) -> Result<Vec<Query>, Refusal> {
    let mut queries = Vec::new(setting.alloc);
    queries.push(setting.query.clone()?)?;
    for text in QUESTIONS {
        queries.push(read_query(setting.alloc, &setting.schema, text)?)?;
    }
    Ok(queries)
}

// Three members in their first lives.
fn begin<'a>(
    rt: &(impl Wait + Abort),
    setting: &'a Setting,
    failing: Option<Failing>,
    notes: &mut Notes,
) -> Result<Vec<Option<Seat<'a>>>, AllocError> {
    let mut seats = Vec::new(setting.alloc);
    for me in 1..4 {
        seats.push(Some(Seat::new(rt, setting, me, failing, notes)))?;
    }
    Ok(seats)
}

impl<'a> Group<'a> {
    /// Three members in their first lives. This call of a store fails, or where there is none a request for memory may be refused.
    pub(crate) fn start(
        rt: &(impl Wait + Abort),
        setting: &'a Setting,
        failing: Option<Failing>,
    ) -> Result<Group<'a>, Refusal> {
        let alloc = setting.alloc;
        let queries = questions(setting)?;
        let mut notes = Notes::new(if failing.is_some() { 40 } else { 43 });
        let seats = begin(rt, setting, failing, &mut notes)?;
        Ok(Group {
            setting,
            seats,
            letters: VecDeque::new(alloc),
            queries,
            away: None,
            told: 0,
            notes,
        })
    }

    // Feeds a member, if it runs, and sends its messages on their way.
    fn feed(
        &mut self,
        rt: &(impl Wait + Abort),
        node: Member,
        packet: Packet,
    ) -> Result<(), AllocError> {
        let Some(Some(seat)) = self.seats.get_mut(node.saturating_sub(1)) else {
            return Ok(());
        };
        match seat.feed(rt, packet) {
            Ok(Out { mark, given }) => self.take(mark, given),
            Err(fault) => {
                note(rt, &mut self.notes, node, fault);
                Ok(())
            }
        }
    }

    // Takes what a step of this mark gave.
    fn take(&mut self, mark: Mark, given: Given) -> Result<(), AllocError> {
        let Given { messages, told, .. } = given;
        for told in &told {
            self.told = self.told.max(told.number.get());
        }
        for message in messages {
            if self.away != Some(message.addressee) {
                self.letters.push_back((mark, message))?;
            }
        }
        Ok(())
    }

    // Delivers all messages, and those that are sent then.
    fn settle(&mut self, rt: &(impl Wait + Abort)) -> Result<(), AllocError> {
        for _ in 0..1000 {
            let Some((mark, message)) = self.letters.pop_front() else {
                return Ok(());
            };
            let node = message.addressee;
            let packet = Packet::Delivered {
                mark,
                reading: 100,
                message,
            };
            self.feed(rt, node, packet)?;
        }
        panic!(rt; "messages do not end")
    }

    /// Hands member 1 this packet, and delivers all messages.
    pub(crate) fn send(
        &mut self,
        rt: &(impl Wait + Abort),
        packet: Packet,
    ) -> Result<(), AllocError> {
        self.feed(rt, 1, packet)?;
        self.settle(rt)
    }

    // Hands member 1 this packet, delivers all messages, asks all, and starts again who went down.
    fn hand(&mut self, rt: &(impl Wait + Abort), packet: Packet) -> Result<(), AllocError> {
        self.send(rt, packet)?;
        self.ask_all(rt);
        self.wake_all(rt);
        Ok(())
    }

    /// Stops a member and starts it again. Its life that is over.
    pub(crate) fn restart(&mut self, rt: &(impl Wait + Abort), member: Member) -> Option<Life> {
        let place = self.seats.get_mut(member.saturating_sub(1))?;
        restart(rt, place, &mut self.notes)
    }

    // Starts each member again that went down.
    fn wake_all(&mut self, rt: &(impl Wait + Abort)) {
        for place in &mut self.seats {
            if is_down(place) {
                let _ = restart(rt, place, &mut self.notes);
            }
        }
    }

    // Asks each member each question.
    fn ask_all(&mut self, rt: &impl Abort) {
        for place in &self.seats {
            if let Some(seat) = place {
                for query in &self.queries {
                    ask(rt, self.setting.alloc, seat, query, &mut self.notes);
                }
            }
        }
    }

    // The client hands member 1 its request until it is told of an outcome; where it is not, member 1 stands for election.
    fn request(&mut self, rt: &(impl Wait + Abort), number: u64) -> Result<(), AllocError> {
        for _ in 0..5 {
            let packet = submit(self.setting.alloc, number)?;
            self.hand(rt, packet)?;
            if number <= self.told {
                return Ok(());
            }
            self.hand(rt, timeout())?;
        }
        panic!(rt; "no outcome of request {number}")
    }

    // Hands member 1 this packet. Whether each member answers each question then.
    fn is_over(&mut self, rt: &(impl Wait + Abort), packet: Packet) -> Result<bool, AllocError> {
        self.hand(rt, packet)?;
        Ok(
            self.seats
                .iter()
                .all(|place| answers_all(place, &self.queries)),
        )
    }

    // Member 1 beats and asks for a floor until each member answers each question; where that is not enough, it stands for
    // election.
    fn end(&mut self, rt: &(impl Wait + Abort)) -> Result<(), AllocError> {
        for _ in 0..5 {
            if self.is_over(rt, beat())?
                || self.is_over(rt, floor())?
                || self.is_over(rt, beat())?
                || self.is_over(rt, timeout())?
            {
                return Ok(());
            }
        }
        panic!(rt; "members do not answer")
    }

    /// An election, two requests, a stop and a start of member 2, a beat and a floor, with questions after each. A member that
    /// goes down is started again. At the end each member answers each question.
    pub(crate) fn play(&mut self, rt: &(impl Wait + Abort)) -> Result<(), AllocError> {
        self.hand(rt, timeout())?;
        for number in 1..3 {
            self.request(rt, number)?;
        }
        let _ = self.restart(rt, 2);
        self.end(rt)?;
        self.ask_all(rt);
        Ok(())
    }

    /// Stops all members. The last life of each.
    pub(crate) fn stop(self, rt: &(impl Wait + Abort)) -> Result<Vec<Life>, AllocError> {
        let Group { setting, seats, .. } = self;
        let mut lives = Vec::new(setting.alloc);
        for place in seats {
            if let Some(seat) = place {
                lives.push(seat.stop(rt))?;
            }
        }
        Ok(lives)
    }
}
