//! The lines of a script played one thing at a time, so that a picture shows each.
use crate::pencil::Pencil;
use lanes::run::What;
use lines::line::{Line, TornJob};
use model::member::Member;
use script::player::Player;
use script::run_fault::RunFault;
use std::alloc::{AllocError, Global};

// How many rounds a `settle` plays that names none.
const ROUNDS_MOST: u8 = 100;

/// A group that plays, and what notes it.
#[derive(Drop)]
pub(crate) struct Stage {
    pub(crate) members: usize,
    pub(crate) player: Player,
    pub(crate) pencil: Pencil,
}

/// Whether a line only sets clocks.
pub(crate) fn sets_clocks(line: &Line) -> bool {
    matches!(line, Line::Clock { .. } | Line::ClockAll { .. })
}

impl Stage {
    fn alloc(&self) -> Global {
        self.pencil.alloc
    }

    fn is_up(&self, node: Member) -> bool {
        self.player.commit(node).is_some()
    }

    fn is_too_much(&self) -> bool {
        self.pencil.recorder.is_too_much()
    }

    fn play(&mut self, line: &Line) -> Result<(), RunFault> {
        self.player.play(line, &mut self.pencil)
    }

    // What these words say happens to a member.
    fn does(&mut self, node: Member, words: &str) -> Result<(), AllocError> {
        let words = String::from_str(self.alloc(), words)?;
        self.pencil.recorder.begin_event(node, What::Does(words), 0)
    }

    /// Plays a line, and notes each thing that it brings. A `settle` is played delivery by delivery.
    pub(crate) fn play_line(&mut self, line: &Line) -> Result<(), RunFault> {
        match line {
            Line::Clock { .. } | Line::ClockAll { .. } => self.play(line),
            Line::Deliver { message } => self.deliver_sent(*message),
            Line::Settle { rounds } => self.settle(rounds.unwrap_or(ROUNDS_MOST)),
            Line::Lose { message } => self.lose(*message, line),
            Line::LoseAll => self.lose_all(line),
            Line::Recover => self.recover(line),
            Line::Stop { node } => self.stop(*node, line),
            Line::Start { node } => self.start(*node, line),
            Line::Torn { node, job, .. } => self.tear(*node, job, line),
            _ => self.hand(line),
        }
    }

    // A line that one member is given.
    fn hand(&mut self, line: &Line) -> Result<(), RunFault> {
        match line {
            Line::Submit {
                node,
                client,
                number,
                ..
            } => {
                let client = client.get();
                let number = number.get();
                let words = format!(in self.alloc(); "gets request {client} {number}")?;
                self.does(*node, words.as_str())?;
            }
            Line::Timeout { node } | Line::Beat { node } => self.does(*node, "")?,
            Line::Close { node } => self.does(*node, "closes time")?,
            Line::Floor { node } => self.does(*node, "asks for a floor")?,
            Line::Ask { node, .. } => self.pencil.recorder.begin_event(*node, What::Asked, 0)?,
            _ => {}
        }
        self.play(line)
    }

    fn deliver_sent(&mut self, number: u64) -> Result<(), RunFault> {
        match usize::try_from(number) {
            Ok(number) => self.deliver(number, 0),
            Err(_) => Ok(()),
        }
    }

    // Delivers a message in this round; 0 is none. In a round nothing is brought to a member that is down.
    fn deliver(&mut self, number: usize, round: usize) -> Result<(), RunFault> {
        let Some(node) = self.pencil.recorder.addressee(number) else {
            return Ok(());
        };
        if self.is_up(node) {
            self.pencil.recorder.take(number, round)?;
            self.pencil.recorder.heed(number)?;
        } else {
            self.pencil.recorder.miss(number, round)?;
            if round > 0 {
                return Ok(());
            }
        }
        self.play(&Line::Deliver {
            message: number as u64,
        })
    }

    // Each message is delivered that was sent before the round and is under way.
    fn settle(&mut self, most: u8) -> Result<(), RunFault> {
        for round in 0..most {
            let left = self.pencil.recorder.under_way()?;
            if left.is_empty() || self.is_too_much() {
                return Ok(());
            }
            self.play_round(left.as_slice(), usize::from(round) + 1)?;
        }
        Ok(())
    }

    fn play_round(&mut self, left: &[usize], round: usize) -> Result<(), RunFault> {
        for number in left {
            self.deliver(*number, round)?;
        }
        Ok(())
    }

    fn lose(&mut self, number: u64, line: &Line) -> Result<(), RunFault> {
        if let Ok(number) = usize::try_from(number) {
            self.pencil.recorder.lose(number)?;
        }
        self.play(line)
    }

    fn lose_all(&mut self, line: &Line) -> Result<(), RunFault> {
        self.play(line)?;
        for number in self.pencil.recorder.under_way()? {
            self.pencil.recorder.lose(number)?;
        }
        Ok(())
    }

    fn stop(&mut self, node: Member, line: &Line) -> Result<(), RunFault> {
        if self.is_up(node) {
            self.pencil.recorder.stop(node, "stops")?;
        } else {
            self.does(node, "is down already")?;
        }
        self.play(line)
    }

    fn start(&mut self, node: Member, line: &Line) -> Result<(), RunFault> {
        if self.is_up(node) {
            self.does(node, "is up already")?;
        } else {
            self.pencil.recorder.start(node)?;
        }
        self.play(line)
    }

    // A step that is cut short: the member stops, unless it is down, or no such message was sent to it.
    fn tear(&mut self, node: Member, job: &TornJob, line: &Line) -> Result<(), RunFault> {
        let was_up = self.is_up(node);
        self.play(line)?;
        if !was_up {
            self.does(node, "is down already")?;
        } else if self.is_up(node) {
            self.does(node, "gets no message")?;
        } else {
            if let TornJob::Deliver { message } = job {
                self.take_torn(*message)?;
            }
            self.pencil.recorder.stop(node, "torn, stops")?;
        }
        Ok(())
    }

    fn take_torn(&mut self, number: u64) -> Result<(), AllocError> {
        match usize::try_from(number) {
            Ok(number) => self.pencil.recorder.take(number, 0),
            Err(_) => Ok(()),
        }
    }

    // The messages of a recovery are counted and not drawn; what was under way before it is lost.
    fn recover(&mut self, line: &Line) -> Result<(), RunFault> {
        self.pencil.recorder.begin_unseen();
        for place in 0..self.members {
            if !self.is_up(place + 1) {
                self.pencil.recorder.start(place + 1)?;
            }
        }
        self.lose_all(line)?;
        self.pencil.recorder.end_unseen()?;
        Ok(())
    }
}
