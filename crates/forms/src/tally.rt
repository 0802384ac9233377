//! How many requests and questions were refused.
use std::alloc::{AllocError, Global};
use std::collections::BTreeMap;
use std::fmt;

/// How many requests, questions and other lines there were, and how many of each were refused. A request counts once,
/// however many nodes tell of it and however often it was submitted, and is refused where what was told of it last is a
/// refusal.
#[derive(Drop)]
pub struct Tally {
    requests: BTreeMap<(u16, u64), bool>,
    questions: usize,
    refused_questions: usize,
    refused_lines: usize,
}

impl Tally {
    pub fn new(alloc: Global) -> Tally {
        Tally {
            requests: BTreeMap::new(alloc),
            questions: 0,
            refused_questions: 0,
            refused_lines: 0,
        }
    }

    /// Counts what was told of a client's request of this number.
    pub fn note_request(
        &mut self,
        client: u16,
        number: u64,
        is_refused: bool,
    ) -> Result<(), AllocError> {
        self.requests.insert((client, number), is_refused)?;
        Ok(())
    }

    /// Counts a question.
    pub fn note_question(&mut self, is_refused: bool) {
        self.questions = self.questions.saturating_add(1);
        if is_refused {
            self.refused_questions = self.refused_questions.saturating_add(1);
        }
    }

    /// Counts a line that is no request and no question, and was refused.
    pub fn note_refused_line(&mut self) {
        self.refused_lines = self.refused_lines.saturating_add(1);
    }

    fn refused_requests(&self) -> usize {
        self.requests
            .values()
            .filter(|is_refused| **is_refused)
            .count()
    }

    /// Whether nothing was refused.
    pub fn is_clean(&self) -> bool {
        self.refused_requests() == 0 && self.refused_questions == 0 && self.refused_lines == 0
    }
}

/// `R of N requests refused, Q of M questions refused`, and of other lines how many were, where some were.
impl fmt::Display for Tally {
    fn fmt<W: fmt::Write>(&self, f: &mut fmt::Formatter<W>) -> fmt::Result {
        let requests = self.requests.len();
        let refused_requests = self.refused_requests();
        let questions = self.questions;
        let refused_questions = self.refused_questions;
        write!(
            f,
            "{refused_requests} of {requests} requests refused, {refused_questions} of {questions} questions refused"
        )?;
        match self.refused_lines {
            0 => Ok(()),
            1 => f.write_str(", 1 other line refused"),
            lines => write!(f, ", {lines} other lines refused"),
        }
    }
}
