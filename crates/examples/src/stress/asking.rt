//! What the threads do that ask views.
use auditor::Recorded;
use nodes::{Lines, Mark, Marked, Member, Query, Refusal, Schema, Text, View, read_query};
use std::alloc::{AllocError, Global};
use std::sync::atomic::{AtomicBool, AtomicUsize, Ordering};
use std::thread;
use std::time::{Clock, Duration};

// What is asked: what holds now, what held once, and what changed.
const QUESTIONS: [&str; 4] = [
    "SELECT * FROM Dept;",
    "SELECT * FROM Dept FOR SYSTEM_TIME AS OF TIMESTAMP '1970-01-01 00:00:00.003000' WHERE DNo = 3;",
    "SELECT * FROM Dept FOR SYSTEM_TIME FROM TIMESTAMP '1970-01-01 00:00:00.000100' TO TIMESTAMP '1970-01-01 00:00:00.005000';",
    "SELECT * FROM Dept FOR SYSTEM_TIME BETWEEN TIMESTAMP '1970-01-01 00:00:00.000100' AND TIMESTAMP '1970-01-01 00:00:00.002000';",
];

/// What those who ask and the one who hands out inputs know of one another.
#[derive(Drop)]
pub(crate) struct Watch {
    // How many views have given no answer yet.
    silent: AtomicUsize,
    is_over: AtomicBool,
}

impl Watch {
    /// Of so many views, of which none has answered.
    pub(crate) fn new(views: usize) -> Watch {
        Watch {
            silent: AtomicUsize::new(views),
            is_over: AtomicBool::new(false),
        }
    }

    /// Whether each view has answered.
    pub(crate) fn is_answered(&self) -> bool {
        self.silent.load(Ordering::SeqCst) == 0
    }

    // One more view has answered.
    fn answered(&self) {
        self.silent.fetch_sub(1, Ordering::SeqCst);
    }

    /// There are no more inputs.
    pub(crate) fn end(&self) {
        self.is_over.store(true, Ordering::SeqCst);
    }

    fn is_over(&self) -> bool {
        self.is_over.load(Ordering::SeqCst)
    }
}

/// A view of a node, the question that it is asked, and what it answered.
#[derive(Drop)]
pub(crate) struct Asker {
    alloc: Global,
    node: Member,
    view: View,
    text: Text,
    query: Query,
    answers: Vec<Recorded>,
}

impl Asker {
    /// An asker with this view of a node, and one of the questions.
    pub(crate) fn new(
        alloc: Global,
        schema: &Schema,
        node: Member,
        view: View,
        which: usize,
    ) -> Result<Asker, Refusal> {
        let text = QUESTIONS[which % 4];
        let query = read_query(alloc, schema, text)?;
        let text = Text::new(alloc, text)?;
        Ok(Asker {
            alloc,
            node,
            view,
            text,
            query,
            answers: Vec::new(alloc),
        })
    }

    // Whether this was the last answer too.
    fn is_last(&self, mark: Mark, answer: &Text) -> bool {
        match self.answers.last() {
            Some(last) => last.mark == mark && last.answer == *answer,
            None => false,
        }
    }

    // Keeps an answer, unless it is the last one again.
    fn keep(&mut self, mark: Mark, answer: String) -> Result<(), AllocError> {
        let answer = Text::from_string(answer)?;
        if self.is_last(mark, &answer) {
            return Ok(());
        }
        let query = self.text.clone()?;
        self.answers.push(Recorded {
            node: self.node,
            mark,
            query,
            answer,
        })?;
        Ok(())
    }

    fn keep_answer(&mut self, marked: &Marked) -> Result<(), AllocError> {
        let lines = format!(in self.alloc; "{}", Lines(&marked.answer))?;
        self.keep(marked.mark, lines)
    }

    // What the view's reading rests on.
    fn mark(&self) -> Mark {
        self.view.mark()
    }

    // Of a question that is not closed yet.
    fn keep_refusal(&mut self, refusal: &Refusal) -> Result<(), AllocError> {
        let line = format!(in self.alloc; "{refusal}")?;
        let mark = self.mark();
        self.keep(mark, line)
    }

    // Asks once. Whether the question was closed.
    fn ask(&mut self) -> Result<bool, Refusal> {
        match self.view.ask(&self.query) {
            Ok(marked) => {
                self.keep_answer(&marked)?;
                Ok(true)
            }
            Err(Refusal::NotClosed(closed)) => {
                self.keep_refusal(&Refusal::NotClosed(closed))?;
                Ok(false)
            }
            Err(refusal) => Err(refusal),
        }
    }

    /// Asks a thousand times a second till there are no more inputs, and then once more.
    pub(crate) fn ask_on<R: Clock>(mut self, rt: &R, watch: &Watch) -> Result<Asker, Refusal> {
        let mut is_answered = false;
        for _ in 0..u64::MAX {
            let was_over = watch.is_over();
            if self.ask()? && !is_answered {
                is_answered = true;
                watch.answered();
            }
            if was_over {
                break;
            }
            thread::sleep(rt, Duration::from_millis(1));
        }
        Ok(self)
    }
}

impl Asker {
    fn into_answers(self) -> Vec<Recorded> {
        let Asker { answers, .. } = self;
        answers
    }
}

// Adds answers to all.
fn add(answers: Vec<Recorded>, all: &mut Vec<Recorded>) -> Result<(), AllocError> {
    for answer in answers {
        all.push(answer)?;
    }
    Ok(())
}

/// All that was answered. The refusal of a view, if one was refused otherwise than for what is not closed yet.
pub(crate) fn answers_of(
    alloc: Global,
    asked: Vec<Result<Asker, Refusal>>,
) -> Result<Vec<Recorded>, Refusal> {
    let mut all = Vec::new(alloc);
    for asker in asked {
        add(asker?.into_answers(), &mut all)?;
    }
    Ok(all)
}
