//! What came of a fault.
use fault::Refusal;
use model::member::Member;
use std::process::Abort;
use std::test::Fail;

/// What came of the one fault of a run.
#[derive(Clone, Copy, Debug, PartialEq)]
pub(crate) enum Effect {
    /// There was none, or it could be done without.
    Whole,
    /// No life began, and the image came back.
    NotStarted,
    /// No view was given.
    NoView,
    /// A packet was turned away.
    Kept,
    /// This member went down.
    Down(Member),
    /// What became applied was published by a later step.
    Late,
    /// A member or a view gave no answer.
    Unanswered,
    /// The test itself lacked memory.
    Test,
}

/// The number of the one fault that there may be in a run, and what came of it.
#[derive(Clone, Copy)]
pub(crate) struct Notes {
    fault: u8,
    pub effect: Effect,
}

impl Notes {
    pub(crate) fn new(fault: u8) -> Notes {
        Notes {
            fault,
            effect: Effect::Whole,
        }
    }

    /// Notes what came of the one fault, which has this number.
    pub(crate) fn note(&mut self, rt: &impl Abort, fault: u8, effect: Effect) {
        assert!(rt; fault == self.fault && matches!(self.effect, Effect::Whole));
        self.effect = effect;
    }
}

/// Tells what came of a run in which a request for memory may have been refused.
pub(crate) fn tell(rt: &impl Print, came: Result<Effect, Refusal>) -> Result<(), Fail> {
    match came {
        Ok(Effect::Whole) => println!(rt; "whole")?,
        Ok(Effect::NotStarted) => println!(rt; "no start")?,
        Ok(Effect::NoView) => println!(rt; "no view")?,
        Ok(Effect::Kept) => println!(rt; "kept")?,
        Ok(Effect::Down(member)) => println!(rt; "node {member} down")?,
        Ok(Effect::Late) => println!(rt; "published later")?,
        Ok(Effect::Unanswered) => println!(rt; "no answer")?,
        Ok(Effect::Test) | Err(Refusal::NoMemory) => println!(rt; "no memory in the test itself")?,
        Err(refusal) => return Err(Fail::from(refusal)),
    }
    Ok(())
}
