//! Whether marks rise, and which marks a node has.
ghost use Rattle.std.specs.Prelude.{◌≡◌, ◌↔◌, ◌&&◌, ◌==◌, true, nat_lt, Some, None, IsNone, IsTrue, IfErr, OnOk, MatchOption};
ghost use Rattle.std.specs.List.{list_any};
ghost use Rattle.model.specs.Lists.{nth};
ghost use Rattle.flight.specs.Lives.{all_steps, last_mark, sent_at};
ghost use Rattle.moments.specs.Rising.{has_mark, is_torn_at, lives_rise, marks_rise, IsFallen, IsMarked, Rise};

use crate::recorded::{AuditFault, Recorded};
use flight::life::{Ending, Life, Packet, Step};
use model::mark::Mark;
use model::member::Member;

// The mark of the step that sent a packet, 0 for a local input.
fn sent_at(packet: &Packet) -> u64
    ensures { result ≡ sent_at packet.now }
{
    match packet {
        Packet::Local(_) => 0,
        Packet::Delivered { mark, .. } => mark.number(),
    }
}

// Whether the step's mark is above this one, and above that of its envelope.
fn rises(last: Mark, step: &Step) -> bool
    ensures { result ≡ (nat_lt last step.now.mark && nat_lt (sent_at step.now.packet) step.now.mark) }
{
    let mark = step.mark.number();
    last.number() < mark && sent_at(&step.packet) < mark
}

// The mark of the first step of a life that is not above the one before, or not above its envelope's.
#[tactic(auto, unfolding(crate::specs::Rising::marks_rise))]
fn first_fallen_step(life: &Life) -> Option<Mark>
    ensures { IsNone result ↔ (marks_rise life.now.opening.mark (all_steps life.now) ≡ true) }
{
    let mut last = life.opening.mark;
    for step in &life.steps {
        if !rises(last, step) {
            return Some(step.mark);
        }
        last = step.mark;
    }
    match &life.ending {
        Ending::Up | Ending::Stopped => None,
        Ending::Torn(step) => {
            if rises(last, step) {
                None
            } else {
                Some(step.mark)
            }
        }
    }
}

// The first mark of a node that is not above the one before, or not above its envelope's; none where all rise.
#[tactic(auto, unfolding(crate::specs::Rising::lives_rise))]
fn first_fallen(lives: &[Life]) -> Option<Mark>
    ensures { IsNone result ↔ (lives_rise 0 lives.now ≡ true) }
{
    let mut last = 0;
    for life in lives {
        if life.opening.mark.number() <= last {
            return Some(life.opening.mark);
        }
        if let Some(mark) = first_fallen_step(life) {
            return Some(mark);
        }
        last = life.last_mark().number();
    }
    None
}

/// Whether the marks of each node rise: the first opening's is above 0, each later opening's above all marks of the life
/// before, each step's above the one before it, and above that of the message that it takes. A step that was cut short
/// counts as the last of its life.
///
/// The one fault is 53, exactly where they do not; it names the first node of which they do not.
pub fn check_order(lives: &[Vec<Life>]) -> Result<(), AuditFault>
    ensures ok { OnOk result (Rise lives.now) }
    ensures fault { IfErr result (IsFallen lives.now) }
{
    for (place, own) in lives.iter().enumerate() {
        if let Some(mark) = first_fallen(own) {
            return Err(AuditFault::OutOfOrder {
                node: place + 1,
                mark,
            });
        }
    }
    Ok(())
}

// Whether the life's last step was cut short at this mark.
fn is_torn_at(ending: &Ending, mark: Mark) -> bool
    ensures { result ≡ is_torn_at mark ending.now }
{
    match ending {
        Ending::Torn(step) => step.mark == mark,
        Ending::Up | Ending::Stopped => false,
    }
}

// Whether one of the steps has this mark.
fn has_step_at(steps: &[Step], mark: Mark) -> bool
    ensures { result ≡ list_any (λ s. s.mark == mark) steps.now }
{
    steps.iter().any(|step| step.mark == mark)
}

// Whether the life has an opening or a step of this mark.
fn has_mark(life: &Life, mark: Mark) -> bool
    ensures { result ≡ has_mark mark life.now }
{
    life.opening.mark == mark || has_step_at(&life.steps, mark) || is_torn_at(&life.ending, mark)
}

// Whether one of the lives has an opening or a step of this mark.
fn have_mark(lives: &[Life], mark: Mark) -> bool
    ensures { result ≡ list_any (has_mark mark) lives.now }
{
    lives.iter().any(|life| has_mark(life, mark))
}

/// The lives of a node, none where there is no such node.
pub(crate) fn lives_of(lives: &[Vec<Life>], node: Member) -> Option<&Vec<Life>>
    ensures { MatchOption result (nth lives.now node ≡ None) (λ own. nth lives.now node ≡ Some own.now) }
{
    lives.get(node.checked_sub(1)?)
}

/// Whether the answer rests on an opening or a step of its node. One of a node that is not there rests on none. Takes no
/// memory.
pub(crate) fn is_marked(lives: &[Vec<Life>], answer: &Recorded) -> bool
    ensures { IsTrue result ↔ IsMarked lives.now answer.now }
{
    match lives_of(lives, answer.node) {
        Some(own) => have_mark(own, answer.mark),
        None => false,
    }
}
