//! Readers of lives.
ghost use Rattle.std.specs.Prelude.{◌≡◌, IfOk, IfErr, map};
ghost use Rattle.flight.specs.Contents.{in_opening, in_life};
ghost use Rattle.flight.specs.Spelling.{opening_text, life_text};
ghost use Rattle.flight.specs.Ranges.{IsOpening, IsLife, one_at_a_time, is_up};
ghost use Rattle.flight.specs.Courses.{lives_text, AreLives};
ghost use Rattle.flight.specs.Reading.{Spells, SpellsOnly, IsUnread};

use crate::answers::read_answers;
use crate::entries::read_entries;
use crate::flight::{Answered, Version};
use crate::life::{Ending, Life, Opening};
use crate::parts::{begins, past, read_mark, read_number, read_opening_floor, read_vote};
use crate::steps::read_course;
use fault::Refusal;
use keep::hard_state::HardState;
use model::member::Member;
use schema::Schema;
use std::alloc::Global;

// What was stored as a life began.
pub(crate) fn read_opening(
    alloc: Global,
    version: Version,
    text: &str,
) -> Result<(Opening, &str), Refusal>
    ensures ok { IfOk result (λ p. Spells (IsOpening version) (opening_text version) text.now (in_opening p.0) p.1.now) }
    ensures only { IfOk result (λ p. SpellsOnly (IsOpening version) (opening_text version) text.now (in_opening p.0) p.1.now) }
    ensures err { IfErr result (IsUnread (IsOpening version) (opening_text version) text.now) }
{
    let rest = past(text, "life ")?;
    let (mark, rest) = read_mark(rest, ' ')?;
    let (term, rest) = read_number(rest, ' ')?;
    let (vote, rest) = read_vote(rest)?;
    let (floor, rest) = read_opening_floor(version, rest)?;
    let (entries, rest) = read_entries(alloc, rest)?;
    let hard = HardState { term, vote, floor };
    let opening = Opening {
        mark,
        hard,
        entries,
    };
    Ok((opening, rest))
}

// One life of the node.
fn read_life(
    alloc: Global,
    version: Version,
    node: Member,
    text: &str,
) -> Result<(Life, &str), Refusal>
    ensures ok { IfOk result (λ p. Spells (IsLife version node) (life_text version) text.now (in_life p.0) p.1.now) }
    ensures only { IfOk result (λ p. SpellsOnly (IsLife version node) (life_text version) text.now (in_life p.0) p.1.now) }
    ensures err { IfErr result (IsUnread (IsLife version node) (life_text version) text.now) }
{
    let (opening, rest) = read_opening(alloc, version, text)?;
    let (steps, ending, rest) = read_course(alloc, version, node, rest)?;
    let life = Life {
        opening,
        steps,
        ending,
    };
    Ok((life, rest))
}

// The lives of the node, and the answers up to the end of the file.
pub(crate) fn read_lives<'a>(
    alloc: Global,
    version: Version,
    node: Member,
    schema: &Schema,
    text: &'a str,
) -> Result<(Vec<Life>, Vec<Answered>, &'a str), Refusal>
    ensures ok { IfOk result (λ p. Spells (AreLives version node schema.now) (lives_text version) text.now (map in_life p.0.items, p.1.items) p.2.now) }
    ensures only { IfOk result (λ p. SpellsOnly (AreLives version node schema.now) (lives_text version) text.now (map in_life p.0.items, p.1.items) p.2.now) }
    ensures err { IfErr result (IsUnread (AreLives version node schema.now) (lives_text version) text.now) }
{
    let mut lives = Vec::new(alloc);
    let mut rest = text;
    while begins(rest, "life ") {
        let (life, left) = read_life(alloc, version, node, rest)?;
        lives.push(life)?;
        rest = left;
    }
    let (answers, rest) = read_answers(alloc, schema, rest)?;
    Ok((lives, answers, rest))
}

fn is_up(ending: &Ending) -> bool
    ensures { result ≡ is_up ending.now }
{
    matches!(ending, Ending::Up)
}

// Whether there is a life, and none but the last ends up.
pub(crate) fn are_one_at_a_time(lives: &[Life]) -> bool
    ensures { result ≡ one_at_a_time (map in_life lives.now) }
{
    let Some((first, later)) = lives.split_first() else {
        return false;
    };
    let mut is_before_up = is_up(&first.ending);
    for life in later {
        if is_before_up {
            return false;
        }
        is_before_up = is_up(&life.ending);
    }
    true
}
