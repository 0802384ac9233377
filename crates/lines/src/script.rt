//! Reading whole scripts.
ghost use Rattle.std.specs.Prelude.{◌≡◌, ◌≢◌, ℕ, ◌≤◌, ◌+◌, ◌^◌, ◌<◌, ◌∷◌, [], IfSome, IfNone, IfOk, IfErr, ◌⊎◌, length, string_bytes};
ghost use Rattle.fault.specs.declared.refusal.Refusal.TheVariants.{NoMemory, BadScript};
ghost use Rattle.lines.specs.Script.{is_skipped as skips, pieces, members_text, HasLines, IsMemberCount, IsBadAt, IsScriptFault};
ghost use Rattle.lines.specs.Reading.{IsCounted, IsNoneCounted, IsOpening, IsBlock, IsEndless, IsSaid, IsUnsaid};

use crate::line::{Line, read_line};
use crate::number::read_number;
use fault::Refusal;
use schema::Schema;
use schemaread::schemas::read_schema;
use std::alloc::Global;

/// A whole script.
#[derive(Drop)]
pub struct Script {
    /// How many members its group has, from 3 to 7.
    pub members: usize,
    /// The tables of the group.
    pub schema: Schema,
    pub lines: Vec<Line>,
}

// What is left of a script after so many of its lines.
#[derive(Clone, Copy)]
struct Rest<'a> {
    number: usize,
    text: &'a str,
}

/// A script: its opening line `members N`, with N from 3 to 7, the line `schema`, the lines of the
/// schema, the line `end`, and the lines after it. Empty lines and those that begin with `#` are
/// left out, but for the schema's, which are read as they are. Each line ends with LF.
///
/// A script with a fault is refused as 60 at the line of the first fault, where the first line is 1;
/// one that ends too early, at the line after its last, and one that does not end with LF, at its
/// last line. A schema that is refused is answered by its own refusal, 10 to 18, before the lines
/// after it are read. The only other refusal is want of memory.
pub fn read_script(alloc: Global, text: &str) -> Result<Script, Refusal>
    ensures lines { IfOk result (λ script. HasLines text.now script.members script.schema script.lines.items) }
    ensures err { IfErr result (IsScriptFault text.now) }
{
    let (members, rest) = read_opening(Rest { number: 0, text })?;
    let (block, rest) = read_block(alloc, rest)?;
    let schema = read_schema(alloc, block.as_str())?;
    let lines = read_lines(alloc, members, rest)?;
    Ok(Script {
        members,
        schema,
        lines,
    })
}

// The number of members of the opening line, and what is left after the line `schema`.
fn read_opening(rest: Rest<'_>) -> Result<(usize, Rest<'_>), Refusal>
    requires whole { rest.number ≡ 0 }
    requires fits { length rest.text.now < 2 ^ 63 }
    ensures opening { IfOk result (λ p. IsOpening rest.entry.text.now p.0 p.1.number p.1.text.now) }
    ensures left { IfOk result (λ p. p.1.number + length p.1.text.now ≤ length rest.entry.text.now) }
    ensures err { IfErr result (λ refusal. (k : ℕ) × (refusal ≡ BadScript k) × IsBadAt rest.entry.text.now k) }
{
    let (line, rest) = next_counted(rest)?;
    let Some(members) = read_members(line) else {
        return Err(Refusal::BadScript(rest.number));
    };
    let (line, rest) = next_counted(rest)?;
    if line != "schema" {
        return Err(Refusal::BadScript(rest.number));
    }
    Ok((members, rest))
}

// The text of the schema, and what is left after the line `end`.
#[tactic(auto, using(crate::proofs::Scripts::block_empty))]
fn read_block(alloc: Global, rest: Rest<'_>) -> Result<(String, Rest<'_>), Refusal>
    requires { rest.number + length rest.text.now < 2 ^ 63 }
    ensures block { IfOk result (λ p. IsBlock rest.entry.number rest.entry.text.now (string_bytes p.0) p.1.number p.1.text.now) }
    ensures left { IfOk result (λ p. p.1.number + length p.1.text.now ≤ rest.entry.number + length rest.entry.text.now) }
    ensures err { IfErr result (λ refusal. (refusal ≡ NoMemory) ⊎ IsEndless rest.entry.number rest.entry.text.now refusal) }
{
    let mut block = String::new(alloc);
    let mut rest = rest;
    loop {
        let (line, after) = next_line(rest)?;
        rest = after;
        if line == "end" {
            return Ok((block, rest));
        }
        block.push_str(line)?;
        block.push_str("\n")?;
    }
}

// The lines that are left, in a script of so many members.
fn read_lines(alloc: Global, members: usize, rest: Rest<'_>) -> Result<Vec<Line>, Refusal>
    requires { rest.number + length rest.text.now < 2 ^ 63 }
    ensures lines { IfOk result (λ lines. IsSaid members rest.entry.text.now lines.items) }
    ensures err { IfErr result (λ refusal. (refusal ≡ NoMemory) ⊎ IsUnsaid rest.entry.number members rest.entry.text.now refusal) }
{
    let mut lines = Vec::new(alloc);
    let mut rest = rest;
    while !rest.text.is_empty() {
        let (line, after) = next_line(rest)?;
        rest = after;
        if is_skipped(line) {
            continue;
        }
        match read_line(alloc, members, line)? {
            Some(line) => lines.push(line)?,
            None => return Err(Refusal::BadScript(rest.number)),
        }
    }
    Ok(lines)
}

// The next line that counts, and what is left after it.
fn next_counted(rest: Rest<'_>) -> Result<(&str, Rest<'_>), Refusal>
    requires { rest.number + length rest.text.now < 2 ^ 63 }
    ensures line { IfOk result (λ p. IsCounted rest.entry.number rest.entry.text.now p.0.now p.1.number p.1.text.now) }
    ensures left { IfOk result (λ p. p.1.number + length p.1.text.now ≤ rest.entry.number + length rest.entry.text.now) }
    ensures err { IfErr result (IsNoneCounted rest.entry.number rest.entry.text.now) }
{
    let mut rest = rest;
    loop {
        let (line, after) = next_line(rest)?;
        rest = after;
        if !is_skipped(line) {
            return Ok((line, rest));
        }
    }
}

// The next line without its LF, and what is left after it. A line without an LF is bad; so is the
// one after the last.
fn next_line(rest: Rest<'_>) -> Result<(&str, Rest<'_>), Refusal>
    requires { rest.number + length rest.text.now < 2 ^ 63 }
    ensures line { IfOk result (λ p. pieces rest.entry.text.now ≡ p.0.now ∷ pieces p.1.text.now) }
    ensures number { IfOk result (λ p. p.1.number ≡ rest.entry.number + 1) }
    ensures left { IfOk result (λ p. p.1.number + length p.0.now + length p.1.text.now ≡ rest.entry.number + length rest.entry.text.now) }
    ensures err { IfErr result (λ refusal. refusal ≡ BadScript (rest.entry.number + 1)) }
    ensures last { IfErr result (λ _. pieces rest.entry.text.now ≡ rest.entry.text.now ∷ []) }
{
    let number = rest.number + 1;
    match split_line(rest.text) {
        Some((line, text)) => Ok((line, Rest { number, text })),
        None => Err(Refusal::BadScript(number)),
    }
}

// The number of members that an opening line names.
fn read_members(line: &str) -> Option<usize>
    ensures some { IfSome result (λ n. IsMemberCount n × (line.now ≡ members_text n)) }
    ensures none { IfNone result ((n : ℕ) → IsMemberCount n → line.now ≢ members_text n) }
{
    let number = read_number(line.strip_prefix("members ")?)?;
    if 3 <= number && number <= 7 {
        Some(number as usize)
    } else {
        None
    }
}

// The first line without its LF, and what follows, or none where no line ends.
fn split_line(text: &str) -> Option<(&str, &str)>
    ensures first { IfSome result (λ p. pieces text.now ≡ p.0.now ∷ pieces p.1.now) }
    ensures len { IfSome result (λ p. length p.0.now + 1 + length p.1.now ≡ length text.now) }
    ensures last { IfNone result (pieces text.now ≡ text.now ∷ []) }
{
    text.split_once('\n')
}

// Whether a line is empty or begins with `#`.
fn is_skipped(line: &str) -> bool
    ensures { result ≡ skips line.now }
{
    match line.as_bytes() {
        [] | [b'#', ..] => true,
        _ => false,
    }
}
