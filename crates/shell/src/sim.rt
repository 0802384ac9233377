//! The command `sim`.
ghost use Rattle.std.specs.Prelude.{◌≡◌, ◌⊎◌, ◌≤◌, ◌↔◌, ℕ, List, Result, string_bytes, IfSome, IfOk, IfErr, OnOk, OnErr, Err};
ghost use Rattle.std.specs.declared.io.Error.{Error};
ghost use Rattle.fault.specs.declared.refusal.Refusal.TheVariants.{NoMemory, BadScript};
ghost use Rattle.fault.specs.declared.refusal.Refusal.{Refusal as AnyRefusal};
ghost use Rattle.model.specs.Worlds.{new_world};
ghost use Rattle.script.specs.Brought.{IsBegun, IsPrinted};
ghost use Rattle.believed.specs.Meaning.{IsLanguage};
ghost use Rattle.believedsql.specs.Questions.{IsAsking};
ghost use Rattle.believedsql.specs.Schemas.{IsSchema};
ghost use Rattle.schemaread.specs.Schemas.{SchemaSays};
ghost use Rattle.script.specs.Faults.{IsFaultOf};
ghost use Rattle.sqlchecks.specs.Columns.{Tables};
ghost use Rattle.sqlread.specs.Meaning.{language_of, select_of};
ghost use Rattle.sqlread.specs.Texts.{query_in};
ghost use Rattle.std.specs.Result.{result_map_both};
ghost use Rattle.shell.specs.Sim.{acts_of, EndsScript, IsBadScript, IsNoScript, IsScript, IsToldAs};

use crate::source::Source;
use answertext::outlet::Outlet;
use fault::Refusal;
use lines::laws::ways_apart;
use lines::line::Line;
use lines::script::{Script, read_script};
use schema::Schema;
use script::player::Player;
use script::run_fault::RunFault;
use std::alloc::Global;
use std::io;

/// Reads a script to its end, and plays it as `play_text` does. Where the source fails nothing is printed: want of memory is told
/// as that, and any other of its errors as 60 at line 0.
pub fn run_sim<S: Source, O: Outlet>(
    alloc: Global,
    source: &mut S,
    outlet: &mut O,
) -> Result<u8, RunFault>
    ensures ends { ((bytes : List ℕ) × S.gives source.old bytes source.new × EndsScript O.holds O.fails O.is_sent bytes outlet.old result outlet.new)
        ⊎ ((error : Error) × S.fails source.old error source.new × ((refusal : AnyRefusal) × IsToldAs error refusal × (result ≡ Err (RunFault.Refused refusal))) × (outlet.new ≡ outlet.old)) }
    ensures language { (tables : Tables) → IsLanguage tables (language_of tables) }
    ensures questions { (tables : Tables) → IsAsking tables (λ text. result_map_both select_of (λ refusal. refusal) (query_in tables text)) }
    ensures schemas { (text : List ℕ) (answer : Result Tables AnyRefusal) → SchemaSays text answer ↔ IsSchema text answer }
{
    believed::meanings();
    believedsql::questions();
    believedsql::schemas();
    match source.read_all(alloc) {
        Ok(bytes) => play_text(alloc, bytes.as_slice(), outlet),
        Err(error) => Err(RunFault::Refused(told_as(&error))),
    }
}

/// Plays the script whose text these bytes are, and prints exactly what its lines give, from the outset of its group on. It gives the
/// exit status 0, or what ended it: 60 where they are no script, at line 0 where they are not UTF-8, or the refusal of the
/// script's schema, and then nothing is printed; want of memory, or the error of the outlet's last call, and then a
/// beginning is.
pub fn play_text<O: Outlet>(alloc: Global, bytes: &[u8], outlet: &mut O) -> Result<u8, RunFault>
    ensures { EndsScript O.holds O.fails O.is_sent bytes.now outlet.old result outlet.new }
{
    // Their contracts say that all members agree about whatever happens, and that one list explains it.
    believed::promises();
    let script = script_of(alloc, bytes)?;
    let Script {
        members,
        schema,
        lines,
    } = script;
    play_lines(alloc, members, schema, lines.as_slice(), outlet)?;
    Ok(0)
}

// The script whose text these bytes are.
fn script_of(alloc: Global, bytes: &[u8]) -> Result<Script, Refusal>
    ensures script { IfOk result (λ script. IsScript bytes.now script.members script.schema script.lines.items) }
    ensures err { IfErr result (λ refusal. (refusal ≡ NoMemory) ⊎ (IsNoScript bytes.now × IsBadScript bytes.now refusal)) }
{
    // Its contract says that no script is bad at a line, or has a schema that is refused.
    ways_apart();
    match str::from_utf8(bytes) {
        Ok(text) => read_script(alloc, text),
        Err(_) => Err(Refusal::BadScript(0)),
    }
}

// Plays the lines of a script from the outset of its group on, and prints exactly what they give.
fn play_lines<O: Outlet>(
    alloc: Global,
    members: usize,
    schema: Schema,
    lines: &[Line],
    outlet: &mut O,
) -> Result<(), RunFault>
    requires least { 3 ≤ members }
    requires most { members ≤ 7 }
    ensures printed { OnOk result (IsPrinted schema members (new_world members) (acts_of members schema lines.now) (O.holds outlet.old) (O.holds outlet.new)) }
    ensures sent { OnOk result (O.is_sent outlet.new) }
    ensures begun { OnErr result (IsBegun schema members (new_world members) (acts_of members schema lines.now) (O.holds outlet.old) (O.holds outlet.new)) }
    ensures whose { IfErr result (IsFaultOf O.fails outlet.new) }
{
    let mut player = Player::new(alloc, members, schema)?;
    player.play_all(lines, outlet)?;
    outlet.send()?;
    Ok(())
}

// What the error of a source is told as.
fn told_as(error: &io::Error) -> Refusal
    ensures { IsToldAs error.now result }
{
    match error.kind() {
        io::ErrorKind::OutOfMemory => Refusal::NoMemory,
        _ => Refusal::BadScript(0),
    }
}

// All that the reader has left, as text: what cannot be read, or is no text, is a bad script at line 0.
pub(crate) fn read_text<R: io::Read>(alloc: Global, reader: &mut R) -> Result<String, Refusal>
    ensures text { IfOk result (λ text. IfSome (R.remaining reader.old) (λ bytes. string_bytes text ≡ bytes)) }
    ensures err { IfErr result (λ refusal. (refusal ≡ NoMemory) ⊎ (refusal ≡ BadScript 0)) }
{
    match reader.read_all(alloc) {
        Ok(bytes) => String::from_utf8(bytes).map_err(|_| Refusal::BadScript(0)),
        Err(error) => Err(told_as(&error)),
    }
}
