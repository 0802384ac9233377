//! The command `live`.
ghost use Rattle.std.specs.Prelude.{◌≡◌, ◌≤◌, ◌⊎◌, ℕ, List, Err, IfOk, IfErr, OnErr, OnOk, vec_len};
ghost use Rattle.std.specs.Io.KnownBytes.{Appends};
ghost use Rattle.std.specs.declared.io.Error.{Error};
ghost use Rattle.flight.specs.declared.flight.Version.TheVariants.{Three};
ghost use Rattle.answertext.specs.Sinks.{AppendsBeginning};
ghost use Rattle.shell.specs.Audit.{evidence_of};
ghost use Rattle.shell.specs.Live.{BeginsLines, BeginsRun, EndsRun, PlaysAll, PlaysLines, PrintsRun};
ghost use Rattle.answertext.specs.Outlets.{IsLastError};
ghost use Rattle.shell.specs.Showing.{BeginsVerdict, IsVerdictIn, PlaysIn, unshown};
ghost use Rattle.shell.specs.Sim.{IsOfText};
ghost use Rattle.shell.specs.declared.showing.Showing.{Showing as AnyShowing};

use crate::command::Live;
use crate::databases::databases_in_memory;
use crate::pilot::Pilot;
use crate::showing::{Manner, Printed, Showing};
use crate::sim::read_text;
use crate::stop::Stop;
use crate::verdict::verdict_in;
use answertext::outlet::{Outlet, tell};
use diagnosis::{Cause, Found, Name, Trouble};
use durable::SqlKeeper;
use fault::{Refusal, Text};
use flight::Records;
use flight::life::{Ending, Life};
use folder::{Folder, Made, make_databases};
use forms::Look;
use lines::line::Line;
use live::driver::stations;
use live::{Cluster, Config, Driver, Gate, LiveScript, Point, read_live};
use model::member::Member;
use network::Weather;
use progressline::Progress;
use script::run_fault::RunFault;
use sqlite::{Alter, Connection};
use std::alloc::Global;
use std::io;
use std::rt::Files;
use std::sync::{Arc, Wait};
use std::thread::Threads;

// A gate that holds nobody.
#[derive(Drop)]
struct OpenGate;

impl Gate for OpenGate {
    fn pass(&self, _node: Member, _point: Point) {}
}

// Tells on standard error what is told beside what is printed.
fn tell_beside<R: Eprint>(rt: &R, printed: &Printed) {
    if !printed.beside.is_empty() {
        let beside = printed.beside.as_str();
        let _ = eprint!(rt; "{beside}");
    }
}

// What a run is asked for, and the folder that was made for it.
#[derive(Drop)]
struct Run<'a> {
    live: Live<'a>,
    look: Look,
    made: Option<Made<'a>>,
}

// Plays one line, and writes what is printed of it. What is shown of the work is taken away before anything that goes to a terminal. The error is the outlet's, or what the play was refused by.
fn play_line<R: Eprint + Wait, P: Pilot, O: Outlet, Q: Progress>(
    rt: &R,
    manner: Manner<'_>,
    showing: &mut Showing<P>,
    line: &Line,
    outlet: &mut O,
    progress: &Q,
) -> Result<(), RunFault>
    ensures played { OnOk result ((text : List ℕ) × PlaysIn manner.entry.look.form P.plays showing.old line.now text showing.new × Appends (O.holds outlet.old) (O.holds outlet.new) text) }
    ensures begun { OnErr result ((outlet.new ≡ outlet.old) ⊎ ((text : List ℕ) × PlaysIn manner.entry.look.form P.plays showing.old line.now text showing.new × AppendsBeginning (O.holds outlet.old) (O.holds outlet.new) text)) }
    ensures failed { (error : Error) → result ≡ Err (RunFault.Output error) → IsLastError O.fails error outlet.new }
{
    let printed = showing.play(rt, manner, line)?;
    if printed.is_for_terminal(manner.look) {
        progress.hide();
    }
    tell_beside(rt, &printed);
    tell(printed.text.as_str(), outlet)?;
    Ok(())
}

// Plays the lines in turn, and writes what is printed of each before the next one is played.
fn play_lines<R: Eprint + Wait, P: Pilot, O: Outlet, Q: Progress>(
    rt: &R,
    manner: Manner<'_>,
    showing: &mut Showing<P>,
    lines: &[Line],
    outlet: &mut O,
    progress: &Q,
) -> Result<(), RunFault>
    ensures played { OnOk result ((printed : List ℕ) × PlaysAll (PlaysIn manner.entry.look.form P.plays) showing.old lines.now printed showing.new × Appends (O.holds outlet.old) (O.holds outlet.new) printed) }
    ensures begun { OnErr result (BeginsLines (PlaysIn manner.entry.look.form P.plays) lines.now showing.old (O.holds outlet.old) (O.holds outlet.new)) }
    ensures failed { (error : Error) → result ≡ Err (RunFault.Output error) → IsLastError O.fails error outlet.new }
{
    let mut done: usize = 0;
    progress.begin("lines", lines.len());
    for line in lines {
        play_line(rt, manner, showing, line, outlet, progress)?;
        done = done.saturating_add(1);
        progress.tell(done);
    }
    Ok(())
}

// Plays the lines, and stops all nodes, also after a fault: nobody has a database open then.
fn fly<R: Eprint + Wait + Threads, P: Pilot, O: Outlet, Q: Progress>(
    rt: &R,
    manner: Manner<'_>,
    pilot: P,
    lines: &[Line],
    outlet: &mut O,
    progress: &Q,
) -> Result<Records, RunFault>
    ensures records { IfOk result (λ records. (printed : List ℕ) × (last : AnyShowing P) × PlaysLines manner.entry.look.form P.plays pilot lines.now printed last
        × P.recorded last.pilot records.lives.items records.answers.items × Appends (O.holds outlet.old) (O.holds outlet.new) printed) }
    ensures begun { OnErr result (BeginsLines (PlaysIn manner.entry.look.form P.plays) lines.now (unshown pilot) (O.holds outlet.old) (O.holds outlet.new)) }
    ensures failed { (error : Error) → result ≡ Err (RunFault.Output error) → IsLastError O.fails error outlet.new }
{
    let alloc = manner.alloc;
    let mut showing = Showing::new(pilot);
    let played = play_lines(rt, manner, &mut showing, lines, outlet, progress);
    progress.hide();
    let Showing {
        pilot,
        has_answered: _,
    } = showing;
    let ended = pilot.end(rt, alloc);
    played?;
    Ok(ended?)
}

// Starts a node over each database. After an error no thread is left, and nobody has a database open.
fn start<S, R>(
    rt: &R,
    alloc: Global,
    live: Live<'_>,
    script: &LiveScript,
    images: Vec<Connection<S>>,
) -> Result<Driver, Refusal>
where
    S: Alter + Send + Drop + 'static,
    R: Wait + Threads + Copy + Send + Drop + 'static,
    requires { vec_len images ≤ 7 }
{
    let config = Config {
        schema: script.schema.clone()?,
        images,
    };
    let schema = script.schema.clone()?;
    let stations = stations(alloc, live.nodes, live.seed)?;
    let gate = Arc::new(alloc, OpenGate)?;
    let cluster = Cluster::start::<SqlKeeper<S>, OpenGate, R>(rt, alloc, config, gate)?;
    let weather = Weather::new(live.seed, live.loss);
    Ok(Driver::new(alloc, schema, cluster, stations, weather))
}

// A node over each of new databases in the folder. After an error the files that were made are removed, and no others.
fn start_in<'a, R>(
    rt: &R,
    host: &HostRuntime,
    live: Live<'a>,
    script: &LiveScript,
    folder: Folder<'a>,
) -> Result<(Made<'a>, Driver), Stop<'a>>
where
    R: AllocGlobal + Files + Wait + Threads + Copy + Send + Drop + 'static,
    requires { folder.nodes ≤ 7 }
    ensures { IfErr result (λ stop. (error : Error) → stop.fault ≡ RunFault.Output error → ⊥) }
{
    let alloc: Global = rt.alloc();
    let (made, images) = make_databases(rt, host, alloc, folder)?;
    match start(rt, alloc, live, script, images) {
        Ok(driver) => Ok((made, driver)),
        Err(refusal) => {
            made.remove(rt);
            Err(Stop {
                fault: RunFault::Refused(refusal),
                cause: Some(Cause {
                    file: Name::Given(folder.name),
                    tried: "starting the nodes",
                    found: Found::Words("one of them does not start"),
                }),
            })
        }
    }
}

// A node over each of new databases, in the folder or in memory.
fn start_somewhere<'a, R>(
    rt: &R,
    host: &HostRuntime,
    live: Live<'a>,
    script: &LiveScript,
) -> Result<(Option<Made<'a>>, Driver), Stop<'a>>
where
    R: AllocGlobal + Files + Wait + Threads + Copy + Send + Drop + 'static,
    ensures { IfErr result (λ stop. (error : Error) → stop.fault ≡ RunFault.Output error → ⊥) }
{
    let nodes = live.nodes;
    match live.dir {
        None => {
            let alloc: Global = rt.alloc();
            let images = databases_in_memory(alloc, nodes)?;
            Ok((None, start(rt, alloc, live, script, images)?))
        }
        Some(name) => {
            let (made, driver) = start_in(rt, host, live, script, Folder { name, nodes })?;
            Ok((Some(made), driver))
        }
    }
}

fn has_fallen(lives: &[Life]) -> bool {
    lives
        .iter()
        .any(|life| matches!(&life.ending, Ending::Torn(_)))
}

// Tells of each node that went down in a step, in a line of its own.
fn tell_fallen<R: Eprint>(rt: &R, live: Live<'_>, lives: &[Vec<Life>]) {
    for (at, lives) in lives.iter().enumerate() {
        if !has_fallen(lives) {
            continue;
        }
        let node = u8::try_from(at).unwrap_or(0).saturating_add(1);
        let file = match live.dir {
            Some(folder) => Name::OfNode {
                folder,
                node,
                end: ".db",
            },
            None => Name::Given(live.script),
        };
        let tried = "playing the script";
        let found = Found::Fallen(node);
        let _ = eprintln!(rt; "{}", Cause { file, tried, found });
    }
}

// Closes the databases of a folder and writes the flights there, where there is one.
fn finish<'a, R: Files>(
    rt: &R,
    host: &HostRuntime,
    made: Option<Made<'a>>,
    schema: &Text,
    records: Records,
) -> Result<(), Trouble<'a>> {
    match made {
        Some(made) => made.finish(rt, host, schema, records),
        None => Ok(()),
    }
}

// Leaves the folder whole, where there is one, and then writes the verdict on the run. It gives the exit status.
fn end_run<'a, R, O>(
    rt: &R,
    host: &HostRuntime,
    run: Run<'a>,
    script: &LiveScript,
    records: Records,
    outlet: &mut O,
) -> Result<u8, Stop<'a>>
where
    R: AllocGlobal + Eprint + Files,
    O: Outlet,
    ensures said { IfOk result (λ status. (text : List ℕ) × IsVerdictIn run.entry.look.form (evidence_of Three script.now.schema records.lives.items records.answers.items) status text × Appends (O.holds outlet.old) (O.holds outlet.new) text) }
    ensures sent { OnOk result (O.is_sent outlet.new) }
    ensures begun { OnErr result ((outlet.new ≡ outlet.old) ⊎ BeginsVerdict run.entry.look.form (evidence_of Three script.now.schema records.lives.items records.answers.items) (O.holds outlet.old) (O.holds outlet.new)) }
    ensures failed { IfErr result (λ stop. (error : Error) → stop.fault ≡ RunFault.Output error → IsLastError O.fails error outlet.new) }
{
    let said = verdict_in(rt.alloc(), run.look.form, &script.schema, &records);
    finish(rt, host, run.made, &script.schema_text, records)?;
    let (status, verdict) = said?;
    tell_beside(rt, &verdict);
    tell(verdict.text.as_str(), outlet)?;
    Ok(status)
}

// Closes the databases of a folder, where there is one and they can be closed.
fn give_up<R: Files>(rt: &R, host: &HostRuntime, made: Option<Made<'_>>) {
    if let Some(made) = made {
        let _ = made.close(rt, host);
    }
}

// Has a pilot play the script, leaves the folder whole, where there is one, and prints the verdict on what the nodes
// recorded. After a fault the databases are closed, where they can be.
fn run_by<'a, R, P, O, Q>(
    rt: &R,
    host: &HostRuntime,
    run: Run<'a>,
    script: &LiveScript,
    pilot: P,
    outlet: &mut O,
    progress: &Q,
) -> Result<u8, Stop<'a>>
where
    R: AllocGlobal + Files + Eprint + Wait + Threads,
    P: Pilot,
    O: Outlet,
    Q: Progress,
    ensures printed { IfOk result (λ status. PrintsRun run.entry.look.form P.plays P.recorded script.now.schema script.now.lines.items pilot status (O.holds outlet.old) (O.holds outlet.new)) }
    ensures sent { OnOk result (O.is_sent outlet.new) }
    ensures begun { OnErr result (BeginsLines (PlaysIn run.entry.look.form P.plays) script.now.lines.items (unshown pilot) (O.holds outlet.old) (O.holds outlet.new)
        ⊎ BeginsRun run.entry.look.form P.plays P.recorded script.now.schema script.now.lines.items pilot (O.holds outlet.old) (O.holds outlet.new)) }
    ensures failed { IfErr result (λ stop. (error : Error) → stop.fault ≡ RunFault.Output error → IsLastError O.fails error outlet.new) }
{
    let manner = Manner {
        alloc: rt.alloc(),
        look: run.look,
        schema: &script.schema,
    };
    match fly(rt, manner, pilot, script.lines.as_slice(), outlet, progress) {
        Ok(records) => {
            tell_fallen(rt, run.live, records.lives.as_slice());
            end_run(rt, host, run, script, records, outlet)
        }
        Err(fault) => {
            give_up(rt, host, run.made);
            Err(Stop::from(fault))
        }
    }
}

/// Reads a script to its end, plays it on nodes that run on threads of their own, and prints in this form what its lines give and then
/// what an audit says of the run. Of CSV the answers are printed, and all else is told on standard error. How many lines are played is
/// told to who asks for it. It gives the exit status, 0 or where the audit says no 1, or what ended the command:
/// want of memory, the error of the outlet's last call, or a refusal, with the file that a refusal of the folder came of. 60
/// and 10 to 18 are of the script; then 44 where the folder has a file of one of the nodes already, and 40 where there is no
/// such folder, or a database or a flight can't be made there. After a refusal of the script nothing is printed; where the
/// nodes do not start, the files that were made are removed. Else each database is closed in the end, also after an
/// error of the outlet, and whole without its log. A node that went down in a step, as its store failed or memory was
/// refused, is told on standard error.
pub fn run_live<'a, R, I, O, Q>(
    rt: &R,
    host: &HostRuntime,
    live: Live<'a>,
    look: Look,
    reader: &mut I,
    outlet: &mut O,
    progress: &Q,
) -> Result<u8, Stop<'a>>
where
    R: AllocGlobal + Files + Eprint + Wait + Threads + Copy + Send + Drop + 'static,
    I: io::Read,
    O: Outlet,
    Q: Progress,
    ensures said { IfOk result (λ status. IsOfText (I.remaining reader.old) (EndsRun look.form live.entry.nodes status (O.holds outlet.old) (O.holds outlet.new))) }
    ensures sent { OnOk result (O.is_sent outlet.new) }
    ensures failed { IfErr result (λ stop. (error : Error) → stop.fault ≡ RunFault.Output error → IsLastError O.fails error outlet.new) }
{
    let alloc: Global = rt.alloc();
    let text = read_text(alloc, reader)?;
    let script = read_live(alloc, text.as_str(), live.nodes)?;
    let (made, driver) = start_somewhere(rt, host, live, &script)?;
    let run = Run { live, look, made };
    run_by(rt, host, run, &script, driver, outlet, progress)
}
