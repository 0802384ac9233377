//! Who plays a script's lines on nodes, and gives what they recorded.
ghost use Rattle.std.specs.Prelude.{◌≡◌, List, map, IfOk};
ghost use Rattle.std.specs.declared.vec.Vec.{Vec as AnyVec};
ghost use Rattle.std.specs.declared.alloc.Global.{Global as AnyGlobal};
ghost use Rattle.flight.specs.declared.flight.Answered.{Answered as AnyAnswered};
ghost use Rattle.flight.specs.declared.life.Life.{Life as AnyLife};
ghost use Rattle.lines.specs.declared.line.Line.{Line as AnyLine};
ghost use Rattle.live.specs.Saying.{IsSaidOf};
ghost use Rattle.live.specs.Stations.{stations_of};
ghost use Rattle.live.specs.declared.said.Said.{Said as AnySaid};
ghost use Rattle.shell.specs.Pilots.{answers_in};

use fault::Refusal;
use flight::{Answered, Records};
use lines::line::Line;
use live::station::Station;
use live::{Driver, Said};
use std::alloc::{AllocError, Global};
use std::sync::Wait;
use std::thread::Threads;

/// Who plays a script's lines on nodes. Of a line `plays` is known only where it was played, and `recorded` of lives and
/// answers only where the end gave them: who promises them over any pilot can't invent what a line says, nor what nodes
/// recorded.
pub trait Pilot {
    /// The pilot before a line, the line, what it says, and the pilot after it.
    ghost plays: { Self → AnyLine → AnySaid → Self → Type 0 };

    /// The pilot before its end, and the lives and answers that its nodes recorded, node by node.
    ghost recorded: { Self → List (AnyVec AnyLife AnyGlobal) → List (AnyVec AnyAnswered AnyGlobal) → Type 0 };

    /// Plays a line, and gives what it says.
    fn play<R: Wait>(&mut self, rt: &R, line: &Line) -> Result<Said, Refusal>
        ensures { IfOk result (λ said. plays self.old line.now said self.new) };

    /// Stops all nodes, and gives what they recorded. The error is want of memory.
    fn end<R: Wait + Threads>(self, rt: &R, alloc: Global) -> Result<Records, AllocError>
        ensures { IfOk result (λ records. recorded self records.lives.items records.answers.items) };
}

impl Pilot for Driver {
    ghost plays = { λ _ line said _. IsSaidOf line said };

    ghost recorded = { λ driver _ answers. answers ≡ map answers_in (stations_of driver) };

    fn play<R: Wait>(&mut self, rt: &R, line: &Line) -> Result<Said, Refusal> {
        Driver::play(self, rt, line)
    }

    fn end<R: Wait + Threads>(self, rt: &R, alloc: Global) -> Result<Records, AllocError> {
        let (cluster, stations) = self.into_parts();
        let ended = cluster.stop(rt);
        let answers = answers_of(alloc, stations)?;
        Ok(Records {
            lives: ended.lives,
            answers,
        })
    }
}

// What the stations' views answered.
fn answers_of(alloc: Global, stations: Vec<Station>) -> Result<Vec<Vec<Answered>>, AllocError>
    ensures { IfOk result (λ answers. answers.items ≡ map answers_in stations.items) }
{
    let mut answers = Vec::new(alloc);
    for station in stations {
        answers.push(station.answers)?;
    }
    Ok(answers)
}
