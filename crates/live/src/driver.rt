//! What drives a cluster through a script.
ghost use Rattle.std.specs.Prelude.{◌≡◌, ◌⊎◌, IfOk, None, length};
ghost use Rattle.std.specs.List.{All};
ghost use Rattle.live.specs.Saying.{IsOutcomeOf, IsRefusalOf, IsSaidOf};
ghost use Rattle.live.specs.Stations.{IsNew, stations_of};
ghost use Rattle.live.specs.declared.said.Said.TheVariants.{Nothing};

use crate::errand::Errand;
use crate::mail::Mail;
use crate::said::Said;
use crate::station::Station;
use fault::{Refusal, Text};
use flight::flight::Answered;
use lines::line::Line;
use model::entry::Request;
use model::member::Member;
use model::request::{Client, RequestNumber};
use model::stamp::Stamp;
use network::Weather;
use nodes::cluster::Cluster;
use schema::Schema;
use std::alloc::{AllocError, Global};
use std::sync::Wait;

/// How many rounds one line takes at most.
pub const LINE_ROUNDS: u32 = 10_000;

/// How many rounds `settle` takes that names no number.
pub const SETTLE_ROUNDS: u8 = 100;

/// A cluster, and all that decides on what its nodes are sent. It is ended by `into_parts`; it can't be dropped, as its
/// cluster can't.
pub struct Driver {
    pub(crate) alloc: Global,
    pub(crate) schema: Schema,
    pub(crate) cluster: Cluster,
    pub(crate) stations: Vec<Station>,
    pub(crate) mail: Mail,
    // How many rounds were played.
    pub(crate) rounds: u64,
    // The request that is on its way.
    pub(crate) errand: Option<Errand>,
    // The greatest index of an entry that was told of.
    pub(crate) told: usize,
}

/// What a driver keeps of each of so many nodes: the words of a node are those of the seed and its number.
pub fn stations(alloc: Global, nodes: u8, seed: u64) -> Result<Vec<Station>, AllocError>
    ensures { IfOk result (λ stations. (length stations.items ≡ nodes) × All IsNew stations.items) }
{
    let mut stations = Vec::new(alloc);
    for at in 0..nodes {
        stations.push(Station::new(alloc, seed.wrapping_add(u64::from(at) + 1)))?;
    }
    Ok(stations)
}

impl Driver {
    /// A driver of a cluster that was just started, with as many stations as it has nodes.
    pub fn new(
        alloc: Global,
        schema: Schema,
        cluster: Cluster,
        stations: Vec<Station>,
        weather: Weather,
    ) -> Driver
        ensures parts { (result.cluster ≡ cluster) × (stations_of result ≡ stations.items) }
        ensures fresh { (result.schema ≡ schema) × (result.rounds ≡ 0) × (result.errand ≡ None) × (result.told ≡ 0) }
    {
        Driver {
            alloc,
            schema,
            cluster,
            stations,
            mail: Mail::new(alloc, weather),
            rounds: 0,
            errand: None,
            told: 0,
        }
    }

    /// The cluster, which the caller stops, and what each node's views answered.
    pub fn into_parts(self) -> (Cluster, Vec<Station>)
        ensures { (result.0 ≡ self.cluster) × (result.1.items ≡ stations_of self) }
    {
        let Driver {
            alloc: _,
            schema: _,
            cluster,
            stations,
            mail: _,
            rounds: _,
            errand: _,
            told: _,
        } = self;
        (cluster, stations)
    }

    /// Plays a line, and gives what comes of it. 43 for want of memory, 41 where a node's thread is gone: the play is over
    /// then.
    pub fn play<R: Wait>(&mut self, rt: &R, line: &Line) -> Result<Said, Refusal>
        ensures { IfOk result (IsSaidOf line.now) }
    {
        match line {
            Line::Start { node } => self.start(rt, *node),
            Line::Ask { node, text } => self.ask(rt, *node, text),
            Line::Submit {
                node,
                client,
                number,
                text,
            } => {
                let request = Request {
                    client: *client,
                    number: *number,
                    text: text.clone()?,
                };
                self.submit(rt, *node, request)
            }
            line => {
                self.obey(rt, line)?;
                Ok(Said::Nothing)
            }
        }
    }

    // Plays a line of which nothing is told.
    fn obey<R: Wait>(&mut self, rt: &R, line: &Line) -> Result<(), Refusal> {
        match line {
            Line::Clock { node, reading } => self.set_clock(*node, *reading),
            Line::ClockAll { reading } => self.set_clocks(*reading),
            Line::Settle { rounds } => self.settle(rt, rounds.unwrap_or(SETTLE_ROUNDS))?,
            Line::Stop { node } => self.stop(rt, *node)?,
            _ => {}
        }
        Ok(())
    }

    fn set_clock(&mut self, node: Member, reading: i64) {
        if let Some(station) = self.stations.get_mut(node.saturating_sub(1)) {
            station.clock = reading;
        }
    }

    fn set_clocks(&mut self, reading: i64) {
        for station in &mut self.stations {
            station.clock = reading;
        }
    }

    fn settle<R: Wait>(&mut self, rt: &R, rounds: u8) -> Result<(), Refusal> {
        for _ in 0..rounds {
            self.round(rt)?;
        }
        Ok(())
    }

    fn stop<R: Wait>(&mut self, rt: &R, node: Member) -> Result<(), Refusal> {
        match self.stations.get_mut(node.saturating_sub(1)) {
            Some(station) if station.runs => {
                station.stopped();
                drop(self.cluster.stop_node(rt, node)?);
                Ok(())
            }
            _ => Ok(()),
        }
    }

    fn start<R: Wait>(&mut self, rt: &R, node: Member) -> Result<Said, Refusal>
        ensures { IfOk result (λ said. (said ≡ Nothing) ⊎ IsRefusalOf node said) }
    {
        let Some(station) = self.stations.get_mut(node.saturating_sub(1)) else {
            return Ok(Said::Nothing);
        };
        if station.runs {
            return Ok(Said::Nothing);
        }
        match self.cluster.start_node(rt, node) {
            Ok(()) => {
                station.started();
                Ok(Said::Nothing)
            }
            Err(Refusal::NoMemory) => Err(Refusal::NoMemory),
            Err(refusal) => Ok(Said::Refused(node, refusal)),
        }
    }

    fn submit<R: Wait>(&mut self, rt: &R, node: Member, request: Request) -> Result<Said, Refusal>
        ensures { IfOk result (IsOutcomeOf request.client request.number) }
    {
        let client = request.client;
        let number = request.number;
        self.errand = Some(Errand::new(node, request, self.told));
        self.run_errand(rt)?;
        let outcome = match self.errand.take() {
            Some(errand) => errand.outcome,
            None => None,
        };
        Ok(Said::Outcome(client, number, outcome))
    }

    // Plays rounds till the request has an outcome, or as many as a line may take.
    fn run_errand<R: Wait>(&mut self, rt: &R) -> Result<(), Refusal> {
        for _ in 0..LINE_ROUNDS {
            self.round(rt)?;
            if let Some(errand) = &self.errand {
                if errand.outcome.is_some() {
                    break;
                }
            }
        }
        Ok(())
    }
}
