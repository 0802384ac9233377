//! What is recorded of all nodes of a group.
ghost use Rattle.std.specs.Prelude.{◌≡◌, map, IfOk};

use crate::flight::{Answered, Flight};
use crate::life::Life;
use std::alloc::{AllocError, Global};

/// The lives and the answers of a group's nodes, node by node.
#[derive(Debug, Drop)]
pub struct Records {
    pub lives: Vec<Vec<Life>>,
    pub answers: Vec<Vec<Answered>>,
}

impl Records {
    /// Those that flights hold, in their order. The one error is want of memory.
    pub fn of(alloc: Global, flights: Vec<Flight>) -> Result<Records, AllocError>
        ensures lives { IfOk result (λ records. records.lives.items ≡ map (λ f. f.lives) flights.items) }
        ensures answers { IfOk result (λ records. records.answers.items ≡ map (λ f. f.answers) flights.items) }
    {
        let mut lives = Vec::new(alloc);
        let mut answers = Vec::new(alloc);
        for flight in flights {
            let Flight {
                version: _,
                node: _,
                members: _,
                schema: _,
                lives: led,
                answers: given,
            } = flight;
            lives.push(led)?;
            answers.push(given)?;
        }
        Ok(Records { lives, answers })
    }
}
