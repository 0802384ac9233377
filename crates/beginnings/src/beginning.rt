//! What is kept of a node's flight, and whether a later one begins so.
ghost use Rattle.std.specs.Prelude.{◌≡◌, IfOk};
ghost use Rattle.flight.specs.Contents.{in_flight};
ghost use Rattle.beginnings.specs.Beginnings.{beginning_of, IsFound};
ghost use Rattle.beginnings.specs.Lines.{IsKept};

use crate::stem::{digest_of, stem_of};
use flight::flight::Flight;
use std::alloc::{AllocError, Global};

/// What is kept of a node's flight: it stays a beginning as the node goes on.
#[derive(Clone, Copy, PartialEq, Eq, Debug)]
pub struct Beginning {
    /// How many bytes stand in the file before its first answer, without a last line `up`.
    pub bytes: usize,
    pub answers: usize,
    /// SHA-256 of these bytes and, behind them, of these answers as they stand in the file.
    pub digest: [u8; 32],
}

/// What a flight is beside a beginning that was kept.
#[derive(Clone, Copy, PartialEq, Eq, Debug)]
pub enum Found {
    /// It begins so.
    Begins,
    /// It has as many bytes and answers, but others.
    Differs,
    /// It has fewer bytes or fewer answers.
    Less,
}

impl Beginning {
    /// That of all that a flight has. The error is want of memory.
    pub fn of(alloc: Global, flight: &Flight) -> Result<Beginning, AllocError>
        ensures value { IfOk result (λ kept. kept ≡ beginning_of (in_flight flight.now)) }
        ensures range { IfOk result IsKept }
    {
        let stem = stem_of(alloc, flight)?;
        let answers = flight.answers.as_slice();
        Ok(Beginning {
            bytes: stem.len(),
            answers: answers.len(),
            digest: digest_of(alloc, stem.as_slice(), answers)?,
        })
    }

    /// What a flight is beside it. The error is want of memory.
    pub fn found_in(&self, alloc: Global, flight: &Flight) -> Result<Found, AllocError>
        ensures { IfOk result (IsFound (in_flight flight.now) self.now) }
    {
        let stem = stem_of(alloc, flight)?;
        let answers = flight.answers.as_slice();
        if stem.len() < self.bytes || answers.len() < self.answers {
            return Ok(Found::Less);
        }
        let digest = digest_of(alloc, &stem[..self.bytes], &answers[..self.answers])?;
        if digest == self.digest {
            Ok(Found::Begins)
        } else {
            Ok(Found::Differs)
        }
    }
}
