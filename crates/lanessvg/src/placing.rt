//! Which row of the page each event and each of its notes stands in.
use lanes::run::{Act, Event, News, Run, Sent};
use std::alloc::{AllocError, Global};
use std::num::nearest_usize_to_f64;

/// From row to row.
pub(crate) const ROW: f64 = 28.0;

/// From lane to lane.
pub(crate) const GAP: f64 = 240.0;

// How far the words of an arrow stand before its head.
const AHEAD: f64 = 95.0;

// So many rows an arrow is moved down at most, to keep its words clear of others.
const ROWS_DOWN: usize = 1_000;

/// A number as a length.
pub(crate) fn whole(count: usize) -> f64 {
    nearest_usize_to_f64(count)
}

#[derive(Clone, Copy, PartialEq, Eq)]
enum Purpose {
    Events,
    Notes,
    Empty,
}

#[derive(Clone, Copy)]
struct Row {
    purpose: Purpose,
    // Whether a note stands in it.
    is_taken: bool,
}

/// Where an event stands: its row, and those of its notes.
#[derive(Drop)]
pub(crate) struct Place {
    pub(crate) row: usize,
    pub(crate) notes: Vec<usize>,
}

// The last arrow to a lane from one side: its row, and how steep it is.
#[derive(Clone, Copy)]
struct Arrival {
    row: f64,
    fall: f64,
}

// What of a round is known of each member: the row from which on its next event may stand, and the last arrows to its lane from
// the left and from the right.
#[derive(Clone, Copy)]
struct Lately {
    after: usize,
    from_left: Arrival,
    from_right: Arrival,
}

/// The rows of a page.
#[derive(Drop)]
pub(crate) struct Placing<'a> {
    alloc: Global,
    run: &'a Run,
    rows: Vec<Row>,
    /// The first row of each act.
    pub(crate) firsts: Vec<usize>,
    /// The first row of each round, with its number.
    pub(crate) rounds: Vec<(usize, usize)>,
    /// All events, in the order of the run.
    pub(crate) places: Vec<Place>,
    // Of each message the row of the event that sent it, where that is drawn.
    senders: Vec<Option<usize>>,
    lately: Vec<Lately>,
}

impl<'a> Placing<'a> {
    /// The rows of a run.
    pub(crate) fn new(alloc: Global, run: &'a Run) -> Result<Placing<'a>, AllocError> {
        let mut placing = Placing {
            alloc,
            run,
            rows: Vec::new(alloc),
            firsts: Vec::new(alloc),
            rounds: Vec::new(alloc),
            places: Vec::new(alloc),
            senders: vec![in alloc; None; run.messages.len()]?,
            lately: Vec::new(alloc),
        };
        for act in &run.acts {
            placing.place_act(act)?;
        }
        Ok(placing)
    }

    /// How many rows there are.
    pub(crate) fn len(&self) -> usize {
        self.rows.len()
    }

    /// The row of the event that sent a message, if it is drawn.
    pub(crate) fn sender_row(&self, number: usize) -> Option<usize> {
        self.senders
            .get(number.saturating_sub(1))
            .copied()
            .unwrap_or(None)
    }

    fn place_act(&mut self, act: &Act) -> Result<(), AllocError> {
        let first = self.rows.len();
        self.firsts.push(first)?;
        let mut round = None;
        for event in &act.events {
            if round != Some(event.round) {
                round = Some(event.round);
                self.begin_round(event.round)?;
            }
            self.place_event(event)?;
        }
        if self.rows.len() == first {
            self.push_row(Purpose::Empty)?;
        }
        Ok(())
    }

    fn begin_round(&mut self, round: usize) -> Result<(), AllocError> {
        let first = self.rows.len();
        if round > 0 {
            self.rounds.push((first, round))?;
        }
        let none = Arrival {
            row: -9.0,
            fall: 0.0,
        };
        let lately = Lately {
            after: first,
            from_left: none,
            from_right: none,
        };
        self.lately = vec![in self.alloc; lately; self.run.members]?;
        Ok(())
    }

    fn after(&self, event: &Event) -> usize {
        match self.lately.get(event.node.saturating_sub(1)) {
            Some(lately) => lately.after,
            None => 0,
        }
    }

    // Each event stands at the first row after what its member did last.
    fn place_event(&mut self, event: &Event) -> Result<(), AllocError> {
        let after = self.after(event);
        let row = self.find(Purpose::Events, after)?;
        let row = match event.message() {
            Some(number) => self.clear(event, number, row)?,
            None => row,
        };
        for number in &event.sent {
            if let Some(sender) = self.senders.get_mut(number.saturating_sub(1)) {
                *sender = Some(row);
            }
        }
        let (notes, last) = self.place_notes(event, row)?;
        self.places.push(Place { row, notes })?;
        if let Some(lately) = self.lately.get_mut(event.node.saturating_sub(1)) {
            lately.after = last.saturating_add(1);
        }
        Ok(())
    }

    // Each note has a row of its own: that of its event where it is free, but what a member tells once it took a message stands
    // below, as its sign stands on the lane. It gives the last row too.
    fn place_notes(
        &mut self,
        event: &Event,
        row: usize,
    ) -> Result<(Vec<usize>, usize), AllocError> {
        let mut notes = Vec::new(self.alloc);
        let mut last = row;
        for note in &event.notes {
            let tells = matches!(note.news, News::Accepted | News::Refused) && event.is_taken();
            last = if tells || self.is_taken(row) {
                self.find(Purpose::Notes, last.saturating_add(1))?
            } else {
                row
            };
            self.take(last);
            notes.push(last)?;
        }
        Ok((notes, last))
    }

    fn is_taken(&self, row: usize) -> bool {
        match self.rows.get(row) {
            Some(row) => row.is_taken,
            None => false,
        }
    }

    fn take(&mut self, row: usize) {
        if let Some(row) = self.rows.get_mut(row) {
            row.is_taken = true;
        }
    }

    fn push_row(&mut self, purpose: Purpose) -> Result<(), AllocError> {
        self.rows.push(Row {
            purpose,
            is_taken: false,
        })?;
        Ok(())
    }

    // The first row for this purpose from here on, which is added where there is none.
    fn find(&mut self, purpose: Purpose, from: usize) -> Result<usize, AllocError> {
        let count = self.rows.len();
        for at in from..count {
            if let Some(row) = self.rows.get(at) {
                let is_free = purpose == Purpose::Events || !row.is_taken;
                if row.purpose == purpose && is_free {
                    return Ok(at);
                }
            }
        }
        self.push_row(purpose)?;
        Ok(count)
    }

    // How much an arrow falls for each step across, where it ends at this row.
    fn fall(&self, sent: &Sent, number: usize, row: usize) -> f64 {
        let from = match self.sender_row(number) {
            Some(from) => whole(from),
            None => -1.0,
        };
        let lanes = sent.sender.abs_diff(sent.addressee);
        (whole(row) - from) * ROW / (GAP * whole(lanes.max(1)))
    }

    // The row where the words on an arrow stay clear of those on the one that came to the same lane from the same side just
    // before: the steeper it is, the farther below.
    fn clear(&mut self, event: &Event, number: usize, row: usize) -> Result<usize, AllocError> {
        let run = self.run;
        let Some(sent) = run.message(number) else {
            return Ok(row);
        };
        let is_from_right = sent.sender > sent.addressee;
        let last = self.arrival(event, is_from_right);
        let mut row = row;
        for _ in 0..ROWS_DOWN {
            let fall = self.fall(sent, number, row);
            if (fall - last.fall) * AHEAD <= ROW * (whole(row) - last.row) - 13.0 {
                break;
            }
            row = self.find(Purpose::Events, row.saturating_add(1))?;
        }
        let arrival = Arrival {
            row: whole(row),
            fall: self.fall(sent, number, row),
        };
        self.arrive(event, is_from_right, arrival);
        Ok(row)
    }

    fn arrival(&self, event: &Event, is_from_right: bool) -> Arrival {
        match self.lately.get(event.node.saturating_sub(1)) {
            Some(lately) if is_from_right => lately.from_right,
            Some(lately) => lately.from_left,
            None => Arrival {
                row: -9.0,
                fall: 0.0,
            },
        }
    }

    fn arrive(&mut self, event: &Event, is_from_right: bool, arrival: Arrival) {
        if let Some(lately) = self.lately.get_mut(event.node.saturating_sub(1)) {
            if is_from_right {
                lately.from_right = arrival;
            } else {
                lately.from_left = arrival;
            }
        }
    }
}
