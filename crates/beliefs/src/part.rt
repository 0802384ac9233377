//! Some stretches of days side by side, with the versions in them.
use crate::calendar::{LAST_DAY, day_or_no_end, length_text};
use crate::lines::{between, put_line, put_many, put_padded, trimmed, write_over};
use crate::picture::{OPEN, Picture, Version};
use crate::widths::label;
use model::stamp::{LAST_MICROS, Stamp};
use std::alloc::{AllocError, Global};
use std::collections::BTreeSet;

// The room of the instants on the left.
pub(crate) const LABEL: usize = 28;

// Of more levels the newest are drawn.
const LEVELS: usize = 30;

/// Some stretches of a picture, as a grid: of each level, the newest first, and each stretch the version that is there.
#[derive(Drop)]
pub(crate) struct Part<'a> {
    alloc: Global,
    picture: &'a Picture,
    // The room of each stretch, and the days between which they lie.
    wide: &'a [usize],
    days: &'a [u32],
    // The instants between which the levels lie, in order.
    instants: Vec<u64>,
    // How many older levels are not drawn.
    pub(crate) left_out: usize,
    // The places of the versions. There is an empty level above and below and an empty stretch on both sides.
    cells: Vec<Vec<Option<usize>>>,
}

// The instants at which something changes within these days.
fn instants_within(alloc: Global, picture: &Picture, days: &[u32]) -> Result<Vec<u64>, AllocError> {
    let first = days.first().copied().unwrap_or(0);
    let last = days.last().copied().unwrap_or(0);
    let mut instants = BTreeSet::new(alloc);
    for version in &picture.versions {
        if version.start < last && version.end > first {
            instants.insert(version.since)?;
            instants.insert(version.until)?;
        }
    }
    if picture.has_unasked() {
        instants.insert(picture.first)?;
    }
    instants.iter().copied().collect(alloc)
}

// The place of the version that is believed of this day at this instant.
fn version_at(picture: &Picture, day: u32, instant: u64) -> Option<usize> {
    for (at, version) in picture.versions.iter().enumerate() {
        if version.covers(day, instant) {
            return Some(at);
        }
    }
    None
}

// A level, with nothing on both sides.
fn level_of(
    alloc: Global,
    picture: &Picture,
    days: &[u32],
    instant: u64,
) -> Result<Vec<Option<usize>>, AllocError> {
    let mut level = Vec::new(alloc);
    level.push(None)?;
    for day in between_days(days) {
        level.push(version_at(picture, *day, instant))?;
    }
    level.push(None)?;
    Ok(level)
}

// All days but the last.
fn between_days(days: &[u32]) -> &[u32] {
    match days.split_last() {
        Some((_, rest)) => rest,
        None => days,
    }
}

fn cells_of(
    alloc: Global,
    picture: &Picture,
    days: &[u32],
    instants: &[u64],
) -> Result<Vec<Vec<Option<usize>>>, AllocError> {
    let mut cells = Vec::new(alloc);
    cells.push(Vec::new(alloc))?;
    for at in (1..instants.len()).rev() {
        if let Some(instant) = instants.get(at - 1) {
            cells.push(level_of(alloc, picture, days, *instant)?)?;
        }
    }
    cells.push(Vec::new(alloc))?;
    Ok(cells)
}

impl<'a> Part<'a> {
    /// The stretches from the first one to before the last, of which the rooms are those of all.
    pub(crate) fn new(
        alloc: Global,
        picture: &'a Picture,
        wide: &'a [usize],
        first: usize,
        last: usize,
    ) -> Result<Part<'a>, AllocError> {
        let wide = wide.get(first..last).unwrap_or(&[]);
        let end = last.saturating_add(1);
        let days = picture.days.get(first..end).unwrap_or(&[]);
        let all = instants_within(alloc, picture, days)?;
        let left_out = all.len().saturating_sub(LEVELS + 1);
        let instants = all.get(left_out..).unwrap_or(&[]).to_vec(alloc)?;
        let cells = cells_of(alloc, picture, days, instants.as_slice())?;
        Ok(Part {
            alloc,
            picture,
            wide,
            days,
            instants,
            left_out,
            cells,
        })
    }

    // How many levels are drawn.
    fn levels(&self) -> usize {
        self.instants.len().saturating_sub(1)
    }

    // The place of the version in the grid with its empty borders.
    fn at(&self, row: usize, column: usize) -> Option<usize> {
        match self.cells.get(row) {
            Some(level) => level.get(column).copied().unwrap_or(None),
            None => None,
        }
    }

    fn version(&self, row: usize, column: usize) -> Option<&'a Version> {
        match self.at(row, column) {
            Some(place) => self.picture.versions.get(place),
            None => None,
        }
    }

    // Whether the question asks about the instants of a level, which count from 1.
    fn is_asked(&self, row: usize) -> bool {
        let place = self.instants.len().saturating_sub(row);
        match self.instants.get(place) {
            Some(instant) => *instant > self.picture.first,
            None => true,
        }
    }

    // The sign of the wall left of a stretch, which count from 1: | of a side, : where the part cuts it, > where it has no end.
    fn wall(&self, row: usize, column: usize) -> u8 {
        let left = self.version(row, column.saturating_sub(1));
        let right = self.version(row, column);
        let count = self.wide.len();
        let first = self.days.first().copied().unwrap_or(0);
        let last = self.days.last().copied().unwrap_or(0);
        match (left, right) {
            (Some(left), _) if column > count && left.end > last => b':',
            (_, Some(right)) if column <= 1 && right.start < first => b':',
            _ if self.at(row, column.saturating_sub(1)) == self.at(row, column) => {
                let is_within = 1 < column && column <= count;
                if left.is_none() && is_within && !self.is_asked(row) {
                    b'.'
                } else {
                    b' '
                }
            }
            (Some(left), None) if left.end >= LAST_DAY => b'>',
            _ => b'|',
        }
    }

    fn is_believed(&self, row: usize, column: usize) -> bool {
        match self.version(row, column) {
            Some(version) => version.is_believed(),
            None => false,
        }
    }

    // The sign where four cells meet, of which the one below on the right is this one.
    fn corner(&self, row: usize, column: usize) -> u8 {
        let above = row.saturating_sub(1);
        let before = column.saturating_sub(1);
        let across = self.at(above, before) != self.at(row, before)
            || self.at(above, column) != self.at(row, column);
        let down = self.at(above, before) != self.at(above, column)
            || self.at(row, before) != self.at(row, column);
        let is_open = row == 1 && (self.is_believed(row, before) || self.is_believed(row, column));
        match (is_open, across, down) {
            (true, _, true) => b'^',
            (true, _, false) => b' ',
            (false, true, true) => b'+',
            (false, true, false) => b'-',
            (false, false, true) => self.wall(row, column),
            (false, false, false) => b' ',
        }
    }

    // Adds the line above a level. Versions that have not ended are open there.
    fn put_edge(&self, row: usize, line: &mut Vec<u8>) -> Result<(), AllocError> {
        let above = row.saturating_sub(1);
        for (at, wide) in self.wide.iter().enumerate() {
            let column = at.saturating_add(1);
            line.push(self.corner(row, column))?;
            let is_open = row == 1 && self.is_believed(row, column);
            let is_edge = self.at(above, column) != self.at(row, column) && !is_open;
            put_many(if is_edge { b'-' } else { b' ' }, *wide, line)?;
        }
        line.push(self.corner(row, self.wide.len().saturating_add(1)))?;
        Ok(())
    }

    // Whether a version has its top at this level, there.
    fn is_top(&self, row: usize, column: usize) -> bool {
        let own = self.at(row, column);
        own.is_some() && own != self.at(row.saturating_sub(1), column)
    }

    // How many lines a level has: as many as the words of the versions whose tops are there, none where none has it.
    fn height(&self, row: usize) -> usize {
        let mut high = 0usize;
        for at in 0..self.wide.len() {
            let column = at.saturating_add(1);
            if self.is_top(row, column) {
                high = high.max(self.picture.names.len()).max(1);
            }
            if self.at(row, column).is_none() && !self.is_asked(row) {
                high = high.max(1);
            }
        }
        high
    }

    // The walls of a level, with what is between them.
    fn put_walls(&self, row: usize, line: &mut Vec<u8>) -> Result<(), AllocError> {
        for (at, wide) in self.wide.iter().enumerate() {
            let column = at.saturating_add(1);
            line.push(self.wall(row, column))?;
            let is_dotted = self.at(row, column).is_none() && !self.is_asked(row);
            put_many(if is_dotted { b'.' } else { b' ' }, *wide, line)?;
        }
        line.push(self.wall(row, self.wide.len().saturating_add(1)))?;
        Ok(())
    }

    // The room of the words of the version that begins at this stretch.
    fn room(&self, row: usize, column: usize) -> usize {
        let own = self.at(row, column);
        let mut room = 0usize;
        for (at, wide) in self.wide.iter().enumerate() {
            let other = at.saturating_add(1);
            if other >= column && self.at(row, other) == own {
                room = room.saturating_add(*wide).saturating_add(1);
            }
        }
        room.saturating_sub(2)
    }

    // Writes a line of the words of the version at this stretch over the line, where they begin there. It says whether they
    // were cut.
    fn write_words(
        &self,
        row: usize,
        column: usize,
        at: usize,
        line: &mut Vec<u8>,
    ) -> Result<bool, AllocError> {
        let is_first = self.at(row, column) != self.at(row, column.saturating_sub(1));
        let Some(version) = self.version(row, column) else {
            return Ok(false);
        };
        if !is_first || !self.is_top(row, column) {
            return Ok(false);
        }
        let words = label(self.alloc, self.picture, version, at)?;
        let place = self.place_of(column);
        let room = self.room(row, column);
        if words.len() <= room {
            write_over(words.as_bytes(), place, line.as_mut_slice());
            return Ok(false);
        }
        let kept = trimmed(between(words.as_bytes(), 0, room.saturating_sub(2)));
        write_over(kept, place, line.as_mut_slice());
        write_over(b"..", place.saturating_add(kept.len()), line.as_mut_slice());
        Ok(true)
    }

    // Where the words of a version begin that begins at this stretch.
    fn place_of(&self, column: usize) -> usize {
        let mut place = LABEL.saturating_add(2);
        for (at, wide) in self.wide.iter().enumerate() {
            if at.saturating_add(1) < column {
                place = place.saturating_add(*wide).saturating_add(1);
            }
        }
        place
    }

    // A level without its edge. It says whether words were cut.
    fn put_level(&self, row: usize, page: &mut Vec<u8>) -> Result<bool, AllocError> {
        let mut is_cut = false;
        for at in 0..self.height(row) {
            let mut line = Vec::new(self.alloc);
            put_many(b' ', LABEL, &mut line)?;
            self.put_walls(row, &mut line)?;
            for column in 1..=self.wide.len() {
                is_cut |= self.write_words(row, column, at, &mut line)?;
            }
            put_shown(line.as_slice(), page)?;
        }
        Ok(is_cut)
    }

    // The words for the instant above a level.
    fn put_instant(&self, row: usize, top: &str, line: &mut Vec<u8>) -> Result<(), AllocError> {
        let place = self.instants.len().saturating_sub(row);
        match self.instants.get(place) {
            Some(instant) if *instant <= LAST_MICROS => {
                let instant = Stamp::new(*instant).instant();
                let text = instant.to_string(self.alloc)?;
                put_padded(text.as_bytes(), LABEL, line)
            }
            Some(instant) if *instant == OPEN => put_padded(top.as_bytes(), LABEL, line),
            _ => put_many(b' ', LABEL, line),
        }
    }

    // The line below the last level, dotted where older ones are not drawn.
    fn put_floor(&self, top: &str, page: &mut Vec<u8>) -> Result<(), AllocError> {
        let row = self.levels().saturating_add(1);
        let mut line = Vec::new(self.alloc);
        if self.left_out > 0 {
            put_padded(b"..", LABEL, &mut line)?;
            let mut edge = Vec::new(self.alloc);
            self.put_edge(row, &mut edge)?;
            for sign in &edge {
                line.push(dotted(*sign))?;
            }
        } else {
            self.put_instant(row, top, &mut line)?;
            self.put_edge(row, &mut line)?;
        }
        put_shown(line.as_slice(), page)
    }

    // The days, and how long the stretches between them are.
    fn put_days(&self, page: &mut Vec<u8>) -> Result<(), AllocError> {
        let mut dates = Vec::new(self.alloc);
        let mut lengths = Vec::new(self.alloc);
        put_many(b' ', LABEL, &mut dates)?;
        put_many(b' ', LABEL, &mut lengths)?;
        for (at, day) in self.days.iter().enumerate() {
            let wide = self.wide.get(at).copied().unwrap_or(0);
            let shown = day_or_no_end(self.alloc, *day)?;
            put_padded(shown.as_bytes(), wide.saturating_add(1), &mut dates)?;
            if let Some(next) = self.days.get(at.saturating_add(1)) {
                let length = length_text(self.alloc, *day, *next)?;
                lengths.push(b' ')?;
                put_padded(length.as_bytes(), wide, &mut lengths)?;
            }
        }
        put_shown(dates.as_slice(), page)?;
        put_shown(lengths.as_slice(), page)
    }

    /// Adds the part's lines, and says whether words were cut. `top` is what an open end is called.
    pub(crate) fn put(&self, top: &str, page: &mut Vec<u8>) -> Result<bool, AllocError> {
        if self.levels() == 0 {
            self.put_nothing(page)?;
            return Ok(false);
        }
        let mut is_cut = false;
        for row in 1..=self.levels() {
            let mut line = Vec::new(self.alloc);
            self.put_instant(row, top, &mut line)?;
            self.put_edge(row, &mut line)?;
            put_shown(line.as_slice(), page)?;
            is_cut |= self.put_level(row, page)?;
        }
        self.put_floor(top, page)?;
        self.put_days(page)?;
        Ok(is_cut)
    }

    fn put_nothing(&self, page: &mut Vec<u8>) -> Result<(), AllocError> {
        let first = day_or_no_end(self.alloc, self.days.first().copied().unwrap_or(0))?;
        let last = day_or_no_end(self.alloc, self.days.last().copied().unwrap_or(0))?;
        let line = format!(in self.alloc; "no row from {first} to {last}")?;
        put_line(line.as_bytes(), page)
    }
}

// The sign of an edge beyond which more is not drawn.
fn dotted(sign: u8) -> u8 {
    match sign {
        b'-' => b'.',
        b'+' => b':',
        sign => sign,
    }
}

// Adds a line that is not blank.
fn put_shown(line: &[u8], page: &mut Vec<u8>) -> Result<(), AllocError> {
    if trimmed(line).is_empty() {
        return Ok(());
    }
    put_line(line, page)
}
