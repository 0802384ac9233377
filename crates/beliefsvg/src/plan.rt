//! Where the parts of a picture of one key stand.
use crate::colours::Colours;
use crate::places::{fit, greater, last_of, lesser, places_of, seconds, sum_of, whole};
use beliefs::calendar::LAST_DAY;
use beliefs::picture::{OPEN, Picture, Version};
use beliefs::widths::{label, place_of};
use std::alloc::{AllocError, Global};
use svgparts::{Parts, words_wide};

// The room for instants on the left, and that for the ruler of system time on the right.
pub(crate) const LEFT: f64 = 158.0;

pub(crate) const RIGHT: f64 = 138.0;

// The least room of a stretch of days with its date, and of a level with its instant.
pub(crate) const LEAST_DAY: f64 = 84.0;

const LEAST_LEVEL: f64 = 40.0;

// From one line of words in a box to the next.
pub(crate) const LINE: f64 = 17.0;

/// One key at a height on the page.
#[derive(Drop)]
pub(crate) struct Plan<'a> {
    pub(crate) alloc: Global,
    pub(crate) picture: &'a Picture,
    pub(crate) colours: &'a Colours,
    /// What an open system end is called.
    pub(crate) top: &'a str,
    pub(crate) is_only: bool,
    /// Whether the last day is no end, and the last instant an open one.
    pub(crate) is_endless: bool,
    pub(crate) is_open: bool,
    /// Where each day and each instant stands, and whether that is to scale.
    pub(crate) xs: Vec<f64>,
    pub(crate) ys: Vec<f64>,
    pub(crate) to_scale_x: bool,
    pub(crate) to_scale_y: bool,
    pub(crate) head: f64,
    pub(crate) floor: f64,
}

/// The labels of a version, a line each.
pub(crate) fn labels_of(
    alloc: Global,
    picture: &Picture,
    version: &Version,
) -> Result<Vec<String>, AllocError> {
    let mut labels = Vec::new(alloc);
    for at in 0..picture.names.len() {
        labels.push(label(alloc, picture, version, at)?)?;
    }
    Ok(labels)
}

// The room that the words of the versions of just this stretch need.
fn need(alloc: Global, picture: &Picture, start: u32, end: u32) -> Result<f64, AllocError> {
    let mut most = 0.0;
    for version in &picture.versions {
        if version.start == start && version.end == end {
            for words in labels_of(alloc, picture, version)? {
                let wide = words_wide(words.as_str(), 13.0, version.is_believed());
                most = greater(most, lesser(wide, 260.0) + 20.0);
            }
        }
    }
    Ok(most)
}

// What is known of the places across.
#[derive(Drop)]
struct Across {
    xs: Vec<f64>,
    to_scale: bool,
}

// The stretches that are to be to scale: all but the last where that has no end.
fn stretch_count(picture: &Picture) -> usize {
    let count = picture.days.len().saturating_sub(1);
    if is_endless(picture) && picture.days.len() > 2 {
        count.saturating_sub(1)
    } else {
        count
    }
}

pub(crate) fn is_endless(picture: &Picture) -> bool {
    picture.days.last().copied() == Some(LAST_DAY)
}

// The room of a last stretch without an end.
fn tail_of(alloc: Global, picture: &Picture) -> Result<f64, AllocError> {
    if !is_endless(picture) {
        return Ok(0.0);
    }
    match picture.days.as_slice() {
        [.., start, end] => {
            let needed = need(alloc, picture, *start, *end)? + 20.0;
            Ok(lesser(220.0, greater(96.0, needed)))
        }
        _ => Ok(96.0),
    }
}

fn least_of_days(
    alloc: Global,
    picture: &Picture,
    count: usize,
    room: f64,
) -> Result<Vec<f64>, AllocError> {
    let mut least = Vec::new(alloc);
    for pair in picture.days.as_slice().windows(2).take(count) {
        if let [start, end] = pair {
            let wish = greater(LEAST_DAY, need(alloc, picture, *start, *end)?);
            least.push(fit(count, wish, room, 5.0))?;
        }
    }
    let sum = sum_of(least.as_slice());
    if sum > room {
        for own in least.iter_mut() {
            *own = *own * room / sum;
        }
    }
    Ok(least)
}

fn lengths_of_days(alloc: Global, picture: &Picture, count: usize) -> Result<Vec<f64>, AllocError> {
    let mut lengths = Vec::new(alloc);
    for pair in picture.days.as_slice().windows(2).take(count) {
        if let [start, end] = pair {
            lengths.push(f64::from(end.saturating_sub(*start)))?;
        }
    }
    Ok(lengths)
}

fn across_of(alloc: Global, picture: &Picture, room: f64) -> Result<Across, AllocError> {
    if is_endless(picture) && picture.days.len() == 2 {
        let xs = [LEFT, LEFT + room].to_vec(alloc)?;
        return Ok(Across { xs, to_scale: true });
    }
    let tail = tail_of(alloc, picture)?;
    let count = stretch_count(picture);
    let lengths = lengths_of_days(alloc, picture, count)?;
    let least = least_of_days(alloc, picture, count, room - tail)?;
    let places = places_of(alloc, lengths.as_slice(), least.as_slice(), room - tail)?;
    let mut xs = Vec::new(alloc);
    for at in &places.at {
        xs.push(LEFT + *at)?;
    }
    if is_endless(picture) {
        xs.push(LEFT + last_of(places.at.as_slice()) + tail)?;
    }
    Ok(Across {
        xs,
        to_scale: places.is_scaled,
    })
}

// What is known of the places upwards.
#[derive(Drop)]
struct Upwards {
    at: Vec<f64>,
    to_scale: bool,
    // The room of what is open above.
    top: f64,
}

pub(crate) fn is_open(picture: &Picture) -> bool {
    picture.instants.last().copied() == Some(OPEN)
}

fn upwards_of(alloc: Global, picture: &Picture) -> Result<Upwards, AllocError> {
    let lines = whole(picture.names.len().max(1));
    let wish = greater(LEAST_LEVEL, lines * LINE + 22.0);
    let top = if is_open(picture) { wish + 6.0 } else { 0.0 };
    let end = picture
        .instants
        .len()
        .saturating_sub(if is_open(picture) { 1 } else { 0 });
    let real = picture.instants.get(..end).unwrap_or(&[]);
    let count = real.len().saturating_sub(1);
    if count == 0 {
        let at = [0.0].to_vec(alloc)?;
        return Ok(Upwards {
            at,
            to_scale: true,
            top,
        });
    }
    let level = if count <= 12 {
        wish
    } else {
        greater(13.0, wish * 12.0 / whole(count))
    };
    let mut lengths = Vec::new(alloc);
    for pair in real.windows(2) {
        if let [start, end] = pair {
            lengths.push(greater(seconds(*end) - seconds(*start), 0.000_001))?;
        }
    }
    let least = vec![in alloc; level; count]?;
    let room = whole(count) * level + whole(count.min(3)) * 26.0;
    let places = places_of(alloc, lengths.as_slice(), least.as_slice(), room)?;
    Ok(Upwards {
        at: places.at,
        to_scale: places.is_scaled,
        top,
    })
}

impl<'a> Plan<'a> {
    pub(crate) fn new(
        alloc: Global,
        picture: &'a Picture,
        colours: &'a Colours,
        top: &'a str,
        place: (f64, f64, bool),
    ) -> Result<Plan<'a>, AllocError> {
        let (y, wide, is_only) = place;
        let across = across_of(alloc, picture, wide - LEFT - RIGHT)?;
        let upwards = upwards_of(alloc, picture)?;
        let head = y + if is_only { 0.0 } else { 28.0 };
        let high = last_of(upwards.at.as_slice()) + upwards.top;
        let floor = head + 16.0 + high;
        let mut ys = Vec::new(alloc);
        for at in &upwards.at {
            ys.push(floor - *at)?;
        }
        if is_open(picture) {
            ys.push(floor - high)?;
        }
        Ok(Plan {
            alloc,
            picture,
            colours,
            top,
            is_only,
            is_endless: is_endless(picture),
            is_open: is_open(picture),
            xs: across.xs,
            ys,
            to_scale_x: across.to_scale,
            to_scale_y: upwards.to_scale,
            head,
            floor,
        })
    }

    pub(crate) fn left(&self) -> f64 {
        self.xs.first().copied().unwrap_or(LEFT)
    }

    pub(crate) fn right(&self) -> f64 {
        last_of(self.xs.as_slice())
    }

    pub(crate) fn x_of(&self, day: u32) -> f64 {
        let place = place_of(self.picture.days.as_slice(), day);
        self.xs.get(place).copied().unwrap_or(LEFT)
    }

    pub(crate) fn y_of(&self, instant: u64) -> f64 {
        match self.picture.instants.binary_search(&instant) {
            Ok(place) => self.ys.get(place).copied().unwrap_or(self.floor),
            Err(_) => self.floor,
        }
    }

    /// The heights of the instants that are there.
    pub(crate) fn real_ys(&self) -> &[f64] {
        let end = self
            .ys
            .len()
            .saturating_sub(if self.is_open { 1 } else { 0 });
        self.ys.get(..end).unwrap_or(&[])
    }

    /// What lies below the boxes.
    pub(crate) fn put_back(&self, parts: &mut Parts) -> Result<(), AllocError> {
        if !self.is_only {
            let more = " style=\"font-size:15px\"";
            parts.bare_words(
                24.0,
                self.head - 8.0,
                self.picture.title.as_str(),
                "bold",
                more,
            )?;
            parts.raw("\n")?;
        }
        if self.picture.has_unasked() {
            let y = self.y_of(self.picture.first);
            let size = (self.right() - self.left(), self.floor - y);
            parts.rect((self.left(), y), size, "class=\"not\"")?;
            parts.raw("\n")?;
        }
        for y in self.real_ys() {
            parts.line((LEFT - 8.0, *y), (self.right(), *y), "grid")?;
        }
        Ok(())
    }
}
