//! How wide stretches of days are in text, and which of them stand side by side.
use crate::picture::{Picture, Version};
use std::alloc::{AllocError, Global};

// The least room of a stretch: a date and a blank.
const LEAST: usize = 11;

// The most room that words get for their own sake.
const LONGEST: usize = 32;

/// The words of a version, one line for each: a single value alone, several with their columns' names, none as nothing.
pub fn label(
    alloc: Global,
    picture: &Picture,
    version: &Version,
    at: usize,
) -> Result<String, AllocError> {
    let (Some(name), Some(value)) = (picture.names.get(at), version.values.get(at)) else {
        return Ok(String::new(alloc));
    };
    if picture.names.len() == 1 {
        return value.clone();
    }
    format!(in alloc; "{name} {value}")
}

/// The place of a day among these, which are in order.
pub fn place_of(days: &[u32], day: u32) -> usize {
    match days.binary_search(&day) {
        Ok(place) => place,
        Err(place) => place,
    }
}

// How much room the words of a version need.
fn needed(alloc: Global, picture: &Picture, version: &Version) -> Result<usize, AllocError> {
    let mut most = 0;
    for at in 0..picture.names.len() {
        most = label(alloc, picture, version, at)?.len().max(most);
    }
    Ok(most.min(LONGEST).saturating_add(2))
}

/// The room of each stretch: a date, and the words of each version within its stretches, those of the fewest stretches first.
pub fn widths_of(alloc: Global, picture: &Picture) -> Result<Vec<usize>, AllocError> {
    let days = picture.days.as_slice();
    let mut wide = vec![in alloc; LEAST; days.len().saturating_sub(1)]?;
    for (_, at) in by_stretches(alloc, picture)? {
        if let Some(version) = picture.versions.get(at) {
            let first = place_of(days, version.start);
            let last = place_of(days, version.end);
            widen(
                first,
                last,
                needed(alloc, picture, version)?,
                wide.as_mut_slice(),
            );
        }
    }
    Ok(wide)
}

// How many stretches each version has, with its place, in order.
fn by_stretches(alloc: Global, picture: &Picture) -> Result<Vec<(usize, usize)>, AllocError> {
    let days = picture.days.as_slice();
    let mut order = Vec::new(alloc);
    for (at, version) in picture.versions.iter().enumerate() {
        let first = place_of(days, version.start);
        let last = place_of(days, version.end);
        order.push((last.saturating_sub(first), at))?;
    }
    order.sort_unstable();
    Ok(order)
}

// Widens the first of these stretches, where all have less room than is needed.
fn widen(first: usize, last: usize, needed: usize, wide: &mut [usize]) {
    let mut room = last.saturating_sub(first).saturating_sub(1);
    for at in first..last {
        room = room.saturating_add(wide.get(at).copied().unwrap_or(0));
    }
    if let Some(own) = wide.get_mut(first) {
        *own = own.saturating_add(needed.saturating_sub(room));
    }
}

/// The stretches in parts that each fit the room: pairs of the first one and the one after the last.
pub fn parts_of(
    alloc: Global,
    wide: &[usize],
    room: usize,
) -> Result<Vec<(usize, usize)>, AllocError> {
    let mut parts = Vec::new(alloc);
    let mut first = 0;
    let mut used = 0usize;
    for (at, own) in wide.iter().enumerate() {
        let after = used.saturating_add(*own).saturating_add(1);
        if at > first && after > room {
            parts.push((first, at))?;
            first = at;
            used = own.saturating_add(1);
        } else {
            used = after;
        }
    }
    if !wide.is_empty() {
        parts.push((first, wide.len()))?;
    }
    Ok(parts)
}
