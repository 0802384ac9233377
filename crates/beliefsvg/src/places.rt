//! Where stretches begin and end.
use std::alloc::{AllocError, Global};
use std::num::{nearest_u64_to_f64, nearest_usize_to_f64};

/// Places from 0 on, and whether they are to scale.
#[derive(Drop)]
pub(crate) struct Places {
    pub(crate) at: Vec<f64>,
    pub(crate) is_scaled: bool,
}

pub(crate) fn sum_of(numbers: &[f64]) -> f64 {
    let mut sum = 0.0;
    for number in numbers {
        sum += *number;
    }
    sum
}

/// The greater of two.
pub(crate) fn greater(a: f64, b: f64) -> f64 {
    if a < b { b } else { a }
}

/// The lesser of two.
pub(crate) fn lesser(a: f64, b: f64) -> f64 {
    if b < a { b } else { a }
}

pub(crate) fn whole(count: usize) -> f64 {
    nearest_usize_to_f64(count)
}

/// The seconds of an instant since 1970.
pub(crate) fn seconds(instant: u64) -> f64 {
    nearest_u64_to_f64(instant) / 1_000_000.0
}

/// Where stretches of these lengths begin and end. To scale where each has its least room then; else each has that and a share
/// of the rest by its length, so that a longer one is never drawn shorter.
pub(crate) fn places_of(
    alloc: Global,
    lengths: &[f64],
    least: &[f64],
    room: f64,
) -> Result<Places, AllocError> {
    let total = sum_of(lengths);
    let is_scaled = are_scaled(lengths, least, total, room);
    let rest = greater(room - sum_of(least), 0.0);
    let mut at = vec![in alloc; 0.0; 1]?;
    let mut end = 0.0;
    for (length, own) in lengths.iter().zip(least) {
        end += if is_scaled {
            *length / total * room
        } else {
            *own + rest * *length / total
        };
        at.push(end)?;
    }
    Ok(Places { at, is_scaled })
}

fn are_scaled(lengths: &[f64], least: &[f64], total: f64, room: f64) -> bool {
    for (length, own) in lengths.iter().zip(least) {
        if *length / total * room < *own {
            return false;
        }
    }
    true
}

/// The least room of each of so many stretches: the wish, or less where there are too many of them, but not below the floor.
pub(crate) fn fit(count: usize, wish: f64, room: f64, floor: f64) -> f64 {
    greater(lesser(wish, room / whole(count)), floor)
}

/// The last of these, or 0.
pub(crate) fn last_of(numbers: &[f64]) -> f64 {
    numbers.last().copied().unwrap_or(0.0)
}
