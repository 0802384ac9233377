//! Beliefs for a terminal, in ASCII.
use crate::calendar::day_or_no_end;
use crate::lines::{put_line, put_wrapped};
use crate::part::{LABEL, Part};
use crate::picture::{Asking, Picture, pictures_of};
use crate::widths::{parts_of, widths_of};
use answer::Answer;
use model::member::Member;
use model::stamp::{LAST_MICROS, Stamp};
use std::alloc::{AllocError, Global};

// The room that the last date takes beyond its edge.
const LAST: usize = 9;

// Of more parts side by side the first are drawn.
const PARTS: usize = 3;

/// Draws an answer in ASCII, on lines of so many columns: the question, which node answers, and for each key a grid, days
/// from left to right and system time upwards, whose boxes are the versions with their values. Words that a box has no room
/// for are cut, and it says so; so it does where not all is drawn. Of more days than have room it draws the first ones, in
/// three parts at most, and of more than thirty levels the newest. The error is want of memory.
pub fn beliefs_as_text(
    alloc: Global,
    node: Member,
    answer: &Answer,
    asking: &Asking,
    width: usize,
) -> Result<Vec<u8>, AllocError> {
    let mut page = Vec::new(alloc);
    put_wrapped(asking.text, width.saturating_sub(1), &mut page)?;
    let last = answer.last.instant();
    let line = format!(in alloc; "answered by node {node}, last instant {last}")?;
    put_line(line.as_bytes(), &mut page)?;
    let pictures = pictures_of(alloc, answer, asking)?;
    for picture in &pictures {
        put_picture(alloc, picture, asking.top(), width, &mut page)?;
    }
    if pictures.is_empty() {
        put_line(b"", &mut page)?;
        put_line(b"no rows, so nothing to draw", &mut page)?;
    }
    Ok(page)
}

fn put_title(alloc: Global, picture: &Picture, page: &mut Vec<u8>) -> Result<(), AllocError> {
    let title = picture.title.as_str();
    put_line(b"", page)?;
    match picture.names.as_slice() {
        [name] => put_line(format!(in alloc; "{title} ({name})")?.as_bytes(), page),
        _ => put_line(title.as_bytes(), page),
    }
}

fn put_picture(
    alloc: Global,
    picture: &Picture,
    top: &str,
    width: usize,
    page: &mut Vec<u8>,
) -> Result<(), AllocError> {
    put_title(alloc, picture, page)?;
    let wide = widths_of(alloc, picture)?;
    let parts = parts_of(alloc, wide.as_slice(), width.saturating_sub(LABEL + LAST))?;
    let mut is_cut = false;
    for (first, last) in parts.iter().take(PARTS) {
        put_line(b"", page)?;
        let part = Part::new(alloc, picture, wide.as_slice(), *first, *last)?;
        is_cut |= part.put(top, page)?;
        put_left_out(alloc, part.left_out, page)?;
    }
    put_unasked(alloc, picture, page)?;
    if is_cut {
        put_line(
            b"..: more than fits. The same question's answer as a table has it whole",
            page,
        )?;
    }
    match parts.get(PARTS) {
        Some((first, _)) => put_rest(alloc, picture, *first, page),
        None => Ok(()),
    }
}

// That older levels are not drawn.
fn put_left_out(alloc: Global, count: usize, page: &mut Vec<u8>) -> Result<(), AllocError> {
    if count == 0 {
        return Ok(());
    }
    let line = format!(in alloc; "not drawn: {count} earlier beliefs of these days")?;
    put_line(line.as_bytes(), page)
}

// That something is dotted.
fn put_unasked(alloc: Global, picture: &Picture, page: &mut Vec<u8>) -> Result<(), AllocError> {
    if !picture.has_unasked() || picture.first > LAST_MICROS {
        return Ok(());
    }
    let first = Stamp::new(picture.first).instant();
    let line = format!(in alloc; "dotted: not asked, as the question begins at {first}")?;
    put_line(line.as_bytes(), page)
}

// That the days from this stretch on are not drawn.
fn put_rest(
    alloc: Global,
    picture: &Picture,
    stretch: usize,
    page: &mut Vec<u8>,
) -> Result<(), AllocError> {
    let day = picture.days.get(stretch).copied().unwrap_or(0);
    let day = day_or_no_end(alloc, day)?;
    put_line(b"", page)?;
    let line = format!(in alloc; "not drawn: the days from {day} on")?;
    put_line(line.as_bytes(), page)
}
