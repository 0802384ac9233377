//! A run for a terminal, in ASCII: a column for each member, a line for each thing that happens.
use crate::role::Role;
use crate::run::{Act, Event, News, Note, Run, Sent, What};
use model::member::Member;
use std::alloc::{AllocError, Global};

// The room of the left column.
const LEFT: usize = 26;

// From one lane to the next.
const STEP: usize = 19;

const SIGNS: &str = "| follows   ? stands for election   # leads   : is down   ...x is never taken";

/// Draws a run in ASCII: below the name of the script a line for each line of it and for each thing that happens, with a column
/// for each member. The error is want of memory.
pub fn run_as_text(alloc: Global, run: &Run, name: &str) -> Result<String, AllocError> {
    let mut sheet = Sheet::new(alloc, run)?;
    sheet.put_head(name)?;
    for act in &run.acts {
        sheet.put_act(act)?;
    }
    let Sheet {
        alloc: _,
        run: _,
        roles: _,
        page,
    } = sheet;
    Ok(page)
}

/// How many columns the longest line of a text has.
pub fn columns_of(text: &str) -> usize {
    let mut most = 0;
    for line in text.lines() {
        most = line.chars().count().max(most);
    }
    most
}

// The lines so far, and what each member is.
#[derive(Drop)]
struct Sheet<'a> {
    alloc: Global,
    run: &'a Run,
    roles: Vec<Role>,
    page: String,
}

fn sign_of(role: Role) -> char {
    match role {
        Role::Follows => '|',
        Role::Stands => '?',
        Role::Leads => '#',
        Role::Down => ':',
    }
}

// The column of a member's lane, from 0.
fn lane_of(node: Member) -> usize {
    node.saturating_sub(1).saturating_mul(STEP)
}

impl<'a> Sheet<'a> {
    fn new(alloc: Global, run: &'a Run) -> Result<Sheet<'a>, AllocError> {
        Ok(Sheet {
            alloc,
            run,
            roles: run.roles.as_slice().to_vec(alloc)?,
            page: String::new(alloc),
        })
    }

    fn put_head(&mut self, name: &str) -> Result<(), AllocError> {
        self.put_line(name)?;
        self.put_line(SIGNS)?;
        self.put_line("")?;
        let mut names = Vec::new(self.alloc);
        for at in 0..self.run.members {
            let node = at + 1;
            let words = format!(in self.alloc; "node {node}")?;
            write_at(lane_of(node), words.as_str(), &mut names)?;
        }
        self.put("", names.as_slice())
    }

    fn put_act(&mut self, act: &Act) -> Result<(), AllocError> {
        let line = act.line;
        let text = shortened(self.alloc, act.text.as_str(), LEFT - 6)?;
        let left = format!(in self.alloc; "{line:>3} {text}")?;
        let lanes = self.lanes()?;
        self.put(left.as_str(), lanes.as_slice())?;
        for event in &act.events {
            self.put_event(event)?;
            for note in &event.notes {
                self.put_note(event.node, note)?;
            }
        }
        Ok(())
    }

    fn put_event(&mut self, event: &Event) -> Result<(), AllocError> {
        match &event.what {
            What::Takes(number) => self.put_arrow(*number, true),
            What::Misses(number) | What::Loses(number) => self.put_arrow(*number, false),
            What::Does(words) => self.put_words(event.node, words.as_str()),
            What::Asked | What::Starts | What::Stops => Ok(()),
        }
    }

    fn put_words(&mut self, node: Member, words: &str) -> Result<(), AllocError> {
        if words.is_empty() {
            return Ok(());
        }
        let words = self.fitted(node, words)?;
        let mut lanes = self.lanes()?;
        write_at(lane_of(node).saturating_add(2), words.as_str(), &mut lanes)?;
        self.put("", lanes.as_slice())
    }

    fn put_note(&mut self, node: Member, note: &Note) -> Result<(), AllocError> {
        match note.news {
            News::Becomes(role) => self.set_role(node, role),
            News::Starts => self.set_role(node, Role::Follows),
            News::Accepted | News::Refused | News::Answers | News::Remark => {}
        }
        let left = if note.time.as_str().is_empty() {
            String::new(self.alloc)
        } else {
            let time = note.time.as_str();
            format!(in self.alloc; "      {time}")?
        };
        let words = self.fitted(node, note.short.as_str())?;
        let mut lanes = self.lanes()?;
        write_at(lane_of(node).saturating_add(2), words.as_str(), &mut lanes)?;
        self.put(left.as_str(), lanes.as_slice())
    }

    fn set_role(&mut self, node: Member, role: Role) {
        if let Some(own) = self.roles.get_mut(node.saturating_sub(1)) {
            *own = role;
        }
    }

    // Words beside a lane, cut where another lane stands on their right.
    fn fitted(&self, node: Member, words: &str) -> Result<String, AllocError> {
        if node == self.run.members {
            String::from_str(self.alloc, words)
        } else {
            shortened(self.alloc, words, STEP - 3)
        }
    }

    // The line of a message from its sender's lane to its addressee's: an x at its end where it is not taken.
    fn put_arrow(&mut self, number: usize, is_taken: bool) -> Result<(), AllocError> {
        let Some(sent) = self.run.message(number) else {
            return Ok(());
        };
        let words = sent.words.as_str();
        let left = format!(in self.alloc; "  {number:>3} {words}")?;
        let mut lanes = self.lanes()?;
        draw_arrow(sent, is_taken, lanes.as_mut_slice());
        self.put(left.as_str(), lanes.as_slice())
    }

    // The signs of all lanes.
    fn lanes(&self) -> Result<Vec<char>, AllocError> {
        let mut lanes = Vec::new(self.alloc);
        for (at, role) in self.roles.iter().enumerate() {
            if at > 0 {
                for _ in 1..STEP {
                    lanes.push(' ')?;
                }
            }
            lanes.push(sign_of(*role))?;
        }
        Ok(lanes)
    }

    // A line of the left column and the lanes.
    fn put(&mut self, left: &str, lanes: &[char]) -> Result<(), AllocError> {
        let left = shortened(self.alloc, left, LEFT - 2)?;
        let mut line = format!(in self.alloc; "{left:<26}")?;
        for letter in lanes {
            line.push(*letter)?;
        }
        self.put_line(line.as_str())
    }

    // A line, without the blanks at its end.
    fn put_line(&mut self, line: &str) -> Result<(), AllocError> {
        self.page.push_str(line.trim_end())?;
        self.page.push('\n')
    }
}

fn draw_arrow(sent: &Sent, is_taken: bool, lanes: &mut [char]) {
    let from = lane_of(sent.sender);
    let to = lane_of(sent.addressee);
    let low = from.min(to).saturating_add(1);
    let high = from.max(to);
    for at in low..high {
        if let Some(sign) = lanes.get_mut(at) {
            *sign = match (*sign, is_taken) {
                (' ', true) => '-',
                (' ', false) => '.',
                (_, true) => '+',
                (sign, false) => sign,
            };
        }
    }
    let tip = match (is_taken, from < to) {
        (true, true) => '>',
        (true, false) => '<',
        (false, _) => 'x',
    };
    let end = if from < to {
        high.saturating_sub(1)
    } else {
        low
    };
    if let Some(sign) = lanes.get_mut(end) {
        *sign = tip;
    }
}

// Writes words over what stands from this column on.
fn write_at(column: usize, words: &str, line: &mut Vec<char>) -> Result<(), AllocError> {
    for _ in line.len()..column {
        line.push(' ')?;
    }
    for (at, letter) in words.chars().enumerate() {
        match line.get_mut(column.saturating_add(at)) {
            Some(sign) => *sign = letter,
            None => line.push(letter)?,
        }
    }
    Ok(())
}

/// A text, cut with two points where it has more than so many letters.
pub(crate) fn shortened(alloc: Global, text: &str, room: usize) -> Result<String, AllocError> {
    if text.chars().count() <= room {
        return String::from_str(alloc, text);
    }
    let mut short = String::new(alloc);
    for letter in text.chars().take(room.saturating_sub(2)) {
        short.push(letter)?;
    }
    short.push_str("..")?;
    Ok(short)
}
