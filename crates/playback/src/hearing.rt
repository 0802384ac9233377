//! The lines of journals, one after the other.
ghost use Rattle.std.specs.Prelude.{◌≡◌, [], true, OnOk, length};
ghost use Rattle.playback.specs.Playing.{Plays};
ghost use Rattle.playback.specs.Scenes.{scene_of};

use crate::play::{Play, bad_line};
use journal::Line;
use store::StoreRefusal;
use store::past::Hears;

impl Play {
    // A journal begins, before which so many marks were given out. The first one that is there tells how many, where others are away.
    fn open(&mut self, marks: u64) -> Result<(), StoreRefusal>
        ensures { OnOk result (scene_of self.new ≡ record (scene_of self.old) { before = length (scene_of self.old).sent; is_head = true; noted = 0; words = [] }) }
    {
        self.sessions = self.sessions.saturating_add(1);
        self.before = self.posts.len();
        self.is_head = true;
        self.noted = 0;
        self.words.clear();
        if self.sessions == 1 && self.first > 0 {
            self.marks = marks;
        }
        if marks == self.marks {
            Ok(())
        } else {
            Err(bad_line())
        }
    }
}

impl Hears for Play {
    ghost hears = { λ old line new. Plays (scene_of old) line (scene_of new) };

    fn hear(&mut self, line: Line) -> Result<(), StoreRefusal> {
        match line {
            Line::Opens { marks, .. } => self.open(marks),
            Line::Rests { member, stored } => self.rest(member, &stored),
            Line::Life { member, stored } => self.begin_life(member, &stored),
            Line::Clock { reading } => {
                self.reading = reading;
                Ok(())
            }
            Line::Takes { member, taken } => self.begin_step(member, &taken),
            Line::Saves { member, stored } => self.announce(member, &stored),
            Line::Made { member, outcomes } => self.end_step(member, &outcomes),
            Line::Ends { member } => self.end_life(member),
            Line::Answer {
                member,
                query,
                answer,
            } => self.check_answer(member, query, answer),
            Line::Printed {
                client,
                number,
                words,
            } => self.check_printed(client, number, words.as_str()),
        }
    }
}
