//! What notes a run as it goes on.
ghost use Rattle.std.specs.Prelude.{◌≡◌, ◌++◌, ◌∷◌, [], true, false, replicate, IfOk, OnOk};
ghost use Rattle.model.specs.Lists.{with_nth};
ghost use Rattle.lanes.specs.declared.fates.Fate.TheVariants as fate;
ghost use Rattle.lanes.specs.declared.role.Role.TheVariants as role;
ghost use Rattle.lanes.specs.Fates.{lost, under_way_from};
ghost use Rattle.lanes.specs.Roles.{after_sending, after_taking, in_role, opening};

use crate::album::Album;
use crate::fates::{Fate, Fates};
use crate::role::{Role, Roles, Standing};
use crate::run::{News, Run, Sent, What};
use crate::wording::{answer_note, refused_note, sent_of, told_note, unseen_note};
use fault::Refusal;
use model::entry::Told;
use model::member::Member;
use model::message::Message;
use model::stamp::Stamp;
use std::alloc::{AllocError, Global};

/// Notes what a picture of a run shows: what becomes of messages, what members are, and the lines of the script that are drawn.
#[derive(Drop)]
pub struct Recorder {
    alloc: Global,
    members: usize,
    pub(crate) fates: Fates,
    pub(crate) roles: Roles,
    messages: Vec<Sent>,
    album: Album,
    // Whether messages are only counted and not drawn, and how many were.
    pub(crate) is_counting: bool,
    unseen: usize,
}

impl Recorder {
    ghost use Rattle.lanes.specs.Recorded.{fates_of, roles_of, with_member};

    /// A group of so many members, before anything happens.
    pub fn new(alloc: Global, members: usize) -> Result<Recorder, AllocError>
        ensures fates { IfOk result (λ recorder. fates_of recorder ≡ []) }
        ensures roles { IfOk result (λ recorder. roles_of recorder ≡ replicate members opening) }
        ensures draws { IfOk result (λ recorder. recorder.is_counting ≡ false) }
    {
        Ok(Recorder {
            alloc,
            members,
            fates: Fates::new(alloc),
            roles: Roles::new(alloc, members)?,
            messages: Vec::new(alloc),
            album: Album::new(alloc),
            is_counting: false,
            unseen: 0,
        })
    }

    /// What was noted.
    pub fn into_run(self) -> Run {
        let Recorder {
            alloc: _,
            members,
            fates,
            roles: _,
            messages,
            album,
            is_counting: _,
            unseen: _,
        } = self;
        let Album {
            alloc: _,
            roles,
            acts,
            drawn,
            happened,
            is_drawn: _,
        } = album;
        Run {
            members,
            roles,
            acts,
            messages,
            fates,
            drawn,
            happened,
        }
    }

    /// Whether it is more than has room in a picture.
    pub fn is_too_much(&self) -> bool {
        self.album.is_too_much()
    }

    /// The member to which the message of this number goes; none where it was not sent.
    pub fn addressee(&self, number: usize) -> Option<Member> {
        match self.messages.get(number.checked_sub(1)?) {
            Some(message) => Some(message.addressee),
            None => None,
        }
    }

    /// The numbers of the messages that are under way, in order.
    pub fn under_way(&self) -> Result<Vec<usize>, AllocError>
        ensures { IfOk result (λ numbers. numbers.items ≡ under_way_from 1 (fates_of self.now)) }
    {
        self.fates.under_way()
    }

    /// A line of the script begins, which is drawn or not.
    pub fn begin_act(&mut self, line: usize, text: &str, is_drawn: bool) -> Result<(), AllocError>
        ensures same { (fates_of self.new ≡ fates_of self.old) × (roles_of self.new ≡ roles_of self.old) }
        ensures draws { self.new.is_counting ≡ false }
    {
        self.is_counting = false;
        self.unseen = 0;
        self.album
            .begin_act(line, text, is_drawn, self.roles.as_slice())
    }

    /// From now on messages are counted and not drawn, until the next line.
    pub fn begin_unseen(&mut self)
        ensures same { (fates_of self.new ≡ fates_of self.old) × (roles_of self.new ≡ roles_of self.old) }
    {
        self.is_counting = true;
    }

    /// Something happens to a member.
    pub fn begin_event(&mut self, node: Member, what: What, round: usize) -> Result<(), AllocError>
        ensures same { (fates_of self.new ≡ fates_of self.old) × (roles_of self.new ≡ roles_of self.old) }
    {
        self.album.begin_event(node, what, round)
    }

    /// The member to which it goes takes the message of this number, in this round. Nothing changes where it was not sent.
    pub fn take(&mut self, number: usize, round: usize) -> Result<(), AllocError>
        ensures fates { OnOk result (fates_of self.new ≡ with_nth (fates_of self.old) number fate.Taken) }
        ensures roles { roles_of self.new ≡ roles_of self.old }
    {
        self.fates.set(number, Fate::Taken);
        match self.addressee(number) {
            Some(node) => self.album.begin_event(node, What::Takes(number), round),
            None => Ok(()),
        }
    }

    /// The member that took the message of this number hears what it says.
    pub fn heed(&mut self, number: usize) -> Result<(), AllocError>
        ensures fates { fates_of self.new ≡ fates_of self.old }
    {
        match self.brief(number) {
            Some((node, term, is_append)) => self.hear(node, term, is_append),
            None => Ok(()),
        }
    }

    /// The member to which it goes is down, and misses the message of this number, in this round. Nothing changes where it was
    /// not sent.
    pub fn miss(&mut self, number: usize, round: usize) -> Result<(), AllocError>
        ensures fates { OnOk result (fates_of self.new ≡ with_nth (fates_of self.old) number fate.Missed) }
        ensures roles { roles_of self.new ≡ roles_of self.old }
    {
        self.fates.set(number, Fate::Missed);
        match self.addressee(number) {
            Some(node) => self.album.begin_event(node, What::Misses(number), round),
            None => Ok(()),
        }
    }

    /// The message of this number is lost, where it is under way. Else nothing changes.
    pub fn lose(&mut self, number: usize) -> Result<(), AllocError>
        ensures fates { OnOk result (fates_of self.new ≡ lost (fates_of self.old) number) }
        ensures roles { roles_of self.new ≡ roles_of self.old }
    {
        let was_under_way = self.fates.lose(number);
        match self.addressee(number) {
            Some(node) if was_under_way => self.album.begin_event(node, What::Loses(number), 0),
            _ => Ok(()),
        }
    }

    /// A member stops, as these words say.
    pub fn stop(&mut self, node: Member, words: &str) -> Result<(), AllocError>
        ensures roles { OnOk result (roles_of self.new ≡ with_member (roles_of self.old) node (in_role role.Down)) }
        ensures fates { fates_of self.new ≡ fates_of self.old }
    {
        let standing = self.roles.of(node).as_role(Role::Down);
        self.roles.set(node, standing);
        self.album.begin_event(node, What::Stops, 0)?;
        self.album.say(node, News::Becomes(Role::Down), words)
    }

    /// A member starts, and follows.
    pub fn start(&mut self, node: Member) -> Result<(), AllocError>
        ensures roles { OnOk result (roles_of self.new ≡ with_member (roles_of self.old) node (in_role role.Follows)) }
        ensures fates { fates_of self.new ≡ fates_of self.old }
    {
        let standing = self.roles.of(node).as_role(Role::Follows);
        self.roles.set(node, standing);
        self.album.begin_event(node, What::Starts, 0)?;
        self.album.say(node, News::Starts, "starts")
    }

    /// A message was sent, with all that it says as a text. It is under way; where messages are only counted, it is taken to have
    /// been heard.
    pub fn send(&mut self, message: &Message, full: &str) -> Result<(), AllocError>
        ensures fates { self.old.is_counting ≡ false → OnOk result (fates_of self.new ≡ fates_of self.old ++ fate.UnderWay ∷ []) }
        ensures roles { self.old.is_counting ≡ false → OnOk result
            (roles_of self.new ≡ with_member (roles_of self.old) message.now.sender (after_sending message.now)) }
        ensures unseen { self.old.is_counting ≡ true → OnOk result (fates_of self.new ≡ fates_of self.old ++ fate.Unseen ∷ []) }
    {
        let sent = sent_of(self.alloc, message, full)?;
        let node = message.sender;
        let before = self.roles.of(node);
        let after = before.sent(message);
        self.roles.set(node, after);
        if is_news(before, after) {
            self.album.say_role(node, after)?;
        }
        if self.is_counting {
            self.send_unseen(sent)
        } else {
            self.send_seen(node, sent)
        }
    }

    fn send_seen(&mut self, node: Member, sent: Sent) -> Result<(), AllocError>
        ensures fates { OnOk result (fates_of self.new ≡ fates_of self.old ++ fate.UnderWay ∷ []) }
        ensures roles { roles_of self.new ≡ roles_of self.old }
    {
        self.messages.push(sent)?;
        self.fates.send(Fate::UnderWay)?;
        let number = self.fates.count();
        self.album.send(node, number)
    }

    // What the message may bring about is not drawn, so it is taken to have been heard.
    fn send_unseen(&mut self, sent: Sent) -> Result<(), AllocError>
        ensures fates { OnOk result (fates_of self.new ≡ fates_of self.old ++ fate.Unseen ∷ []) }
    {
        let node = sent.addressee;
        let term = sent.term;
        let is_append = sent.is_append;
        self.messages.push(sent)?;
        self.fates.send(Fate::Unseen)?;
        self.unseen = self.unseen.saturating_add(1);
        self.hear(node, term, is_append)
    }

    /// A member tells of a request.
    pub fn tell(&mut self, node: Member, told: &Told) -> Result<(), AllocError>
        ensures same { (fates_of self.new ≡ fates_of self.old) × (roles_of self.new ≡ roles_of self.old) }
    {
        let note = told_note(self.alloc, told)?;
        self.album.note(node, note)
    }

    /// A member refuses.
    pub fn refuse(&mut self, node: Member, refusal: &Refusal) -> Result<(), AllocError>
        ensures same { (fates_of self.new ≡ fates_of self.old) × (roles_of self.new ≡ roles_of self.old) }
    {
        let note = refused_note(self.alloc, refusal)?;
        self.album.note(node, note)
    }

    /// A member answers a question with so many rows.
    pub fn answer(&mut self, node: Member, rows: usize, last: Stamp) -> Result<(), AllocError>
        ensures same { (fates_of self.new ≡ fates_of self.old) × (roles_of self.new ≡ roles_of self.old) }
    {
        let note = answer_note(self.alloc, rows, last)?;
        self.album.note(node, note)
    }

    /// Says how many messages were not drawn, beside the member that leads now.
    pub fn end_unseen(&mut self) -> Result<(), AllocError>
        ensures same { (fates_of self.new ≡ fates_of self.old) × (roles_of self.new ≡ roles_of self.old) }
    {
        if self.unseen == 0 {
            return Ok(());
        }
        let note = unseen_note(self.alloc, self.unseen)?;
        let node = leader_in(self.roles.as_slice());
        self.album.note(node, note)
    }

    // To whom the message of this number goes, its term, and whether it is an Append.
    fn brief(&self, number: usize) -> Option<(Member, u64, bool)> {
        match self.messages.get(number.checked_sub(1)?) {
            Some(message) => Some((message.addressee, message.term, message.is_append)),
            None => None,
        }
    }

    // A member takes a message of this term.
    fn hear(&mut self, node: Member, term: u64, is_append: bool) -> Result<(), AllocError>
        ensures roles { OnOk result (roles_of self.new ≡ with_member (roles_of self.old) node (after_taking term is_append)) }
        ensures fates { fates_of self.new ≡ fates_of self.old }
    {
        let before = self.roles.of(node);
        let after = before.took(term, is_append);
        self.roles.set(node, after);
        if before.role == after.role {
            return Ok(());
        }
        self.album.say_role(node, after)
    }
}

// Whether it shows that a member is something else, or stands in another term.
fn is_news(before: Standing, after: Standing) -> bool {
    before.role != after.role || (after.role == Role::Stands && before.term < after.term)
}

// A member that leads, or the first one.
fn leader_in(standings: &[Standing]) -> Member {
    for (at, standing) in standings.iter().enumerate() {
        if standing.role == Role::Leads {
            return at + 1;
        }
    }
    1
}
