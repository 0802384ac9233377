//! Every definition that the contracts of the other crates cite, and a few worked rows.
#![tactic(auto)]

ghost use Rattle.model.specs.TableRows.{TouchingRows, ReferenceGap, KeyTexts, RowOrder};
ghost use Rattle.model.specs.Rows.{FirstClose, FirstAnswer, TornVote, RepeatedAppend, DecidedInsert, RefusedSubmit, Numbers, ShorterLog, RetryAfterFailover, Conflict, Restart, Clocks, Asks, NoSuchEvent, DishonestMessage, StrangeMessage, StrangeEntries, KnownLeader, NoStampLeft, OlderTerm, NextFalls};
ghost use Rattle.model.specs.FloorRows.{SealedQuietly, StampedAbove, VoteTellsFloor, FloorFromVotes, SealWaits, FloorIsKept, NoFloor, StrangeFloors, NoFloorAsked, SecondStoredSeals, CountedAnew, SealOfAnotherTerm, GreatestWaits, SeekFollows, RefusedVoteTells};

pub mod entry;
pub mod event;
mod key;
pub mod literal;
pub mod mark;
pub mod member;
pub mod message;
pub mod request;
pub mod stamp;
pub mod value;

/// What INSERT leaves, days without a parent, how keys are written, and the order of rows.
pub fn rows_of_tables()
    ensures touching_rows { TouchingRows }
    ensures reference_gap { ReferenceGap }
    ensures key_texts { KeyTexts }
    ensures row_order { RowOrder }
{}

/// Elections, what a follower takes, and what a leader commits.
pub fn rows_of_elections()
    ensures first_close { FirstClose }
    ensures torn_vote { TornVote }
    ensures shorter_log { ShorterLog }
    ensures conflict { Conflict }
    ensures repeated_append { RepeatedAppend }
    ensures known_leader { KnownLeader }
    ensures no_stamp_left { NoStampLeft }
    ensures older_term { OlderTerm }
    ensures next_falls { NextFalls }
{}

/// What members tell of requests.
pub fn rows_of_requests()
    ensures decided_insert { DecidedInsert }
    ensures retry_after_failover { RetryAfterFailover }
    ensures restart { Restart }
    ensures refused_submit { RefusedSubmit }
    ensures numbers { Numbers }
    ensures clocks { Clocks }
{}

/// Ask, events that cannot be, and messages that no honest member can send.
pub fn rows_of_events()
    ensures first_answer { FirstAnswer }
    ensures asks { Asks }
    ensures no_such_event { NoSuchEvent }
    ensures dishonest_message { DishonestMessage }
    ensures strange_message { StrangeMessage }
    ensures strange_entries { StrangeEntries }
{}

/// Floors, and times that close without an entry.
pub fn rows_of_floors()
    ensures sealed_quietly { SealedQuietly }
    ensures stamped_above { StampedAbove }
    ensures vote_tells_floor { VoteTellsFloor }
    ensures floor_from_votes { FloorFromVotes }
    ensures seal_waits { SealWaits }
    ensures floor_is_kept { FloorIsKept }
    ensures no_floor { NoFloor }
    ensures strange_floors { StrangeFloors }
    ensures no_floor_asked { NoFloorAsked }
    ensures second_stored_seals { SecondStoredSeals }
    ensures counted_anew { CountedAnew }
    ensures seal_of_another_term { SealOfAnotherTerm }
    ensures greatest_waits { GreatestWaits }
    ensures seek_follows { SeekFollows }
    ensures refused_vote_tells { RefusedVoteTells }
{}
