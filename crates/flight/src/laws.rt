//! Worked rows. The function does nothing: what it is for is its contract.
ghost use Rattle.flight.specs.Rows.{NothingDone, NothingDoneTwo, NothingDoneThree, OneRequest, OneVote, OneVoteThree, OneFloor, OneSeek, OneOutcome, OneTear};

/// What is spelled of a node that did nothing, in each version, of an entry with a request, of votes without a floor and with one,
/// of a message that asks that a floor be stored, of a step that tells of a request, and of a step cut short.
pub fn worked_rows()
    ensures nothing { NothingDone }
    ensures nothing_two { NothingDoneTwo }
    ensures nothing_three { NothingDoneThree }
    ensures request { OneRequest }
    ensures vote { OneVote }
    ensures vote_three { OneVoteThree }
    ensures floor { OneFloor }
    ensures seek { OneSeek }
    ensures outcome { OneOutcome }
    ensures tear { OneTear }
{}
