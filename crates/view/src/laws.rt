//! What is so of all that views answer. No function here does anything: what it is for is its contract, which a caller has
//! as a fact.
ghost use Rattle.view.specs.Staying.{AnswersStay, ClosedStays, StaysClosed, LivesAgree, BegunEarlier};

/// An answer never changes. Of two lists that views of one life saw, of which the first begins the second:
///
/// - `same`: an answer in the first and one in the second to what asks the same are one answer;
/// - `closed`: what is closed in the first has the answers there that it has in the second;
/// - `closing`: a question with system time that is closed in the first is closed in the second, so it is not refused 33 there.
pub fn answers_stay()
    ensures same { AnswersStay }
    ensures closed { ClosedStays }
    ensures closing { StaysClosed }
{
    safety::however_sealed();
    safety::one_answer();
}

/// Views of different lives agree, as long as what each of them saw is the beginning of one list of entries, and all that comes
/// after is stamped above the closed time of what was seen. So are the lists that the members of one run publish, by the clauses
/// `applied_is_decided` and `nothing_later_is_closed` of `safety::agreement`.
///
/// - `same`: answers to what asks the same are one answer;
/// - `earlier`: what was seen of a life before is such a beginning, where its whole list is one.
pub fn lives_agree()
    ensures same { LivesAgree }
    ensures earlier { BegunEarlier }
{
    safety::however_sealed();
    safety::one_answer();
}
