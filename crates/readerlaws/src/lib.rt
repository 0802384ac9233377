//! Fourteen laws that anybody believes of a database, of the definitions that all contracts rest on.
//! No function here does anything, save to call upon other laws: what it is for is its contract. The
//! laws are in `specs/Laws.antt`, in this order, each below its sentence.
#![tactic(auto)]

ghost use Rattle.readerlaws.specs.Laws.{InsertedIsThere, InsertIsRefused, DeletedIsGone, UnmetStays, MetIsChanged, PartsAreThere, RowsShareNoDay, RowsAreRuns, NoLongerRun, NoOrphans, OrphansAreRefused, TablesArise};
ghost use Rattle.readerlaws.specs.Laws.{PastStays, AnswersStay, AnswerHasTheRows, OneClient, RepeatIsHarmless, OnlyTheNextCounts, RefusedUnlessClosed, NothingComesBelow, OneListExplains};
ghost use Rattle.readerlaws.specs.Laws.{OneReading, OneQuestion, OneMeaning, DaysAreNamed, InstantsAreNamed};
ghost use Rattle.readerlaws.specs.Example.{ByExample};

/// 1. An INSERT that is accepted leaves its row, and each row that was there; and no other. It is
/// refused exactly where a row has its key and a day of its period.
pub fn inserted_is_there()
    ensures there { InsertedIsThere }
    ensures refused { InsertIsRefused }
{
    rowlaws::action_on_rows();
    rowlaws::each_listed();
    rowlaws::overlaps_on_rows();
}

/// 2. What is deleted is gone.
pub fn deleted_is_gone()
    ensures { DeletedIsGone }
{
    rowlaws::action_on_rows();
    rowlaws::each_listed();
}

/// 3. What is not met stays, its birth too; what is met becomes what the statement says; and after an
/// UPDATE or a DELETE nothing else is there.
pub fn unmet_stays()
    ensures unmet { UnmetStays }
    ensures met { MetIsChanged }
    ensures parts { PartsAreThere }
{
    rowlaws::action_on_rows();
    rowlaws::each_listed();
    rowlaws::overflows_on_rows();
}

/// 4. Rows of one key share no day.
pub fn rows_share_no_day()
    ensures { RowsShareNoDay }
{}

/// 5. Rows are longest runs: each filled day lies in one, and no longer run has its days.
pub fn rows_are_runs()
    ensures runs { RowsAreRuns }
    ensures longest { NoLongerRun }
{
    rowlaws::action_on_rows();
    rowlaws::each_listed();
}

/// 6. Nobody lacks a parent after a transaction, and for nothing else is one refused whose statements
/// are accepted. The tables of which this is said arise as those of the laws above.
pub fn no_orphans()
    ensures parents { NoOrphans }
    ensures refused { OrphansAreRefused }
    ensures tables { TablesArise }
{
    apply::laws::texts_fine();
    rowlaws::action_on_rows();
    rowlaws::fine_logs();
    rowlaws::logs_on_rows();
    rowlaws::none_accepted();
    rowlaws::no_orphan_after();
    rowlaws::references();
}

/// 7. The past stays: the tables at each instant, and the answers about it, which have the rows of then.
pub fn past_stays()
    ensures tables { PastStays }
    ensures answers { AnswersStay }
    ensures rows { AnswerHasTheRows }
{}

/// 8. One client's tables are those of its texts run one after another.
pub fn one_client()
    ensures { OneClient }
{}

/// 9. A repeat is harmless, and only the number after the last one counts.
pub fn repeat_is_harmless()
    ensures repeat { RepeatIsHarmless }
    ensures others { OnlyTheNextCounts }
{}

/// 10. A question is refused exactly where it is not closed; and closed is closed.
pub fn refused_unless_closed()
    ensures refused { RefusedUnlessClosed }
    ensures closed { NothingComesBelow }
{
    safety::agreement();
}

/// 11. One list explains all that a run tells and answers.
pub fn one_list_explains()
    ensures { OneListExplains }
{
    onelist::one_list_explains();
}

/// 12. A text has one reading, a question too, and a transaction one meaning.
pub fn one_reading()
    ensures reading { OneReading }
    ensures question { OneQuestion }
    ensures meaning { OneMeaning }
{
    sqlsyntax::laws::forms_told();
    sqlsyntax::laws::transactions_spelled();
    sqlread::laws::language_is_spelled();
}

/// 13. Days are named by their dates in the calendar, and instants by their dates and times.
pub fn days_are_named()
    ensures days { DaysAreNamed }
    ensures instants { InstantsAreNamed }
{
    period::laws::day_texts();
    period::laws::instant_texts();
}

/// 14. By example: two transactions leave the rows that they should, and a third is refused.
pub fn by_example()
    ensures { ByExample }
{
    period::laws::day_texts();
    rowtext::laws::lines_read_again();
    apply::laws::texts_fine();
    rowlaws::fine_logs();
    rowlaws::logs_on_rows();
    rowlaws::outcomes_on_rows();
    rowlaws::each_listed();
}
