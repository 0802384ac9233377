//! Laws of texts and lists of entries by the schema of any tables. No function here does anything,
//! save to call upon other laws: what it is for is its contract, which a caller has as a fact.
ghost use Rattle.apply.specs.Laws.{TextsFine, EachAnswered, EachSealedAnswered};

/// What any text says is well formed: a period that is inserted and a portion have a day, and none
/// past the last.
pub fn texts_fine()
    ensures { TextsFine }
{
    sqlread::laws::literals_in_calendar();
}

/// Each answered: a query that is closed in a list whose stamps rise has an answer, which is the only
/// one in the list and in every longer one whose stamps rise. So has one that is closed at any closed time,
/// also at one above the last stamp: the only one in the list and in every longer one in which what comes
/// after is stamped above that time.
pub fn each_answered()
    ensures last { EachAnswered }
    ensures sealed { EachSealedAnswered }
{
    texts_fine();
    rowlaws::fine_logs();
    versionlaws::closed_answer();
    versionlaws::sealed_answer();
}
