//! Laws of what texts say.
ghost use Rattle.sqlchecks.specs.Columns.{Tables};
ghost use Rattle.sqlread.specs.Calendar.{LiteralsInCalendar};
ghost use Rattle.sqlread.specs.Laws.{SaysTransaction, SaysQuery, IsBounded};
ghost use Rattle.sqlread.specs.Texts.{transaction_in, query_in};
ghost use Rattle.sqlread.specs.Meaning.{language_of};
ghost use Rattle.sqlread.specs.Reading.{IsLanguage};

/// `read_transaction` answers by the grammar of transactions and the checks of statements.
pub fn transaction_says()
    ensures says { SaysTransaction }
    ensures bounded { (schema : Tables) → IsBounded (transaction_in schema) }
{
    sqlsyntax::laws::forms_told();
}

/// `read_query` answers by the grammar of queries and the checks of a query.
pub fn query_says()
    ensures says { SaysQuery }
    ensures bounded { (schema : Tables) → IsBounded (query_in schema) }
{
    sqlsyntax::laws::forms_told();
}

/// The language of some tables reads each text as what it spells.
pub fn language_is_spelled()
    ensures { (tables : Tables) → IsLanguage tables (language_of tables) }
{
    sqlsyntax::laws::forms_told();
    sqlsyntax::laws::transactions_spelled();
}

/// What a literal is read as is a day of the calendar, where it is a day.
pub fn literals_in_calendar()
    ensures { LiteralsInCalendar }
{}
