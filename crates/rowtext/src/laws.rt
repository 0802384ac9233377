//! Laws of what is read of written lines.
ghost use Rattle.rowtext.specs.Again.{SaysWhatIsWritten, ReadsWhatIsWritten, ReadsTransactions, ReadsLiterals, ReadsComparisons, ReadsPortions, ReadsAssignments, ReadsStatements, SaysKeptAgain, SaysTransactionsAgain};

/// The tokens of written lines are the tokens that were written on them, whichever these are: no space that is left
/// out makes two of them one. Statements that the grammar has, each on a line, are read as these statements; and so is
/// the text of a transaction, where the grammar has the forms of its statements.
pub fn lines_read_again()
    ensures tokens { SaysWhatIsWritten }
    ensures statements { ReadsWhatIsWritten }
    ensures transactions { ReadsTransactions }
{
    sqlsyntax::laws::forms_told();
}

/// What is read is written so that it is read again, as the same: literals, comparisons, portions, assignments, all the
/// statements of a transaction, and so the texts of transactions. Whatever text `read_transaction` takes over a schema
/// that `Schema::of` makes, the text that `write_transaction` writes of its value spells statements that the checks let
/// through as that value again; and where that text has at most 4,096 bytes, `read_transaction` takes it as that value.
pub fn transactions_read_again()
    ensures literals { ReadsLiterals }
    ensures comparisons { ReadsComparisons }
    ensures portions { ReadsPortions }
    ensures assignments { ReadsAssignments }
    ensures statements { ReadsStatements }
    ensures kept { SaysKeptAgain }
    ensures texts { SaysTransactionsAgain }
{
    sqlread::laws::transaction_says();
}
