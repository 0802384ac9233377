//! Laws of what texts spell.
ghost use Rattle.std.specs.Prelude.{ℕ, ◌↔◌, List};
ghost use Rattle.sqltokens.specs.Syntax as grammar;
ghost use Rattle.sqltokens.specs.Syntax.{IsTold};
ghost use Rattle.sqlsyntax.specs.Queries.{query};
ghost use Rattle.sqlsyntax.specs.Transactions.{StatementForm, statements};
ghost use Rattle.sqlsyntax.specs.Spelling.{Spells, IsWrongAt};

/// Each reader answers by its grammar alone: Ok with a form exactly where the text's tokens are the
/// spelling of that form, and a syntax error at a byte exactly where no form spells the text and the
/// first token begins there after which no spelling goes on, or the text ends there.
pub fn forms_told()
    ensures query { IsTold query }
    ensures transaction { IsTold statements }
{}

/// What the grammar of transactions spells is what the forms are spelled by, and where a text goes
/// wrong is the same by both.
pub fn transactions_spelled()
    ensures spells { (text : List ℕ) (forms : List StatementForm) → grammar.Spells statements text forms ↔ Spells text forms }
    ensures wrong { (text : List ℕ) (at : ℕ) → grammar.IsWrongAt statements text at ↔ IsWrongAt text at }
{}
