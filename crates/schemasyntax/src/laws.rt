//! The law of what texts spell.
ghost use Rattle.sqltokens.specs.Syntax.{IsTold};
ghost use Rattle.schemasyntax.specs.Schemas.{tables};

/// The reader answers by the grammar alone: Ok with a form exactly where the text's tokens are the
/// spelling of that form, and a syntax error at a byte exactly where no form spells the text and the
/// first token begins there after which no spelling goes on, or the text ends there.
pub fn forms_told()
    ensures { IsTold tables }
{}
