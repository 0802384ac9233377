//! A law of texts of answers, as the contract of a function that does nothing.
ghost use Rattle.moments.specs.Texts.{OneText};

/// One text: an answer about a table has one text, whichever members gave it.
pub fn one_text()
    ensures { OneText }
{}
