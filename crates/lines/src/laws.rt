//! Laws of scripts. No function here does anything, save to call upon another law: what it is for is
//! its contract, which a caller has as a fact.
ghost use Rattle.lines.specs.Laws.{ReadIsNotBad, ReadIsNotRefused, BadIsNotRefused, OneBadLine, OneRefusal, OneReading, OneLine, ReadHasNoFault, OneFault};

/// The ways in which a text is answered exclude one another: no script that is read is bad at a line,
/// or has a schema that is refused, and none that is bad at a line has a schema that is refused.
pub fn ways_apart()
    ensures bad { ReadIsNotBad }
    ensures refused { ReadIsNotRefused }
    ensures bad_or_refused { BadIsNotRefused }
{
    schemaread::laws::schema_says();
}

/// A script is bad at one line at most, its schema is refused in one way, and it is read in one way.
pub fn one_answer()
    ensures line { OneBadLine }
    ensures refusal { OneRefusal }
    ensures reading { OneReading }
{
    schemaread::laws::schema_says();
}

/// A line in range has a text of its own.
pub fn line_texts()
    ensures { OneLine }
{}

/// So a reader that keeps to the contract of `read_script` refuses no script that is read, save for want of
/// memory, and refuses any other in one way.
pub fn faults()
    ensures read { ReadHasNoFault }
    ensures one { OneFault }
{
    schemaread::laws::schema_says();
}
