//! Laws of the grammar of lines, which knows nothing of reading.
ghost use Rattle.std.specs.Prelude.{ℕ};
ghost use Rattle.values.specs.Tables.{Schema};
ghost use Rattle.statement.specs.Line.{body_says};
ghost use Rattle.statement.specs.ServedLine.{served_body_says};
ghost use Rattle.statement.specs.Grammar.{IsLine, IsServedLine};
ghost use Rattle.statement.specs.GoingOn.{FaultsAreFinal, PrefixesGoOn};
ghost use Rattle.statement.specs.GrammarLaw.{LinesAreRead, LinesSayOneThing, NothingIsRead, OnlyLinesAreRead, FaultsAreAtTokens, LineEndsAreNoTokens, PrintedRowsAreRead};

/// States that reading a line of a script from the left reads the lines of the grammar and no
/// others. A fault of syntax is reported where a token begins, or at the line's end.
pub fn lines_are_read_by_the_grammar()
    ensures read { (schema : Schema) → LinesAreRead schema (IsLine schema) (body_says schema) }
    ensures one_thing { (schema : Schema) → LinesSayOneThing (IsLine schema) }
    ensures nothing { (schema : Schema) → NothingIsRead schema (IsLine schema) (body_says schema) }
    ensures only { (schema : Schema) → OnlyLinesAreRead schema (IsLine schema) (body_says schema) }
    ensures at_tokens { (schema : Schema) → FaultsAreAtTokens (body_says schema) }
    ensures ends { LineEndsAreNoTokens }
{}

/// States the laws of `lines_are_read_by_the_grammar` of the lines that a session sends, which are
/// those of its statements with no number before them, splits and migrations.
pub fn served_lines_are_read_by_the_grammar()
    ensures read { (schema : Schema) (session : ℕ)
        → LinesAreRead schema (IsServedLine schema session) (served_body_says schema session) }
    ensures one_thing { (schema : Schema) (session : ℕ)
        → LinesSayOneThing (IsServedLine schema session) }
    ensures nothing { (schema : Schema) (session : ℕ)
        → NothingIsRead schema (IsServedLine schema session) (served_body_says schema session) }
    ensures only { (schema : Schema) (session : ℕ)
        → OnlyLinesAreRead schema (IsServedLine schema session) (served_body_says schema session) }
    ensures at_tokens { (schema : Schema) (session : ℕ)
        → FaultsAreAtTokens (served_body_says schema session) }
{}

/// States that the bytes before a fault of syntax can go on to a line. With the token at the fault,
/// if it is a word, a name, a number or a symbol other than a minus and a quote, they cannot.
pub fn faults_are_final()
    ensures goes_on { (schema : Schema) → PrefixesGoOn (IsLine schema) (body_says schema) }
    ensures no_more { (schema : Schema) → FaultsAreFinal (IsLine schema) (body_says schema) }
{}

/// States the laws of `faults_are_final` of the lines that a session sends.
pub fn served_faults_are_final()
    ensures goes_on { (schema : Schema) (session : ℕ)
        → PrefixesGoOn (IsServedLine schema session) (served_body_says schema session) }
    ensures no_more { (schema : Schema) (session : ℕ)
        → FaultsAreFinal (IsServedLine schema session) (served_body_says schema session) }
{}

/// States that a row that is printed is read again as the values of a row of an INSERT.
pub fn printed_rows_are_read()
    ensures { PrintedRowsAreRead }
{}
