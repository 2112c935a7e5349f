//! Laws of the grammar of schemas, which knows nothing of reading.
ghost use Rattle.rows.specs.SchemaGrammarLaw.{WhatIsReadIsOfTheGrammar, TokensAreRead, TheGrammarIsRead, TextsSayOneThing, OnlyTheGrammarIsRead, FaultsAreAtTokens, PrefixesGoOn, FaultsAreFinal};

/// States that a text in which reading finds no fault of syntax is of the grammar.
pub fn schemas_are_of_the_grammar()
    ensures grammar { WhatIsReadIsOfTheGrammar }
    ensures tokens { TokensAreRead }
{}

/// States that every text of the grammar of at most 65,536 bytes is read, as the one thing that it
/// says; a fault of syntax is found in all others and in no such text. It is reported where a token
/// begins or the text ends.
pub fn the_grammar_is_read()
    ensures read { TheGrammarIsRead }
    ensures one_thing { TextsSayOneThing }
    ensures only { OnlyTheGrammarIsRead }
    ensures at_tokens { FaultsAreAtTokens }
{}

/// States that the bytes before a fault of syntax can go on to a text of the grammar, and that with
/// the token at the fault they cannot.
pub fn faults_are_final()
    ensures goes_on { PrefixesGoOn }
    ensures no_more { FaultsAreFinal }
{}
