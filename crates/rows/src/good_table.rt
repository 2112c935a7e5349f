//! Laws of good tables, which counts and names that differ make out.
ghost use Rattle.rows.specs.GoodTableLaw.{GoodTablesAreMade, OnlySchemasAreRead, GoodTextsAreRead};

/// States that declarations make tables where they are good ones, and that otherwise the first bad
/// one is reported. A schema is read from exactly the texts that say it.
pub fn good_tables_are_made()
    ensures tables { GoodTablesAreMade }
    ensures texts { OnlySchemasAreRead }
    ensures good_texts { GoodTextsAreRead }
{}
