//! Laws of the grammar.
#![tactic(auto)]

ghost use Rattle.sc_script.specs.Parsing.{HaveOneReading};
ghost use Rattle.sc_script.specs.Tables.{TablesAreExact};

/// The law that all bytes, whether they are text or not, are one script or have one fault, and
/// never both.
pub fn scripts_have_one_reading()
    ensures { HaveOneReading }
{}

/// The law that each table has exactly what is found in it: no spelling stands there twice.
pub fn tables_are_exact()
    ensures { TablesAreExact }
{}
