//! Laws of the script language.
ghost use Rattle.hr_script.specs.Laws.{OneScript, WrittenParsesBack};

/// Bytes are a script of one list of commands at most.
pub fn one_script()
    ensures { OneScript }
{}

/// What is written of commands whose texts are words of the language parses back to them.
pub fn written_parses_back()
    ensures { WrittenParsesBack }
{}
