//! Laws about what is written for a type.
ghost use Rattle.hr_type_laws.specs.Laws.{BlanksBetween, OneType, ScopesTellApart};
ghost use Rattle.hr_type_laws.specs.Lexed.{SpelledReadsBack, WrittenIsLexed};

/// Lexemes read as one type at most, where the scope tells variables, names and marks apart.
pub fn one_type()
    ensures { OneType }
{}

/// Distinct variable identifiers, and conids without a shared spelling, are told apart.
pub fn scopes_tell_apart()
    ensures { ScopesTellApart }
{}

/// Where one lexeme could go on into the next, a blank stands between them.
pub fn blanks_between()
    ensures { BlanksBetween }
{}

/// The bytes that are written for a type are lexed as the lexemes that are written.
pub fn written_is_lexed()
    ensures { WrittenIsLexed }
{}

/// Bytes that spell a type, however they are lexed, read as this type and as no other.
pub fn spelled_reads_back()
    ensures { SpelledReadsBack }
{}
