//! What is so of every text.
ghost use Rattle.hr_lexer.specs.Laws.{ReadOrRefused};

/// Every text has items and is not too long, or there is a cause for which it is refused: a law about
/// the definitions, which no call needs to run. So one of the clauses of `lex` applies to each.
pub fn read_or_refused()
    ensures { ReadOrRefused }
{}
