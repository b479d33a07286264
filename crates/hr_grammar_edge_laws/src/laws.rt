//! Laws about the edges of trees and of their blocks.
ghost use Rattle.hr_grammar_edge_laws.specs.Laws.{BlocksBegin};
ghost use Rattle.hr_grammar_edge_laws.specs.Lasts.{AlternativesEnd, DeclarationsEnd, ExpressionsEnd, PatternsEnd, TypesEnd};
ghost use Rattle.hr_grammar_edge_laws.specs.Patterns.{PatternsHaveNoBar};

/// The blocks of a tree begin behind its opening words, `let`, `of` and `where`, and nowhere else.
pub fn blocks_begin()
    ensures { BlocksBegin }
{}

/// A type ends with a name, `)` or `]`.
pub fn types_end()
    ensures { TypesEnd }
{}

/// A pattern ends with a name, a literal, `)`, `]` or `_`.
pub fn patterns_end()
    ensures { PatternsEnd }
{}

/// An atom ends with a name, a literal, `)` or `]`; any other expression also with what a block ends with.
pub fn expressions_end()
    ensures { ExpressionsEnd }
{}

/// An import ends with a name or `)`; any other declaration with what an expression ends with.
pub fn declarations_end()
    ensures { DeclarationsEnd }
{}

/// An alternative ends with what an expression ends with.
pub fn alternatives_end()
    ensures { AlternativesEnd }
{}

/// A pattern has no `=`, `|`, `->` or `<-`: a left side, an alternative's pattern and a generator's end before theirs.
pub fn patterns_have_no_bar()
    ensures { PatternsHaveNoBar }
{}
