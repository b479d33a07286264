//! Laws of the relation.
ghost use Rattle.hr_grammar_cases.specs.Fronts.{FrontsClose};
ghost use Rattle.hr_grammar_cases.specs.Laws.{ImportsGive, LevelsAre, LevelsGive, ModulesAre, ModulesGive, ModulesStand, ModulesYield, PartsEnd, PatternsGive, PiecesStop, ReadingsShrink, TypesGive};
ghost use Rattle.hr_grammar_cases.specs.Places.{LevelsWidenPlaces};
ghost use Rattle.hr_grammar_cases.specs.Widening.{LevelsWiden, ModulesWiden};
ghost use Rattle.hr_grammar_cases.specs.Worked.{WorkedTexts};

/// A type that is read takes its own items.
pub fn types_give()
    ensures { TypesGive }
{}

/// A pattern that is read takes its own items.
pub fn patterns_give()
    ensures { PatternsGive }
{}

/// Imports and a module's header, where they are read, take their own items.
pub fn imports_give()
    ensures { ImportsGive }
{}

/// Each tree that is read takes its own items, blocks and their parts too.
pub fn levels_give()
    ensures { LevelsGive }
{}

/// The items that are read as a module are those that it yields.
pub fn modules_give()
    ensures { ModulesGive }
{}

/// Each tree that is read is a tree of the grammar, on the same level.
pub fn levels_are()
    ensures { LevelsAre }
{}

/// What is read as a module is a tree of the grammar, and is yielded by it.
pub fn modules_are()
    ensures { ModulesAre }
{}

/// What is read of a type, a pattern, an expression, a declaration or an alternative is a lexeme or more, and a
/// block leaves no more lexemes than there were.
pub fn readings_shrink()
    ensures { ReadingsShrink }
{}

/// Where the pieces of a block go on or end behind a part, nothing can go on in the part.
pub fn pieces_stop()
    ensures { PiecesStop }
{}

/// No expression, declaration or alternative ends as an empty part does.
pub fn parts_end()
    ensures { PartsEnd }
{}

/// The items of a worked text are read as its tree: an annotated expression in a block that `in` ends.
pub fn worked_texts()
    ensures { WorkedTexts }
{}

/// The blocks of what is read as a module stand as the layout rule says.
pub fn modules_stand()
    ensures { ModulesStand }
{}

/// What is read as a module within the limit on nesting is yielded by a tree of the grammar whose blocks stand so, and
/// what is read on any level by a deep one.
pub fn modules_yield()
    ensures { ModulesYield }
{}

/// What is read with so many levels of nodes is read with more: types, patterns, expressions, declarations,
/// alternatives and blocks.
pub fn levels_widen()
    ensures { LevelsWiden }
{}

/// What is read as a module with so many levels of nodes is read as it with more.
pub fn modules_widen()
    ensures { ModulesWiden }
{}

/// What is read at a place of the grammar is read at each place where more may stand: an atom as an operand, a local
/// declaration at the top, what has no `::` where `::` may stand.
pub fn places_widen()
    ensures { LevelsWidenPlaces }
{}

/// Where a block ends behind the pieces that have been read so far, they are the block's pieces; where a last
/// operand stands behind those that have been read, they are the operands of one sequence.
pub fn fronts_close()
    ensures { FrontsClose }
{}
