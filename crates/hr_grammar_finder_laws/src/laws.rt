//! Laws of the plain reader.
ghost use Rattle.hr_grammar_finder_laws.specs.Laws.{DerivedAreFound, FoundAreDerived, FoundAreRead};
ghost use Rattle.hr_grammar_finder_laws.specs.Short.{ShortTextsHaveOneTree};
ghost use Rattle.hr_grammar_finder_laws.specs.Promise.{ReadAreFound, WorkedTextsAreRead};
ghost use Rattle.hr_grammar_finder_laws.specs.Worked.{WorkedTextsAreFound};

/// What the reader finds is a tree of the items by the relation.
pub fn found_are_derived()
    ensures { FoundAreDerived }
{}

/// What the reader finds yields the items, and its blocks stand as the layout rule says.
pub fn found_are_read()
    ensures { FoundAreRead }
{}

/// Each tree of the items by the relation is found: where none is found there is none, and where one
/// is found no two differ.
pub fn derived_are_found()
    ensures { DerivedAreFound }
{}

/// The reader finds one tree of each of some worked texts, and none of others.
pub fn worked_texts_are_found()
    ensures { WorkedTextsAreFound }
{}

/// None of the short texts is read as two trees.
pub fn short_texts_have_one_tree()
    ensures { ShortTextsHaveOneTree }
{}

/// Each tree within the limit on nesting that yields the items, and whose blocks stand as the layout rule
/// says, is found: where none is found the items have none, and where one is found they have no other.
pub fn read_are_found()
    ensures { ReadAreFound }
{}

/// Nine worked texts have their tree and no other one, and seven texts have none.
pub fn worked_texts_are_read()
    ensures { WorkedTextsAreRead }
{}
