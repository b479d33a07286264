//! The law of the relation and the promise.
ghost use Rattle.hr_grammar_cases_laws.specs.Laws.{RelationIsPromise};

/// Items are read as a tree exactly where it is one of the grammar on that level, its blocks stand as the
/// layout rule says, and the items are its own.
pub fn relation_is_promise()
    ensures { RelationIsPromise }
{}
