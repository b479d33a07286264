//! Laws of the definitions, which the proof of the parser goes by.
ghost use Rattle.hr_grammar.specs.Deep.{StuckAtOnePlace, WithinIsDeep};
ghost use Rattle.hr_grammar.specs.Firsts.{AlternativesBegin, DeclarationsBegin, ExpressionsBegin, PatternsBegin, TypesBegin};
ghost use Rattle.hr_grammar.specs.Joins.{PartsStand, YieldsJoin};
ghost use Rattle.hr_grammar.specs.LeftOut.{LeftOutStandsNowhere};
ghost use Rattle.hr_grammar.specs.Laws.{NoAnnotatedGuard, OneAnnotation, OneYield, OpenIsLast, OpenIsUnannotated, ReadIsJoined};
ghost use Rattle.hr_grammar.specs.SameTrees.{SameIsEquality, SemicolonsInBraces};
ghost use Rattle.hr_grammar.specs.Worked.{WorkedTrees};

/// A tree yields one list of items at most.
pub fn one_yield()
    ensures { OneYield }
{}

/// A tree within the limit on nesting that stands as the layout rule says is a deep one.
pub fn within_is_deep()
    ensures { WithinIsDeep }
{}

/// Among some items there is one place at most at which no deep tree goes on.
pub fn stuck_at_one_place()
    ensures { StuckAtOnePlace }
{}

/// What reads as a tree is the tree's items, joined: a tree has one text at most.
pub fn read_is_joined()
    ensures { ReadIsJoined }
{}

/// A lambda, `let` or `if` is no operand that an operator follows.
pub fn open_is_last()
    ensures { OpenIsLast }
{}

/// No `::` follows a lambda, `let` or `if` in the same expression.
pub fn open_is_unannotated()
    ensures { OpenIsUnannotated }
{}

/// An annotated expression is annotated only in brackets or in a block.
pub fn one_annotation()
    ensures { OneAnnotation }
{}

/// No `::` stands in a guard outside of brackets and blocks.
pub fn guards_are_unannotated()
    ensures { NoAnnotatedGuard }
{}

/// A type begins with a name, `(` or `[`.
pub fn types_begin()
    ensures { TypesBegin }
{}

/// A pattern begins with a name, a literal, `(`, `[`, `_`, `~` or a minus.
pub fn patterns_begin()
    ensures { PatternsBegin }
{}

/// An expression begins with a name, a literal, `(`, `[`, a minus, `\`, `let`, `if` or `case`.
pub fn expressions_begin()
    ensures { ExpressionsBegin }
{}

/// A declaration begins with what the layout rule takes for the beginning of a part where it stands: with
/// what a pattern begins with, a word of fixity, or in a module's body `type`, `data`, `newtype` or `import`.
pub fn declarations_begin()
    ensures { DeclarationsBegin }
{}

/// An alternative begins with what the layout rule takes for the beginning of an alternative.
pub fn alternatives_begin()
    ensures { AlternativesBegin }
{}

/// No lexeme of a tree, however deep its nodes nest, is one that is left out of the language: `class`, `instance`,
/// `default`, `deriving`, `do`, `=>` or a float.
pub fn left_out_stands_nowhere()
    ensures { LeftOutStandsNowhere }
{}

/// The trees of nine worked texts are trees of the grammar, stand as the layout rule says, and their
/// lexemes with what stands before them, joined, are the texts; each block ends before the lexeme that is
/// named. A `,`, a `|`, `..`, `then`, `of`, `in` or an operator ends a block, `in` two of them, and a lambda
/// stands in a section.
pub fn worked_trees()
    ensures { WorkedTrees }
{}

/// Equality of trees up to trivia, empty parts and the `;` of implicit blocks is an equality: each tree is the same as itself,
/// and it goes both ways and along.
pub fn same_is_equality()
    ensures { SameIsEquality }
{}

/// Of trees that are equal so, a block in braces may have a `;` more, as an empty part, but none less between two
/// parts.
pub fn semicolons_in_braces()
    ensures { SemicolonsInBraces }
{}

/// What a tree yields is what its parts yield, one part behind the other.
pub fn yields_join()
    ensures { YieldsJoin }
{}

/// The blocks of a tree stand as the layout rule says where those of its parts do: of one stretch behind
/// another, and of a block with its pieces.
pub fn parts_stand()
    ensures { PartsStand }
{}
