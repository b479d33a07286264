ghost use Rattle.hr_rules.specs.BlockLaws.{ColumnsFromOne, NothingGoesOnBehindEnds, ItemsArePlaced, MarginsDivide, PartsDoNotEnd, SemicolonsDoNotEnd};

/// The items of a text with their places are its items, at their positions: a law about the
/// definitions, which no call needs to run.
pub fn items_are_placed()
    ensures { ItemsArePlaced }
{}

/// No column is 0: a law as well.
pub fn columns_from_one()
    ensures { ColumnsFromOne }
{}

/// A lexeme is left of a block, may start a part of it or goes on in it: one of the three.
pub fn margins_divide()
    ensures { MarginsDivide }
{}

/// Where a block ends, its last part can't go on: the table leaves no choice.
pub fn nothing_goes_on_behind_ends()
    ensures { NothingGoesOnBehindEnds }
{}

/// A block doesn't end where a part of it starts.
pub fn parts_do_not_end()
    ensures { PartsDoNotEnd }
{}

/// A block doesn't end where an empty part of it ends.
pub fn semicolons_do_not_end()
    ensures { SemicolonsDoNotEnd }
{}
