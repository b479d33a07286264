use hr_base::{Lexeme, Seq, Spot};

/// Where a lexeme of a target comes from. A kept or carried one names the old lexeme, of which it may
/// have another text.
#[derive(Clone, Copy, Debug, PartialEq, Eq)]
pub enum Origin {
    /// It stands where it stood.
    Kept(Spot),
    /// It is taken to another place.
    Carried(Spot),
    New,
}

/// How lexemes that an edit puts in are laid out.
#[derive(Clone, Copy, Debug, PartialEq, Eq)]
pub enum Manner {
    /// A run of lexemes, one blank apart. `place_of` is the first of the old lexemes in whose place it
    /// stands, which isn't kept; none where it stands in place of none, and in a run's later edits.
    Run { place_of: Option<Spot> },
    /// A run that begins a pair of brackets round the lexeme behind it.
    Wrap,
    /// A definition or an import, on lines of its own, in the block that the word at the spot opens; in
    /// the module's body where there is none.
    Part { block: Option<Spot> },
    /// A definition with the new `where` before it.
    Where,
}

/// A lexeme of a target, and how the edit that put it in lays it out; none where it is kept. `first` is
/// true exactly at the first lexeme that an edit puts in.
#[derive(Clone, Debug, Drop)]
pub struct Drafted {
    pub lexeme: Lexeme,
    pub origin: Origin,
    pub manner: Option<Manner>,
    pub first: bool,
}

/// The lexemes of a module in the target, by the module's number. `gone` has, in text order, the old
/// lexemes of the module that are carried into another one; an old lexeme of the module that is neither
/// in the list nor in `gone` is removed.
#[derive(Clone, Debug, Drop)]
pub struct Draft {
    pub module: usize,
    pub lexemes: Seq<Drafted>,
    pub gone: Seq<Spot>,
}
