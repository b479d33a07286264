use hr_base::Seq;

/// A block by the numbers of its module's lexemes. The braces of an explicit block stand in it.
#[derive(Clone, Copy, Debug, PartialEq, Eq)]
pub struct BlockSpan {
    /// The word behind which it stands; none for the body of a module without a header.
    pub opening: Option<usize>,
    pub explicit: bool,
    /// The column of an implicit block, else 0.
    pub col: u32,
    /// Its first lexeme.
    pub from: usize,
    /// The number behind its last lexeme: `from` where it has none.
    pub to: usize,
}

/// A part of a block, by the block's number in the list of blocks and the numbers of its lexemes.
#[derive(Clone, Copy, Debug, PartialEq, Eq)]
pub struct PartSpan {
    pub block: usize,
    pub from: usize,
    pub to: usize,
}

/// The blocks of a module in the order of their openings, and their parts in the order of their ends.
#[derive(Clone, Debug, Drop)]
pub struct Blocks {
    pub spans: Seq<BlockSpan>,
    pub parts: Seq<PartSpan>,
}
