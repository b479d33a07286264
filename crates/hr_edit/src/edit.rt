use hr_base::{Lexeme, Seq, Spot};
use hr_draft::Manner;

/// A change of a list of lexemes. What several edits put before one lexeme stands in the order of the
/// edits; a `before` whose number is that of the module's lexemes is the module's end.
#[derive(Drop)]
pub enum Edit {
    /// The lexeme at the spot gets another text.
    Respell {
        spot: Spot,
        lexeme: Lexeme,
    },
    Insert {
        before: Spot,
        lexemes: Seq<Lexeme>,
        manner: Manner,
    },
    /// The lexemes go, both ends among them.
    Remove {
        from: Spot,
        to: Spot,
    },
}
