use hr_base::{Lexeme, Pos};

/// What has ended directly before a lexeme, and where: by this a few lexemes belong to constructs that the language
/// leaves out. An expression, a pattern or a constructor that ends before `{` would have fields, a pattern before
/// `+` would be an n+k pattern, and `!` in a data declaration would mark a strict field.
#[derive(Clone, Copy, Debug)]
pub struct Notes {
    before_brace: Pos,
    before_plus: Pos,
    in_data: bool,
}

/// Where no lexeme stands.
const NOWHERE: Pos = Pos { line: 0, col: 0 };

impl Notes {
    pub fn new() -> Notes {
        Notes {
            before_brace: NOWHERE,
            before_plus: NOWHERE,
            in_data: false,
        }
    }

    /// An expression or a constructor is whole before the lexeme at the position.
    pub fn whole(&mut self, pos: Pos) {
        self.before_brace = pos;
    }

    /// A pattern is whole before the lexeme at the position.
    pub fn pattern(&mut self, pos: Pos) {
        self.before_brace = pos;
        self.before_plus = pos;
    }

    /// A data declaration begins, or something else.
    pub fn data(&mut self, begins: bool) {
        self.in_data = begins;
    }

    /// Whether the lexeme, which stands at the position, belongs to such a construct.
    pub(crate) fn leave_out(&self, lexeme: &Lexeme, pos: Pos) -> bool {
        match lexeme.text.as_slice() {
            b"{" => self.before_brace == pos,
            b"+" => self.before_plus == pos,
            b"!" => self.in_data,
            _ => false,
        }
    }
}
