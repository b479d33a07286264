use hr_base::Text;

/// The constructor of a type as it is written.
#[derive(Clone, Copy, Drop)]
pub enum Head {
    /// a name
    Named,
    List,
    /// a tuple of so many parts, or `()` with none
    Tuple(usize),
    Arrow,
}

/// A part of a written type. A type stands as the list of its parts, each constructor before its arguments.
#[derive(Clone, Drop)]
pub enum TypeMark {
    /// a type variable: its lexeme and its text
    Variable(usize, Text),
    /// a constructor: its lexeme, and the number of its arguments
    Applied(usize, Head, usize),
}

/// A constructor that a `data` or `newtype` declares: its lexeme, and the types of its fields.
#[derive(Drop)]
pub struct Construction {
    pub name: usize,
    pub fields: Vec<Vec<TypeMark>>,
}

/// What a module says of types, in text order. Names are known by their lexemes.
pub enum Written {
    Synonym {
        name: usize,
        variables: Vec<Text>,
        ty: Vec<TypeMark>,
    },
    Data {
        name: usize,
        variables: Vec<Text>,
        constructions: Vec<Construction>,
    },
    /// The type behind a `::` of a signature or an expression.
    Annotation {
        colons: usize,
        ty: Vec<TypeMark>,
    },
}

impl Drop for Written {
    fn drop(self) {
        match self {
            Written::Synonym {
                name: _,
                variables,
                ty,
            } => let_go!(variables, ty),
            Written::Data {
                name: _,
                variables,
                constructions,
            } => let_go!(variables, constructions),
            Written::Annotation { colons: _, ty } => let_go!(ty),
        }
    }
}
