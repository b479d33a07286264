/// A name or a constructor at a use. A name is known by the number of its lexeme.
#[derive(Clone, Copy, Drop)]
pub enum Used {
    Name(usize),
    /// `:`
    Cons,
    /// `[]`
    Nil,
    /// `()`
    Unit,
    /// `(,)` and its kin, with the number of parts
    Tuple(usize),
}

#[derive(Clone, Copy, Drop)]
pub enum Literal {
    Integer,
    Character,
    Text,
}

/// A name that a signature signs: the number of its lexeme in the signature, and that of the `::`.
#[derive(Clone, Copy, Drop)]
pub struct Signed {
    pub name: usize,
    pub colons: usize,
}

/// A rule of typing. It takes types from the end of a list and puts one there: "takes a, b" says that b is the last.
pub enum Rule {
    /// Puts an instance of the type of a name or constructor.
    Use(Used),
    Literal(Literal),
    /// Puts the type of the variable that this lexeme of a pattern binds.
    Variable(usize),
    /// Puts any type: `_`.
    Any,
    /// Takes a function and so many arguments.
    Apply(usize),
    /// Takes a constructor and the patterns of all its fields.
    Construct(usize),
    /// Takes so many operands of an infix sequence of expressions, whose operators and minus stand at these lexemes.
    Sequence(usize, Vec<usize>),
    /// The same of patterns.
    PatternSequence(usize, Vec<usize>),
    Tuple(usize),
    List(usize),
    /// Takes the one to three numbers of an arithmetic sequence.
    Numbers(usize),
    /// Takes an operand and an operator.
    LeftSection,
    /// Takes an operator and an operand.
    RightSection,
    /// Takes so many patterns and a body.
    Lambda(usize),
    /// Takes a test, and puts nothing.
    Test,
    /// Takes two types that are to be one.
    Same,
    /// Puts the type of the alternatives of a `case`, behind that of what it looks at.
    Case,
    /// Takes what a `case` looks at, the type of its alternatives, a pattern and a body, and puts the first two.
    Alternative,
    /// Takes what a `case` looked at and the type of its alternatives, and puts the latter.
    EndCase,
    /// Takes a pattern and a list that it goes over, and puts nothing.
    Generator,
    /// Takes so many patterns and the body of an equation of the name, and puts nothing.
    Equation(usize, usize),
    /// Takes a pattern and what it is bound to, and puts nothing.
    Binding,
    /// A name has the type of a signature.
    Sign(Signed),
    /// Begins the definitions of names that use one another. The lexemes are those that bind them first.
    Open(Vec<usize>),
    /// Ends them.
    Close,
    /// Begins an annotated expression.
    OpenAnnotated,
    /// Takes the expression before a `::`.
    Annotated(usize),
    /// There is no type.
    Refuse,
}

impl Drop for Rule {
    fn drop(self) {
        match self {
            Rule::Use(_) => {}
            Rule::Literal(_) => {}
            Rule::Variable(_) => {}
            Rule::Any => {}
            Rule::Apply(_) => {}
            Rule::Construct(_) => {}
            Rule::Sequence(_, operators) => let_go!(operators),
            Rule::PatternSequence(_, operators) => let_go!(operators),
            Rule::Tuple(_) => {}
            Rule::List(_) => {}
            Rule::Numbers(_) => {}
            Rule::LeftSection => {}
            Rule::RightSection => {}
            Rule::Lambda(_) => {}
            Rule::Test => {}
            Rule::Same => {}
            Rule::Case => {}
            Rule::Alternative => {}
            Rule::EndCase => {}
            Rule::Generator => {}
            Rule::Equation(_, _) => {}
            Rule::Binding => {}
            Rule::Sign(_) => {}
            Rule::Open(names) => let_go!(names),
            Rule::Close => {}
            Rule::OpenAnnotated => {}
            Rule::Annotated(_) => {}
            Rule::Refuse => {}
        }
    }
}
