use crate::{
    Block, Body, Construction, Constructor, Field, Import, LeftSide, Listed, Operand, Operator,
    Pat, Ty, TypeHead, Variable, Where,
};
use hr_base::{Item, Seq};
use sqlite_items::{Boxed, Items as Children};

/// An expression: the Haskell 98 Report, section 3.
#[cycle(tree)]
pub enum Exp {
    Variable(Variable),
    Constructor(Constructor),
    Literal(Item),
    Group(Item, Boxed<Exp>, Item),
    Tuple(Item, Children<Listed<Exp>>, Item),
    List(Item, Children<Listed<Exp>>, Item),
    /// `[a ..]`
    From(Item, Boxed<Exp>, Item, Item),
    /// `[a, b ..]`
    FromThen(Item, Boxed<Exp>, Item, Boxed<Exp>, Item, Item),
    /// `[a .. c]`
    FromTo(Item, Boxed<Exp>, Item, Boxed<Exp>, Item),
    /// `[a, b .. c]`
    FromThenTo(Item, Boxed<Exp>, Item, Boxed<Exp>, Item, Boxed<Exp>, Item),
    /// `[e | qualifiers]`
    Comprehension(Item, Boxed<Exp>, Item, Children<Listed<Qualifier>>, Item),
    /// `(a +)`
    LeftSection(Item, Boxed<Exp>, Operator, Item),
    /// `(+ a)`
    RightSection(Item, Operator, Boxed<Exp>, Item),
    /// Two atoms or more, the first applied to the others.
    Apply(Children<Exp>),
    /// Two operands or more with operators between them, or one with a minus before it.
    Infix(Children<Operand<Exp>>),
    /// `e :: t`
    Annotated(Boxed<Exp>, Item, Ty),
    /// `\p -> e`
    Lambda(Item, Children<Pat>, Item, Boxed<Exp>),
    /// `let block in e`
    Let(Item, Block<Decl>, Item, Boxed<Exp>),
    /// `if a then b else c`
    If(Item, Boxed<Exp>, Item, Boxed<Exp>, Item, Boxed<Exp>),
    /// `case e of block`
    Case(Item, Boxed<Exp>, Item, Block<Alt>),
    /// `C {x = a}` and `e {x = a}`, which are not read yet.
    Fields(Boxed<Exp>, Item, Children<Listed<Field<Exp>>>, Item),
}

/// A declaration: the Haskell 98 Report, section 4. The first four stand in a module's body alone.
#[cycle(tree)]
pub enum Decl {
    Import(Import),
    /// `type T a = t`
    Synonym(Item, TypeHead, Item, Ty),
    /// `data T a = C t | ..`
    Data(Item, TypeHead, Item, Seq<Listed<Construction>>),
    /// `newtype T a = C t`
    Newtype(Item, TypeHead, Item, Construction),
    /// `f, g :: t`
    Signature(Seq<Listed<Variable>>, Item, Ty),
    /// `infixl 6 +, -`
    Fixity(Item, Option<Item>, Seq<Listed<Operator>>),
    Equation(LeftSide, Body<Exp>, Option<Where<Decl>>),
    /// A variable or another pattern, bound as a whole.
    Binding(Pat, Body<Exp>, Option<Where<Decl>>),
}

/// An alternative of a `case`.
#[cycle(tree)]
pub struct Alt {
    pub pattern: Pat,
    pub body: Body<Exp>,
    pub locals: Option<Where<Decl>>,
}

/// A qualifier of a comprehension: `p <- e`, `let block`, or a test.
#[cycle(tree)]
pub enum Qualifier {
    Generator(Pat, Item, Boxed<Exp>),
    Locals(Item, Block<Decl>),
    Test(Boxed<Exp>),
}

impl Drop for Exp {
    #[cycle(tree)]
    fn drop(self) {
        match self {
            Exp::Variable(variable) => let_go!(variable),
            Exp::Constructor(constructor) => let_go!(constructor),
            Exp::Literal(item) => let_go!(item),
            Exp::Group(left, inside, right) => let_go!(left, inside, right),
            Exp::Tuple(left, parts, right) => let_go!(left, parts, right),
            Exp::List(left, parts, right) => let_go!(left, parts, right),
            Exp::From(left, first, dots, right) => let_go!(left, first, dots, right),
            Exp::FromThen(left, first, comma, second, dots, right) => let_go!(
                left, first, comma, second, dots, right
            ),
            Exp::FromTo(left, first, dots, last, right) => let_go!(left, first, dots, last, right),
            Exp::FromThenTo(left, first, comma, second, dots, last, right) => let_go!(
                left, first, comma, second, dots, last, right
            ),
            Exp::Comprehension(left, part, bar, qualifiers, right) => let_go!(
                left, part, bar, qualifiers, right
            ),
            Exp::LeftSection(left, operand, operator, right) => let_go!(
                left, operand, operator, right
            ),
            Exp::RightSection(left, operator, operand, right) => let_go!(
                left, operator, operand, right
            ),
            Exp::Apply(atoms) => let_go!(atoms),
            Exp::Infix(operands) => let_go!(operands),
            Exp::Annotated(part, colons, ty) => let_go!(part, colons, ty),
            Exp::Lambda(backslash, patterns, arrow, body) => let_go!(
                backslash, patterns, arrow, body
            ),
            Exp::Let(let_word, block, in_word, body) => let_go!(let_word, block, in_word, body),
            Exp::If(if_word, test, then_word, first, else_word, second) => let_go!(
                if_word, test, then_word, first, else_word, second
            ),
            Exp::Case(case_word, part, of_word, block) => let_go!(case_word, part, of_word, block),
            Exp::Fields(part, left, fields, right) => let_go!(part, left, fields, right),
        }
    }
}

impl Drop for Decl {
    #[cycle(tree)]
    fn drop(self) {
        match self {
            Decl::Import(import) => let_go!(import),
            Decl::Synonym(word, head, equals, ty) => let_go!(word, head, equals, ty),
            Decl::Data(word, head, equals, constructions) => let_go!(
                word,
                head,
                equals,
                constructions
            ),
            Decl::Newtype(word, head, equals, construction) => let_go!(
                word,
                head,
                equals,
                construction
            ),
            Decl::Signature(names, colons, ty) => let_go!(names, colons, ty),
            Decl::Fixity(word, level, operators) => let_go!(word, level, operators),
            Decl::Equation(left, body, locals) => let_go!(left, body, locals),
            Decl::Binding(pattern, body, locals) => let_go!(pattern, body, locals),
        }
    }
}

impl Drop for Alt {
    #[cycle(tree)]
    fn drop(self) {
        let Alt {
            pattern,
            body,
            locals,
        } = self;
        let_go!(pattern, body, locals);
    }
}

impl Drop for Qualifier {
    #[cycle(tree)]
    fn drop(self) {
        match self {
            Qualifier::Generator(pattern, arrow, part) => let_go!(pattern, arrow, part),
            Qualifier::Locals(let_word, block) => let_go!(let_word, block),
            Qualifier::Test(part) => let_go!(part),
        }
    }
}
