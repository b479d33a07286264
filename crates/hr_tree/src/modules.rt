use crate::{Block, Constructor, Decl, Listed, Variable};
use hr_base::{Item, Seq, Text};

/// A module, and the blanks and comments behind its last lexeme. One without a header is a body alone.
pub struct Module {
    pub header: Option<Header>,
    pub body: Block<Decl>,
    pub tail: Text,
}

impl Drop for Module {
    fn drop(self) {
        let Module { header, body, tail } = self;
        let_go!(header, body, tail);
    }
}

/// `module M (..) where`
#[derive(Drop)]
pub struct Header {
    pub word: Item,
    pub name: Item,
    pub exports: Option<NameList<Export>>,
    pub opening: Item,
}

/// A list of exports or imports in parentheses, with its last comma if it has one.
#[derive(Drop)]
pub struct NameList<T> {
    pub left: Item,
    pub list: Seq<Listed<T>>,
    pub last_comma: Option<Item>,
    pub right: Item,
}

#[derive(Drop)]
pub enum Export {
    Variable(Variable),
    Type(Item, Option<Members>),
    /// `module M`
    Module(Item, Item),
}

/// What is named with a type: `(..)`, or some of its constructors and fields.
#[derive(Drop)]
pub enum Members {
    All(Item, Item, Item),
    Named(Item, Seq<Listed<Member>>, Item),
}

#[derive(Drop)]
pub enum Member {
    /// a constructor of the type
    Constructor(Constructor),
    /// a labelled field of the type
    Field(Variable),
}

/// `import qualified M as N hiding (..)`
pub struct Import {
    pub word: Item,
    pub qualified: Option<Item>,
    pub module: Item,
    pub alias: Option<Alias>,
    pub names: Option<ImportNames>,
}

impl Drop for Import {
    fn drop(self) {
        let Import {
            word,
            qualified,
            module,
            alias,
            names,
        } = self;
        let_go!(word, qualified, module, alias, names);
    }
}

/// `as N`
#[derive(Drop)]
pub struct Alias {
    pub word: Item,
    pub name: Item,
}

/// The names that an import brings, or with `hiding` leaves out.
#[derive(Drop)]
pub struct ImportNames {
    pub hiding: Option<Item>,
    pub list: NameList<Imported>,
}

#[derive(Drop)]
pub enum Imported {
    Variable(Variable),
    Type(Item, Option<Members>),
}
