use crate::{Place, Spot, Text};

/// A name as it is written: its qualifier, if it has one, and its own text.
#[derive(Clone, Debug, Drop, PartialEq, Eq, PartialOrd, Ord, Hash)]
pub struct Name {
    pub qualifier: Option<Text>,
    pub text: Text,
}

/// The three spaces of names of top-level things: the Report's section 1.4 counts variables and
/// constructors as values; here they are apart, since their spellings are.
#[derive(Clone, Copy, Debug, PartialEq, Eq, PartialOrd, Ord, Hash)]
pub enum Space {
    Value,
    Constructor,
    TypeName,
}

/// A top-level thing, by the module that declares it.
#[derive(Clone, Debug, Drop, PartialEq, Eq, PartialOrd, Ord, Hash)]
pub struct Entity {
    pub module: Text,
    pub space: Space,
    pub text: Text,
}

/// What a name is bound to: a top-level thing, or a local variable by the spot of its first
/// binding occurrence.
#[derive(Clone, Debug, Drop, PartialEq, Eq, PartialOrd, Ord, Hash)]
pub enum Binder {
    Global(Entity),
    Local(Spot),
}

/// A binder with its place in the old text, as refusals keep it.
#[derive(Clone, Debug, Drop, PartialEq, Eq, PartialOrd, Ord, Hash)]
pub enum Bound {
    Global(Entity),
    Local(Place),
}
