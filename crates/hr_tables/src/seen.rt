use hr_base::{Entity, Name, Seq};

/// An entity as a module sees it: the module's number in the list of modules, and the name that stands for the
/// entity there. The name of an export has no qualifier.
#[derive(Clone, Debug, Drop)]
pub struct Seen {
    pub module: usize,
    pub name: Name,
    pub entity: Entity,
}

/// What the modules of a project export, and what is in scope in each.
#[derive(Debug, Drop)]
pub struct Interfaces {
    pub exports: Seq<Seen>,
    pub in_scope: Seq<Seen>,
}
