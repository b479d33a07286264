ghost use Rattle.std.specs.Prelude.{◌≡◌};
ghost use Rattle.hr_why.specs.Numbers.{number_of};

use crate::Sought;
use hr_base::{Bound, Entity, Place, Seq, Text};
use hr_type::Mono;
use std::alloc::AllocError;

/// Why a step is refused. Of several reasons the first one in this order is shown. Places are positions in the text
/// before the step.
pub enum Why {
    /// There is no such module, or nothing that the command could mean.
    NoSuchThing {
        at: Sought,
    },
    /// The thing is declared in Prelude or Char.
    Builtin {
        entity: Entity,
    },
    /// The command's words don't fit the thing.
    WrongForm,
    /// It has the new name.
    SameName,
    /// It is `Main.main`.
    MainFixed,
    /// It isn't bound by equations or by `x = e`.
    NotSimpleBinding {
        place: Place,
    },
    /// It is used infix or in a section.
    InfixUse {
        place: Place,
    },
    /// Its uses don't stand in one equation: the first use, and the first one elsewhere.
    UsedIn {
        first: Option<Place>,
        second: Option<Place>,
    },
    /// A module exports it.
    Exported {
        entity: Entity,
    },
    /// The expression mentions the definition round it.
    MentionsItself {
        place: Place,
    },
    /// The expression mentions a variable that is bound round it.
    LocalInExpression {
        name: Text,
    },
    /// The parameter is used, or isn't a variable.
    ParameterUsed {
        place: Place,
    },
    /// A use has too few arguments.
    TooFewArguments {
        place: Place,
    },
    /// It has one parameter and several equations.
    SeveralEquations,
    /// Its signature names another variable too, or hides arrows.
    SignatureHides,
    /// The type of a new parameter has no spelling at its place.
    TypeNotNameable {
        ty: Mono,
    },
    /// The imports would lead back to a module.
    WouldCycle {
        names: Seq<Text>,
    },
    /// A name of the definition is not in scope in the other module.
    NotInScopeThere {
        name: Text,
    },
    /// A constructor stands in a pattern that can't be rewritten.
    NotFlatCase {
        place: Place,
    },
    /// The type is a synonym or a newtype.
    NotData,
    /// A constructor of the type is an operator.
    OperatorConstructor {
        name: Text,
    },
    /// The module has no export list of its own.
    NoExportList,
    /// A text of the target, all of them together, or its nesting are past a limit.
    OverLimit,
    /// An occurrence would be bound to something else, or to nothing.
    WouldRebind {
        occ: Place,
        old: Bound,
        new: Option<Bound>,
    },
    /// A region would declare a spelling twice.
    WouldDeclareTwice {
        first: Place,
        second: Place,
    },
    /// A module would export two things of one spelling.
    WouldClashExport {
        module: Text,
        name: Text,
    },
    /// The target would have no typing.
    WouldNotType {
        module: Text,
        group: Text,
    },
    Memory(AllocError),
}

/// By hand, so that who lets a refusal go calls this, and does not take all its variants apart.
impl Drop for Why {
    fn drop(self) {
        match self {
            Why::NoSuchThing { at } => drop(at),
            Why::Builtin { entity } => drop(entity),
            Why::WrongForm => {}
            Why::SameName => {}
            Why::MainFixed => {}
            Why::NotSimpleBinding { place } => drop(place),
            Why::InfixUse { place } => drop(place),
            Why::UsedIn { first, second } => {
                drop(first);
                drop(second);
            }
            Why::Exported { entity } => drop(entity),
            Why::MentionsItself { place } => drop(place),
            Why::LocalInExpression { name } => drop(name),
            Why::ParameterUsed { place } => drop(place),
            Why::TooFewArguments { place } => drop(place),
            Why::SeveralEquations => {}
            Why::SignatureHides => {}
            Why::TypeNotNameable { ty } => drop(ty),
            Why::WouldCycle { names } => drop(names),
            Why::NotInScopeThere { name } => drop(name),
            Why::NotFlatCase { place } => drop(place),
            Why::NotData => {}
            Why::OperatorConstructor { name } => drop(name),
            Why::NoExportList => {}
            Why::OverLimit => {}
            Why::WouldRebind { occ, old, new } => {
                drop(occ);
                drop(old);
                drop(new);
            }
            Why::WouldDeclareTwice { first, second } => {
                drop(first);
                drop(second);
            }
            Why::WouldClashExport { module, name } => {
                drop(module);
                drop(name);
            }
            Why::WouldNotType { module, group } => {
                drop(module);
                drop(group);
            }
            Why::Memory(error) => drop(error),
        }
    }
}

impl From<AllocError> for Why {
    fn from(error: AllocError) -> Why {
        Why::Memory(error)
    }
}

impl Why {
    /// The number by which the refusal is shown; none for want of memory.
    pub fn number(&self) -> Option<u32>
        ensures { result ≡ number_of self.now }
    {
        match self {
            Why::NoSuchThing { .. } => Some(31),
            Why::Builtin { .. } => Some(32),
            Why::WrongForm => Some(33),
            Why::SameName => Some(34),
            Why::MainFixed => Some(35),
            Why::NotSimpleBinding { .. } => Some(40),
            Why::InfixUse { .. } => Some(41),
            Why::UsedIn { .. } => Some(42),
            Why::Exported { .. } => Some(43),
            Why::MentionsItself { .. } => Some(44),
            Why::LocalInExpression { .. } => Some(45),
            Why::ParameterUsed { .. } => Some(46),
            Why::TooFewArguments { .. } => Some(47),
            Why::SeveralEquations => Some(48),
            Why::SignatureHides => Some(49),
            Why::TypeNotNameable { .. } => Some(50),
            Why::WouldCycle { .. } => Some(51),
            Why::NotInScopeThere { .. } => Some(52),
            Why::NotFlatCase { .. } => Some(53),
            Why::NotData => Some(54),
            Why::OperatorConstructor { .. } => Some(55),
            Why::NoExportList => Some(56),
            Why::OverLimit => Some(57),
            Why::WouldRebind { .. } => Some(36),
            Why::WouldDeclareTwice { .. } => Some(37),
            Why::WouldClashExport { .. } => Some(38),
            Why::WouldNotType { .. } => Some(39),
            Why::Memory(_) => None,
        }
    }
}
