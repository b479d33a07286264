ghost use Rattle.std.specs.Prelude.{◌≡◌};
ghost use Rattle.hr_scope_rules.specs.Roles.{innermost_start, role_in, second_start, space_of};

use hr_base::{Class, Space};
use hr_scope_rules::{Naming, Role};

/// Whether a name of the class is a variable's or a constructor's.
fn space_of(class: Class) -> Option<Space>
    ensures { result ≡ space_of class }
{
    match class {
        Class::VarId => Some(Space::Value),
        Class::QVarId => Some(Space::Value),
        Class::VarSym => Some(Space::Value),
        Class::QVarSym => Some(Space::Value),
        Class::ConId => Some(Space::Constructor),
        Class::QConId => Some(Space::Constructor),
        Class::ConSym => Some(Space::Constructor),
        Class::QConSym => Some(Space::Constructor),
        Class::Integer => None,
        Class::Float => None,
        Class::Char => None,
        Class::Str => None,
        Class::ReservedId => None,
        Class::ReservedOp => None,
        Class::Special => None,
    }
}

/// The role of a lexeme of the class that stands so.
pub(crate) fn role_in(starts: &[usize], naming: Naming, class: Class) -> Role
    ensures { result ≡ role_in starts.now naming class }
{
    let space = space_of(class);
    match naming {
        Naming::Plain => Role::Plain,
        Naming::Used => match space {
            Some(space) => Role::Uses(space),
            None => Role::Plain,
        },
        Naming::Type => match space {
            Some(_) => Role::Uses(Space::TypeName),
            None => Role::Plain,
        },
        Naming::Bound => Role::Declares(Space::Value),
        Naming::Defined(goes_on) => {
            if goes_on {
                Role::GoesOn
            } else {
                Role::Declares(Space::Value)
            }
        }
        Naming::Signed => Role::Signs,
        Naming::Fixed => match space {
            Some(space) => Role::Fixes(space),
            None => Role::Plain,
        },
        Naming::Constructed => match space {
            Some(space) => Role::Declares(space),
            None => Role::Plain,
        },
        Naming::Headed => Role::Declares(Space::TypeName),
        Naming::Parameter => Role::Parameter,
        Naming::Exported(space) => Role::Exported(space),
        Naming::ExportedPart => match space {
            Some(_) => Role::ExportedPart(innermost_start(starts)),
            None => Role::Plain,
        },
        Naming::Imported => Role::Imported(innermost_start(starts), Space::Value),
        Naming::ImportedType => Role::Imported(second_start(starts), Space::TypeName),
        Naming::ImportedPart => match space {
            Some(_) => Role::ImportedPart(second_start(starts), innermost_start(starts)),
            None => Role::Plain,
        },
        Naming::Hidden => match space {
            Some(_) => Role::Hidden(innermost_start(starts)),
            None => Role::Plain,
        },
    }
}

/// The lexeme with which the innermost construct begins, or 0.
pub(crate) fn innermost_start(starts: &[usize]) -> usize
    ensures { result ≡ innermost_start starts.now }
{
    match starts.last() {
        Some(last) => *last,
        None => 0,
    }
}

/// The lexeme with which the construct round it begins, or 0.
fn second_start(starts: &[usize]) -> usize
    ensures { result ≡ second_start starts.now }
{
    match starts.get(starts.len().saturating_sub(2)) {
        Some(second) => *second,
        None => 0,
    }
}
