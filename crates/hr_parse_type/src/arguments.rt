//! What would be the argument of a type variable, which the language leaves out.

use hr_layout::Cursor;
use hr_parse_lexeme::Stop;
use hr_rules::{Role, role_of};
use hr_tree::Ty;

/// Whether the next lexeme begins a name or a bracket, wherever it stands: where no tree goes on with it, what it
/// begins would be the argument of a type variable before it.
pub fn is_argument_next(cursor: &Cursor) -> bool {
    match cursor.peek() {
        None => false,
        Some(lexeme) => matches!(role_of(lexeme), Role::Name | Role::OpenBracket),
    }
}

/// Stops where the lexeme that is next would be an argument of the type's last variable.
pub fn refuse_argument(cursor: &Cursor, ty: &Ty) -> Result<(), Stop> {
    if ends_in_variable(ty) && is_argument_next(cursor) {
        return Err(Stop::LeftOut);
    }
    Ok(())
}

/// Whether the last lexeme of the type is a type variable.
pub fn ends_in_variable(ty: &Ty) -> bool {
    match ty {
        Ty::Variable(_) => true,
        Ty::Apply(_, types) => last_is_variable(types.as_slice()),
        Ty::Function(_, _, to) => ends_in_variable(to.get()),
        _ => false,
    }
}

/// Whether a type variable is the last of the types.
pub fn last_is_variable(types: &[Ty]) -> bool {
    match types.last() {
        None => false,
        Some(last) => is_variable(last),
    }
}

pub(crate) fn is_variable(ty: &Ty) -> bool {
    matches!(ty, Ty::Variable(_))
}
