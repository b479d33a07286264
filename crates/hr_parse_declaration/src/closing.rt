//! Whether a type variable is the last lexeme of a declaration.

use hr_parse_type::{ends_in_variable, last_is_variable};
use hr_tree::{Construction, Decl};

/// Whether the last lexeme of the declaration is a type variable, as far as it has no right side.
pub fn closes_in_variable(decl: &Decl) -> bool {
    match decl {
        Decl::Synonym(_, _, _, ty) => ends_in_variable(ty),
        Decl::Signature(_, _, ty) => ends_in_variable(ty),
        Decl::Data(_, _, _, constructions) => match constructions.list.last() {
            None => false,
            Some(last) => construction_ends(&last.part),
        },
        Decl::Newtype(_, _, _, construction) => construction_ends(construction),
        _ => false,
    }
}

fn construction_ends(construction: &Construction) -> bool {
    match construction {
        Construction::Prefix(_, types) => last_is_variable(types.as_slice()),
        Construction::Infix(_, _, ty) => ends_in_variable(ty),
        _ => false,
    }
}
