ghost use Rattle.std.specs.Prelude.{◌≡◌, ◌++◌, ◌==◌, ◌||◌, IfOk, IsTrue, is_some, MatchOption, OnOk, codes, false, length, map, nat_eq, slice_get, true};
ghost use Rattle.std.specs.Cmp.Lexicographic.{pointwise};
ghost use Rattle.std.specs.List.{list_all, list_any};
ghost use Rattle.std.specs.Option.{option_copied};
ghost use Rattle.hr_type.specs.Spelling as spec;
ghost use Rattle.hr_type.specs.Types.{same_entity};
ghost use Rattle.hr_type.specs.Grammar.{ReadsType};
ghost use Rattle.hr_type.specs.declared.spell.TypeScope.{TypeScope};

use crate::Mono;
use crate::mono::is_same_entity;
use crate::parts::push_parts;
use hr_base::{Entity, Name, Seq, Space, Text};
use std::alloc::{AllocError, Global};

/// The names that constructors have in a scope, and the texts of the variables from 0.
#[derive(Debug, Drop)]
pub struct TypeScope {
    pub names: Seq<(Entity, Name)>,
    pub variables: Seq<Text>,
}

/// The brackets round the arguments of a list type, and of a tuple type or ().
#[derive(Clone, Copy, Debug, PartialEq, Eq)]
pub enum Brackets {
    Square,
    Round,
}

const ROUND: [&[u8]; 15] = [
    b"()",
    b"(,)",
    b"(,,)",
    b"(,,,)",
    b"(,,,,)",
    b"(,,,,,)",
    b"(,,,,,,)",
    b"(,,,,,,,)",
    b"(,,,,,,,,)",
    b"(,,,,,,,,,)",
    b"(,,,,,,,,,,)",
    b"(,,,,,,,,,,,)",
    b"(,,,,,,,,,,,,)",
    b"(,,,,,,,,,,,,,)",
    b"(,,,,,,,,,,,,,,)",
];

fn is_among(words: &[&[u8]], text: &[u8]) -> bool
    ensures { result ≡ list_any (λ word. pointwise nat_eq word text.now) (map (λ word. word.now) words.now) }
{
    for word in words {
        if *word == text {
            return true;
        }
    }
    false
}

#[tactic(auto, unfolding(crate::specs::Spelling::brackets_by))]
fn brackets_by(text: &[u8]) -> Option<Brackets>
    ensures { result ≡ spec.brackets_by text.now }
{
    if text == b"[]".as_slice() {
        return Some(Brackets::Square);
    }
    if is_among(&ROUND, text) {
        return Some(Brackets::Round);
    }
    None
}

pub fn is_type_name(space: Space) -> bool
    ensures { result ≡ spec.is_type_name space }
{
    match space {
        Space::Value => false,
        Space::Constructor => false,
        Space::TypeName => true,
    }
}

pub fn is_prelude(name: &[u8]) -> bool
    ensures { result ≡ pointwise nat_eq name.now (codes "Prelude") }
{
    name == b"Prelude".as_slice()
}

/// The brackets of a type that is syntax.
#[tactic(auto, unfolding(crate::specs::Spelling::brackets_of))]
pub fn brackets_of(entity: &Entity) -> Option<Brackets>
    ensures { result ≡ spec.brackets_of entity.now }
{
    if is_type_name(entity.space) && is_prelude(entity.module.as_slice()) {
        return brackets_by(entity.text.as_slice());
    }
    None
}

/// The name of an entity, by the first pair with it.
pub fn name_for<'a>(entity: &Entity, names: &'a [(Entity, Name)]) -> Option<&'a Name>
    ensures { option_copied result ≡ spec.name_for entity.now names.now }
{
    for (other, name) in names {
        if is_same_entity(entity, other) {
            return Some(name);
        }
    }
    None
}

/// Whether each constructor of a type is syntax or has a name, and each variable a text.
pub fn is_spellable(alloc: Global, scope: &TypeScope, ty: &Mono) -> Result<bool, AllocError>
    ensures { IfOk result (λ yes. yes ≡ spec.is_spellable scope.now ty.now) }
{
    let mut left = Vec::new(alloc);
    left.push(ty)?;
    while let Some(next) = left.pop() {
        if !has_spelling(scope, next) {
            return Ok(false);
        }
        push_parts(next, &mut left)?;
    }
    Ok(true)
}

fn has_spelling(scope: &TypeScope, ty: &Mono) -> bool
    ensures { result ≡ spec.has_spelling scope.now ty.now }
{
    match ty {
        Mono::Var(variable) => (*variable as usize) < scope.variables.len(),
        Mono::Con(entity, _) => is_named(scope, entity),
        Mono::Fun(_, _) => true,
    }
}

fn is_named(scope: &TypeScope, entity: &Entity) -> bool
    ensures { result ≡ (is_some (spec.brackets_of entity.now) || is_some (spec.name_for entity.now scope.now.names)) }
{
    brackets_of(entity).is_some() || name_for(entity, scope.names.as_slice()).is_some()
}

/// The grade of a type: 0 for a function type, 1 for a constructor with arguments, 2 for what
/// stands as an argument without parentheses.
pub fn grade(ty: &Mono) -> u8
    ensures { (scope : TypeScope) → result ≡ (spec.written scope ty.now).grade }
{
    match ty {
        Mono::Var(_) => 2,
        Mono::Con(entity, arguments) => match brackets_of(entity) {
            Some(_) => 2,
            None => applied_grade(arguments.as_slice()),
        },
        Mono::Fun(_, _) => 0,
    }
}

fn applied_grade(arguments: &[Mono]) -> u8
    ensures { result ≡ spec.applied_grade arguments.now }
{
    match arguments {
        [] => 2,
        [_, ..] => 1,
    }
}
