ghost use Rattle.std.specs.Prelude.{◌≡◌, ◌↔◌, ◌<◌, ◌++◌, ◌∷◌, [], ℕ, IfOk, IsTrue};
ghost use Rattle.std.specs.Option.{IfSome};
ghost use Rattle.hr_type.specs.Types.{same_entity};
ghost use Rattle.hr_type.specs.Sizes.{steps, steps_beside};
ghost use Rattle.hr_type.specs.declared.mono.Mono.{Mono};
ghost use Rattle.hr_type.specs.declared.mono.Mono.TheVariants.{Con, Fun, Var};

use hr_base::Entity;
use hr_items::{Boxed, Items};
use std::alloc::AllocError;
use std::fmt;

/// A type without quantifiers: a variable by its number, a constructor with its arguments, or a
/// function type. It is as deep as memory holds, so nothing here calls itself along it.
pub enum Mono {
    Var(u32),
    Con(Entity, Items<Mono>),
    Fun(Boxed<Mono>, Boxed<Mono>),
}

/// A type whose variables from 0 up to `bound` stand for any type.
#[derive(Debug, Drop)]
pub struct Scheme {
    pub bound: u32,
    pub body: Mono,
}

impl Drop for Mono {
    /// Frees a type by a loop and without memory: what is still to be freed hangs in the places that
    /// are free already. It takes at most three steps for each variable, constructor and arrow.
    fn drop(self) {
        let mut ty = self;
        let mut rest = Mono::Var(0);
        while let Some((next, later)) = Mono::taken_apart(ty, rest) {
            ty = next;
            rest = later;
        }
    }
}

impl Mono {
    /// Takes the outermost layer of `ty` apart, or hangs `rest` into it: what to free next, and what
    /// is left then. A variable as `rest` is nothing. A place that `rest` hangs in is come to once
    /// the others of its layer are free, so a layer is come to once for each of its parts.
    fn taken_apart(ty: Mono, rest: Mono) -> Option<(Mono, Mono)>
        ensures { IfSome result (λ r. steps r.0 r.1 < steps ty rest) }
    {
        match ty {
            Mono::Var(_) => Mono::turned(rest),
            Mono::Con(entity, arguments) => match rest {
                Mono::Var(_) => Mono::last_argument(entity, arguments),
                Mono::Con(other, others) => {
                    Mono::hung_in_arguments(entity, arguments, Mono::Con(other, others))
                }
                Mono::Fun(from, to) => {
                    Mono::hung_in_arguments(entity, arguments, Mono::Fun(from, to))
                }
            },
            Mono::Fun(from, to) => match rest {
                Mono::Var(_) => Some((to.into_inner(), from.into_inner())),
                Mono::Con(entity, arguments) => {
                    Some(Mono::hung_in_function(from, to, Mono::Con(entity, arguments)))
                }
                Mono::Fun(other, others) => {
                    Some(Mono::hung_in_function(from, to, Mono::Fun(other, others)))
                }
            },
        }
    }

    fn turned(rest: Mono) -> Option<(Mono, Mono)>
        ensures { IfSome result (λ r. (n : ℕ) → steps r.0 r.1 < steps (Var n) rest) }
    {
        match rest {
            Mono::Var(_) => None,
            Mono::Con(entity, arguments) => Some((Mono::Con(entity, arguments), Mono::Var(0))),
            Mono::Fun(from, to) => Some((Mono::Fun(from, to), Mono::Var(0))),
        }
    }

    fn last_argument(entity: Entity, arguments: Items<Mono>) -> Option<(Mono, Mono)>
        ensures { IfSome result (λ r. (n : ℕ) → steps r.0 r.1 < steps (Con entity arguments) (Var n)) }
    {
        let mut arguments = arguments;
        match arguments.pop() {
            None => {
                arguments.close();
                None
            }
            Some(last) => Some((last, Mono::with_others(entity, arguments))),
        }
    }

    /// A constructor with the arguments that are left, or nothing where none is.
    fn with_others(entity: Entity, arguments: Items<Mono>) -> Mono
        ensures { (last : Mono) (n : ℕ) → steps last result < steps (Con entity (arguments ++ last ∷ [])) (Var n) }
    {
        if arguments.len() == 0 {
            arguments.close();
            return Mono::Var(0);
        }
        Mono::Con(entity, arguments)
    }

    fn hung_in_arguments(entity: Entity, arguments: Items<Mono>, rest: Mono) -> Option<(Mono, Mono)>
        ensures { IfSome result (λ r. steps r.0 r.1 < steps_beside (Con entity arguments) rest) }
    {
        let mut arguments = arguments;
        if arguments.len() == 0 {
            arguments.close();
            return Some((rest, Mono::Var(0)));
        }
        let first = arguments.exchange(0, rest);
        Some((first, Mono::Con(entity, arguments)))
    }

    fn hung_in_function(from: Boxed<Mono>, to: Boxed<Mono>, rest: Mono) -> (Mono, Mono)
        ensures { steps result.0 result.1 < steps_beside (Fun from to) rest }
    {
        let mut from = from;
        let first = from.exchange(rest);
        (first, Mono::Fun(from, to))
    }
}

impl fmt::Debug for Mono {
    /// The outermost layer alone.
    fn fmt<W: fmt::Write>(&self, f: &mut fmt::Formatter<W>) -> fmt::Result {
        match self {
            Mono::Var(variable) => write!(f, "Var({variable})"),
            Mono::Con(_, arguments) => write!(f, "Con(_, {} arguments)", arguments.len()),
            Mono::Fun(_, _) => f.write_str("Fun(_, _)"),
        }
    }
}

/// An entity equal to this one.
pub fn entity_copied(entity: &Entity) -> Result<Entity, AllocError>
    ensures { IfOk result (λ copy. copy ≡ entity.now) }
{
    entity.clone()
}

/// Whether two entities are one.
pub fn is_same_entity(left: &Entity, right: &Entity) -> bool
    ensures exact { IsTrue result ↔ (left.now ≡ right.now) }
    ensures test { result ≡ same_entity left.now right.now }
{
    left.space == right.space
        && left.text.is(right.text.as_slice())
        && left.module.is(right.module.as_slice())
}
