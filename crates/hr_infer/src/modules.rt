ghost use Rattle.std.specs.Prelude.{◌≡◌, IfOk, Some};
ghost use Rattle.indexmap.specs.IndexMap.{get};
ghost use Rattle.hr_base.specs.declared.bind.Entity.{Entity};
ghost use Rattle.hr_type.specs.declared.mono.Scheme.{Scheme};
ghost use Rattle.hr_type.specs.Types.{IsInstance};
ghost use Rattle.hr_infer.specs.Main.{main_entity, main_type};

use crate::error::TypeError;
use crate::groups::{Outcome, type_group};
use crate::main_type::has_main;
use crate::resolved::Resolved;
use crate::typing::Typing;
use hr_base::{Binder, Entity, Spot};
use hr_fixity::Graded;
use hr_instances::Entities;
use hr_outline::module_name;
use hr_tree::Module;
use hr_tydecl::{Declared, lexeme_text, place_at};
use hr_type::Scheme;
use hr_typing_code::{Group, ModuleRules};
use hr_typing_grades::Grades;
use hr_typing_machine::{Context, Sign, Signs};
use hr_typing_walk::Signed;
use indexmap::IndexMap;
use std::alloc::{AllocError, Global};

/// What is known of a project while its modules are typed.
#[derive(Drop)]
struct Project<'a> {
    alloc: Global,
    resolved: Resolved<'a>,
    signatures: &'a [(Spot, Scheme)],
    numbers: IndexMap<Spot, usize>,
    entities: Entities,
    schemes: IndexMap<Entity, Scheme>,
}

/// A module with its number and its rules.
#[derive(Clone, Copy)]
struct Part<'a> {
    number: usize,
    module: &'a Module,
    rules: &'a ModuleRules,
    entries: &'a [Option<Binder>],
}

/// The types of all values and constructors of the modules.
pub fn infer(alloc: Global, resolved: Resolved, declared: &Declared) -> Result<Typing, TypeError>
    ensures main { IfOk result (λ typing. (scheme : Scheme) × (get ⟦<Entity as PartialEq>⟧.eq typing.schemes main_entity ≡ Some scheme) × IsInstance scheme main_type) }
{
    let mut project = Project::new(alloc, resolved, declared)?;
    for number in resolved.order {
        project.type_module(*number)?;
    }
    if !has_main(alloc, &project.schemes)? {
        return Err(TypeError::NoMain);
    }
    let Project { schemes, .. } = project;
    Ok(Typing { schemes })
}

fn scheme_copied(alloc: Global, scheme: &Scheme) -> Result<Scheme, AllocError> {
    Ok(Scheme {
        bound: scheme.bound,
        body: scheme.body.copied(alloc)?,
    })
}

impl<'a> Project<'a> {
    fn new(
        alloc: Global,
        resolved: Resolved<'a>,
        declared: &'a Declared,
    ) -> Result<Project<'a>, AllocError> {
        let mut project = Project {
            alloc,
            resolved,
            signatures: declared.signatures.as_slice(),
            numbers: IndexMap::new(alloc),
            entities: Entities::new(alloc)?,
            schemes: IndexMap::new(alloc),
        };
        for (entity, scheme) in declared.constructors.as_slice() {
            project.put(entity, scheme)?;
        }
        for (number, (spot, _)) in declared.signatures.as_slice().iter().enumerate() {
            project.numbers.insert(*spot, number)?;
        }
        Ok(project)
    }

    /// Notes the type of an entity.
    fn put(&mut self, entity: &Entity, scheme: &Scheme) -> Result<(), AllocError> {
        let scheme = scheme_copied(self.alloc, scheme)?;
        self.schemes.insert(entity.clone()?, scheme)?;
        Ok(())
    }

    fn entries(&self, module: usize) -> &'a [Option<Binder>] {
        match self.resolved.bindings.modules.as_slice().get(module) {
            Some(entries) => entries.as_slice(),
            None => &[],
        }
    }

    fn part(&self, number: usize) -> Option<Part<'a>> {
        Some(Part {
            number,
            module: self.resolved.modules.get(number)?,
            rules: self.resolved.rules.get(number)?,
            entries: self.entries(number),
        })
    }

    fn trees(&self, number: usize) -> &'a [Graded] {
        match self.resolved.graded.get(number) {
            Some(trees) => trees.as_slice(),
            None => &[],
        }
    }

    fn type_module(&mut self, number: usize) -> Result<(), TypeError> {
        let Some(part) = self.part(number) else {
            return Ok(());
        };
        let grades = Grades::new(self.alloc, part.module, self.trees(number))?;
        let signs = self.signs(part)?;
        for group in part.rules.groups.as_slice() {
            match self.type_group(part, &grades, group, &signs)? {
                Outcome::Typed(schemes) => self.add(schemes)?,
                Outcome::Ill => return Err(self.ill(part, group)),
                Outcome::TooGeneral(lexeme) => return Err(self.too_general(part, lexeme)),
            }
        }
        Ok(())
    }

    fn type_group(
        &self,
        part: Part,
        grades: &Grades,
        group: &Group,
        signs: &Signs,
    ) -> Result<Outcome, AllocError> {
        let context = Context {
            schemes: &self.schemes,
            signatures: self.signatures,
            numbers: &self.numbers,
            signs,
            grades,
            entities: &self.entities,
            entries: part.entries,
            module: part.number,
        };
        type_group(self.alloc, context, group)
    }

    /// The signatures of a module's top-level names, which have these types from the beginning.
    fn signs(&mut self, part: Part) -> Result<Signs, AllocError> {
        let mut signs = IndexMap::new(self.alloc);
        for signed in part.rules.signed.as_slice() {
            self.put_sign(part, *signed, &mut signs)?;
        }
        Ok(signs)
    }

    fn put_sign(
        &mut self,
        part: Part,
        signed: Signed,
        signs: &mut Signs,
    ) -> Result<(), AllocError> {
        let spot = Spot {
            module: part.number,
            item: signed.colons,
        };
        let Some(number) = self.numbers.get(&spot).copied() else {
            return Ok(());
        };
        let Some(Some(binder)) = part.entries.get(signed.name) else {
            return Ok(());
        };
        let sign = Sign {
            lexeme: signed.name,
            number,
        };
        signs.insert(binder.clone()?, sign)?;
        self.add_signed(binder, number)
    }

    fn add_signed(&mut self, binder: &Binder, number: usize) -> Result<(), AllocError> {
        let signatures = self.signatures;
        match (binder, signatures.get(number)) {
            (Binder::Global(entity), Some((_, scheme))) => self.put(entity, scheme),
            _ => Ok(()),
        }
    }

    fn add(&mut self, schemes: Vec<(Entity, Scheme)>) -> Result<(), AllocError> {
        for (entity, scheme) in schemes {
            self.schemes.insert(entity, scheme)?;
        }
        Ok(())
    }

    fn ill(&self, part: Part, group: &Group) -> TypeError {
        match self.ill_group(part, group) {
            Ok(error) => error,
            Err(error) => TypeError::Memory(error),
        }
    }

    /// A group is shown by its first name, one without names by the text of its first lexeme.
    fn ill_group(&self, part: Part, group: &Group) -> Result<TypeError, AllocError> {
        let lexeme = group.names.first().copied().unwrap_or(group.first);
        let name = match part.entries.get(lexeme) {
            Some(Some(Binder::Global(entity))) => entity.text.clone()?,
            _ => lexeme_text(self.alloc, part.module, lexeme)?,
        };
        Ok(TypeError::IllTyped {
            module: module_name(self.alloc, part.module)?,
            group: name,
        })
    }

    fn too_general(&self, part: Part, lexeme: usize) -> TypeError {
        match self.shown_signature(part, lexeme) {
            Ok(error) => error,
            Err(error) => TypeError::Memory(error),
        }
    }

    fn shown_signature(&self, part: Part, lexeme: usize) -> Result<TypeError, AllocError> {
        Ok(TypeError::SignatureTooGeneral {
            place: place_at(self.alloc, part.module, lexeme)?,
            name: lexeme_text(self.alloc, part.module, lexeme)?,
        })
    }
}
