//! The types of a group's names, once its rules have been run.
use crate::machine::Machine;
use crate::pushing::push;
use hr_base::{Binder, Entity};
use hr_instances::{Which, copied};
use hr_type::{Mono, Scheme};
use std::alloc::AllocError;

impl Machine<'_> {
    /// The types of the top-level names without signatures.
    pub fn schemes(&self, names: &[usize]) -> Result<Vec<(Entity, Scheme)>, AllocError> {
        let mut schemes = Vec::new(self.alloc);
        for name in names {
            if let Some(scheme) = self.scheme(*name)? {
                push(&mut schemes, scheme)?;
            }
        }
        Ok(schemes)
    }

    fn scheme(&self, name: usize) -> Result<Option<(Entity, Scheme)>, AllocError> {
        let Some(binder) = self.context.binder(name) else {
            return Ok(None);
        };
        if self.sign(binder).is_some() {
            return Ok(None);
        }
        match (binder, self.own.get(binder).copied()) {
            (Binder::Global(entity), Some(variable)) => {
                let copy = copied(
                    self.alloc,
                    &self.equations,
                    Which::All,
                    &Mono::Var(variable),
                    0,
                )?;
                let scheme = Scheme {
                    bound: copy.count,
                    body: copy.ty,
                };
                Ok(Some((entity.clone()?, scheme)))
            }
            _ => Ok(None),
        }
    }
}
