use hr_base::Entity;
use hr_type::Scheme;
use indexmap::IndexMap;

/// The types of the values and constructors of a project.
pub struct Typing {
    pub schemes: IndexMap<Entity, Scheme>,
}

/// By hand, so that the crates above let it go by one call.
impl Drop for Typing {
    fn drop(self) {
        let Typing { schemes } = self;
        drop(schemes);
    }
}

impl Typing {
    /// The type of a value or constructor.
    pub fn scheme(&self, entity: &Entity) -> Option<&Scheme> {
        self.schemes.get(entity)
    }
}
