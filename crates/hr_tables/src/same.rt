ghost use Rattle.std.specs.Prelude.{◌≡◌, ◌↔◌, IsTrue};
ghost use Rattle.hr_tables.specs.Bindings.{same_binder, same_entity};

use hr_base::{Binder, Entity};

/// Whether two binders are one.
pub fn is_same_binder(left: &Binder, right: &Binder) -> bool
    ensures exact { IsTrue result ↔ (left.now ≡ right.now) }
    ensures test { result ≡ same_binder left.now right.now }
{
    match (left, right) {
        (Binder::Global(left), Binder::Global(right)) => is_same_entity(left, right),
        (Binder::Local(left), Binder::Local(right)) => {
            left.module == right.module && left.item == right.item
        }
        _ => false,
    }
}

/// Whether two entities are one.
pub fn is_same_entity(left: &Entity, right: &Entity) -> bool
    ensures exact { IsTrue result ↔ (left.now ≡ right.now) }
    ensures test { result ≡ same_entity left.now right.now }
{
    left.space == right.space
        && left.text.is(right.text.as_slice())
        && left.module.is(right.module.as_slice())
}
