use crate::Bindings;
use hr_base::{Binder, Entity, Seq, Space, Spot, Text};
use std::alloc::{AllocError, Global};
use std::test::Fail;

fn global(alloc: Global, text: &[u8]) -> Result<Option<Binder>, AllocError> {
    let entity = Entity {
        module: Text::from_slice(alloc, b"M")?,
        space: Space::Value,
        text: Text::from_slice(alloc, text)?,
    };
    Ok(Some(Binder::Global(entity)))
}

#[test]
fn spots_of_a_binder_come_in_order(rt: HostRuntime) -> Result<(), Fail> {
    let alloc = rt.alloc();
    let mut list = Vec::new(alloc);
    for _ in 0..2 {
        let entries = vec![in alloc;
            global(alloc, b"f")?,
            None,
            global(alloc, b"g")?,
            global(alloc, b"f")?,
        ]?;
        list.push(Seq { list: entries })?;
    }
    let bindings = Bindings {
        modules: Seq { list },
    };
    let Some(f) = global(alloc, b"f")? else {
        return Err(Fail::new("no binder"));
    };
    let spots = bindings.occurrences(alloc, &f)?;
    let mut line = String::new(alloc);
    for spot in spots.as_slice() {
        let text = format!(in alloc; "{}:{} ", spot.module, spot.item)?;
        line.push_str(text.as_str())?;
    }
    assert_eq!(rt; line.as_str(), "0:0 0:3 1:0 1:3 ");
    Ok(())
}
