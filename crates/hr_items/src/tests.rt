use crate::{Boxed, Items};
use std::test::Fail;

#[test]
fn items_are_exchanged(rt: HostRuntime) -> Result<(), Fail> {
    let mut items = Items::new(rt.alloc());
    items.push(1)?;
    items.push(2)?;
    assert!(rt; items.len() == 2);
    assert_eq!(rt; items.exchange(0, 3), 1);
    assert_eq!(rt; items.pop(), Some(2));
    assert_eq!(rt; items.as_slice(), [3].as_slice());
    let mut boxed = Boxed::new(rt.alloc(), 4)?;
    assert_eq!(rt; boxed.exchange(5), 4);
    assert_eq!(rt; *boxed.get(), 5);
    assert_eq!(rt; boxed.into_inner(), 5);
    Ok(())
}
