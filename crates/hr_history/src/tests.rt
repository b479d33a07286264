use crate::History;
use std::test::Fail;

#[test]
fn what_was_pushed_last_comes_back_first(rt: HostRuntime) -> Result<(), Fail> {
    let mut history = History::new(rt.alloc())?;
    history.reserve()?;
    history.push(7u8);
    history.reserve()?;
    history.push(8u8);
    assert_eq!(rt; history.len(), 2);
    assert_eq!(rt; history.undo(), Some(8));
    assert_eq!(rt; history.undo(), Some(7));
    assert_eq!(rt; history.undo(), None);
    Ok(())
}
