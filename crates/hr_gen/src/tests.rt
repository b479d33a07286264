use crate::project;
use std::test::Fail;

#[test]
fn a_project_has_its_modules_and_two_commands_for_each(rt: HostRuntime) -> Result<(), Fail> {
    let made = project(rt.alloc(), 1, 2, 20)?;
    assert_eq!(rt; made.commands.len(), 5);
    let mut lengths = Vec::new(rt.alloc());
    for text in made.texts.as_slice() {
        lengths.push(text.len())?;
    }
    assert_eq!(rt; lengths.as_slice(), [1332, 1339, 52].as_slice());
    Ok(())
}
