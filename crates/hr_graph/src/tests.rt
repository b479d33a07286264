use crate::{ImportEdge, components, order};
use hr_base::{Place, Pos, Text};
use std::test::Fail;

#[test]
fn a_module_comes_after_the_one_that_it_imports(rt: HostRuntime) -> Result<(), Fail> {
    let alloc = rt.alloc();
    let names = vec![in alloc;
        Text::from_slice(alloc, b"A")?,
        Text::from_slice(alloc, b"B")?,
    ]?;
    let imports = vec![in alloc;
        ImportEdge {
            from: 0,
            to: Text::from_slice(alloc, b"B")?,
            place: Place {
                module: Text::from_slice(alloc, b"A")?,
                pos: Pos { line: 2, col: 8 },
            },
        },
    ]?;
    match order(alloc, &names, &imports) {
        Ok(list) => assert_eq!(rt; list.as_slice(), [1, 0].as_slice()),
        Err(error) => panic!(rt; "{error:?}"),
    }
    Ok(())
}

#[test]
fn two_nodes_on_a_cycle_are_one_component(rt: HostRuntime) -> Result<(), Fail> {
    let groups = components(rt.alloc(), 3, &[(0, 1), (1, 0), (2, 0)])?;
    assert_eq!(rt; groups.len(), 2);
    let wanted: [&[usize]; 2] = [&[0, 1], &[2]];
    for (group, nodes) in groups.as_slice().iter().zip(wanted.iter()) {
        assert_eq!(rt; group.as_slice(), *nodes);
    }
    Ok(())
}
