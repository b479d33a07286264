use crate::{Direction, Fixity, FixityError, Graded, Infix, Part, resolve};
use hr_base::{Place, Pos, Seq, Text};
use std::alloc::{AllocError, Global};
use std::test::Fail;

fn place(alloc: Global, col: u32) -> Result<Place, AllocError> {
    Ok(Place {
        module: Text::from_slice(alloc, b"M")?,
        pos: Pos { line: 1, col },
    })
}

/// `x op x - x`, where the operator doesn't group.
fn sequence_of(alloc: Global, level: u8) -> Result<Infix, AllocError> {
    let fixity = Fixity {
        level,
        direction: Direction::Neither,
    };
    let operator = Part::Operator {
        place: place(alloc, 2)?,
        fixity,
    };
    let minus = Part::Minus {
        place: place(alloc, 3)?,
    };
    Ok(Infix {
        parts: Seq {
            list: vec![in alloc; Part::Operand, operator, minus, Part::Operand]?,
        },
        root: Some(1),
    })
}

#[test]
fn a_minus_stands_behind_a_looser_operator_alone(rt: HostRuntime) -> Result<(), Fail> {
    let seq = sequence_of(rt.alloc(), 4)?;
    assert!(rt; seq.is_sequence());
    match resolve(rt.alloc(), &seq) {
        Ok(Graded::Binary { operator, .. }) => assert_eq!(rt; operator, 1),
        _ => panic!(rt; "the operator of level 4 is no root"),
    }
    let seq = sequence_of(rt.alloc(), 7)?;
    assert!(rt; seq.is_sequence());
    match resolve(rt.alloc(), &seq) {
        Err(FixityError::FixityConflict { left, right }) => {
            assert_eq!(rt; (left.pos.col, right.pos.col), (2, 3));
        }
        _ => panic!(rt; "the operator of level 7 has a place"),
    }
    Ok(())
}
