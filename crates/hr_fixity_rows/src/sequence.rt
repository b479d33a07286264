use hr_base::{Place, Pos, Seq, Text};
use hr_fixity::{Direction, Fixity, Infix, Part};
use std::alloc::{AllocError, Global};

/// A sequence in short: `x` is an operand, `-` a prefix minus of an expression and `~` one of a
/// pattern; a digit is an operator of that level, with its direction behind it as `l`, `r` or `n`.
/// The part of number n stands in column n + 1.
pub fn of(alloc: Global, text: &[u8], root: Option<u32>) -> Result<Infix, AllocError> {
    let mut list = Vec::new(alloc);
    let mut level = 0;
    let mut col = 1u32;
    for letter in text {
        let place = Place {
            module: Text::from_slice(alloc, b"M")?,
            pos: Pos { line: 1, col },
        };
        match *letter {
            b'x' => list.push(Part::Operand)?,
            b'-' => list.push(Part::Minus { place })?,
            b'~' => list.push(Part::PatternMinus { place })?,
            b'l' => list.push(operator(place, level, Direction::Left))?,
            b'r' => list.push(operator(place, level, Direction::Right))?,
            b'n' => list.push(operator(place, level, Direction::Neither))?,
            digit => {
                level = digit.saturating_sub(b'0');
                continue;
            }
        }
        col = col.saturating_add(1);
    }
    Ok(Infix {
        parts: Seq { list },
        root,
    })
}

fn operator(place: Place, level: u8, direction: Direction) -> Part {
    Part::Operator {
        place,
        fixity: Fixity { level, direction },
    }
}
