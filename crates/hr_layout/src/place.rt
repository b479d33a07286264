//! Positions that fit into 32 bits.
ghost use Rattle.std.specs.Prelude.{◌≡◌, IfOk};
ghost use Rattle.hr_rules.specs.Positions.{behind};

use hr_base::Pos;
use hr_rules::Reached;
use std::alloc::AllocError;

/// The position behind bytes whose first one stands at the position. Where its line or column passes
/// 2^32 - 1 the answer is want of memory: no text has room for so many characters.
pub(crate) fn place_behind(pos: Pos, bytes: &[u8]) -> Result<Pos, AllocError>
    ensures { IfOk result (λ to. to ≡ behind pos bytes.now) }
{
    let begun = Reached {
        line: pos.line.into(),
        col: pos.col.into(),
    };
    let reached = begun.behind(bytes);
    Ok(Pos {
        line: narrowed(reached.line)?,
        col: narrowed(reached.col)?,
    })
}

fn narrowed(number: u64) -> Result<u32, AllocError>
    ensures { IfOk result (λ narrow. narrow ≡ number) }
{
    u32::try_from(number).map_err(|_| AllocError)
}
