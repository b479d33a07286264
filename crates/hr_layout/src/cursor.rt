//! A cursor over the items of a text.
ghost use Rattle.std.specs.Prelude.{◌≡◌, None, if◌then◌else◌, IfOk, is_ok};
ghost use Rattle.std.specs.Option.{option_map};
ghost use Rattle.hr_rules.specs.declared.block.BlockKind.{BlockKind};
ghost use Rattle.hr_rules.specs.Blocks.{ends_block, ends_innermost, is_at_part};
ghost use Rattle.hr_layout.specs.Standing.{beginning, begun, left, lexeme_of, next_goes_on, next_of, opened, opened_as, opening, place_of, marked, next_at_margin, next_not_left, starts_innermost, taken};

use crate::blocks::Blocks;
use crate::margin::{at_margin, ends_before, goes_on, left_of, opens};
use crate::place::place_behind;
use hr_base::{Ending, Item, Lexeme, Pos, Seq};
use hr_rules::{BlockKind, OpenBlock, Opened, Placed, Role, has_newline, role_of};
use std::alloc::{AllocError, Global};
use std::collections::VecDeque;
use std::marker::Model;

/// A cursor over the items of a text, with the layout blocks that are open where it stands. Only
/// `new` and `open` take memory.
///
/// Contracts see it as a `Standing`: the items that are left, each with its position and whether it
/// counts as first on its line; the position behind the last lexeme; the blocks that are open; and
/// whether the lexeme that was taken last is `of`.
#[derive(Drop)]
pub struct Cursor {
    rest: VecDeque<Placed>,
    end: Pos,
    blocks: Blocks,
    behind_of: bool,
}

impl Model for Cursor {
    ghost use Rattle.hr_layout.specs.Standing.{Standing};

    ghost Value = { Standing };

    ghost view = { λ c. record { rest = c.rest.items; end = c.end; blocks = c.blocks; behind_of = c.behind_of } };
}

impl Cursor {
    /// A cursor at the beginning of a text, whose items these are. All positions are found here, by
    /// one walk over the text. The only error is want of memory, which is also the answer where a line
    /// or column passes 2^32 - 1; no text of fewer than 2^29 bytes has one.
    pub fn new(alloc: Global, list: Seq<Item>) -> Result<Cursor, AllocError>
        ensures { IfOk result (λ cursor. cursor ≡ beginning list) }
    {
        let mut placed = Vec::with_capacity(alloc, list.len())?;
        let mut end = Pos { line: 1, col: 1 };
        let mut is_first = true;
        for item in list.list {
            let pos = place_behind(end, item.trivia.as_slice())?;
            let first = is_first || has_newline(item.trivia.as_slice());
            end = place_behind(pos, item.lexeme.text.as_slice())?;
            is_first = false;
            placed.push(Placed { item, pos, first })?;
        }
        Ok(Cursor {
            rest: VecDeque::from_vec(placed),
            end,
            blocks: Blocks::new(alloc),
            behind_of: false,
        })
    }

    /// The next lexeme; None exactly at the end of the items.
    pub fn peek(&self) -> Option<&Lexeme>
        ensures { option_map (λ lexeme. lexeme.now) result ≡ lexeme_of self.now.rest }
    {
        match self.rest.front() {
            None => None,
            Some(next) => Some(&next.item.lexeme),
        }
    }

    /// Takes the next item; None exactly at the end of the items. A `}` leaves the innermost
    /// explicit brace if no implicit block is open inside it.
    pub fn take(&mut self) -> Option<Item>
        ensures item { result ≡ next_of self.old.rest }
        ensures goes_on { self.new ≡ taken self.old }
    {
        match self.rest.pop_front() {
            None => None,
            Some(next) => {
                let role = role_of(&next.item.lexeme);
                self.blocks.take(role);
                self.behind_of = matches!(role, Role::Of);
                Some(next.item)
            }
        }
    }

    /// The position of the next lexeme; at the end the one directly behind the last lexeme, or 1:1
    /// where there is none.
    pub fn pos(&self) -> Pos
        ensures { result ≡ place_of self.now.rest self.now.end }
    {
        match self.rest.front() {
            None => self.end,
            Some(next) => next.pos,
        }
    }

    /// Opens a block behind `let`, `where` or `of`. Where it is explicit the brace is open, and the
    /// caller takes the `{`; where it is empty no block is open, and the next lexeme counts as first on
    /// its line. Its parts are alternatives behind `of`, and else declarations. The only error is want
    /// of memory, and it leaves the cursor as it was.
    pub fn open(&mut self) -> Result<Opened, AllocError>
        ensures how { IfOk result (λ how. how ≡ opening self.old) }
        ensures opens { self.new ≡ (if is_ok result then opened self.old else self.old) }
    {
        let kind = if self.behind_of {
            BlockKind::Alternatives
        } else {
            BlockKind::Declarations
        };
        self.open_as(kind)
    }

    /// Opens the body of a module, behind the `where` of its header or where its text begins, as `open`
    /// does other blocks.
    pub fn open_body(&mut self) -> Result<Opened, AllocError>
        ensures how { IfOk result (λ how. how ≡ opening self.old) }
        ensures opens { self.new ≡ (if is_ok result then opened_as BlockKind.Body self.old else self.old) }
    {
        self.open_as(BlockKind::Body)
    }

    /// Opens a block of the kind.
    fn open_as(&mut self, kind: BlockKind) -> Result<Opened, AllocError>
        ensures how { IfOk result (λ how. how ≡ opening self.old) }
        ensures opens { self.new ≡ (if is_ok result then opened_as kind self.old else self.old) }
    {
        let opening = self.opening();
        match opening {
            Opened::Implicit { col } => self.blocks.push(OpenBlock::Implicit { col, kind })?,
            Opened::Explicit => self.blocks.push(OpenBlock::Explicit)?,
            Opened::Empty => self.mark(true),
        }
        Ok(opening)
    }

    /// Whether a part of an implicit block begins here by its column: true exactly where the
    /// innermost block is implicit, and the next lexeme is first on its line at its column.
    pub fn at_item(&self) -> bool
        ensures { result ≡ is_at_part self.now.blocks self.now.rest }
    {
        match self.blocks.innermost() {
            Some(OpenBlock::Implicit { col, .. }) => self.is_at_margin(col),
            Some(OpenBlock::Explicit) => false,
            None => false,
        }
    }

    /// Leaves the innermost block and answers true, exactly where that one is implicit and ends
    /// here, if its last part is complete and ends so. An explicit brace suspends the blocks round
    /// it, so inside one, and where no block is open, the answer is false.
    pub fn close(&mut self, ending: Ending) -> bool
        ensures ends { result ≡ ends_innermost self.old.blocks ending self.old.rest }
        ensures leaves { self.new ≡ (if result then left self.old else self.old) }
    {
        let ends = self.ends(ending);
        if ends {
            self.leave();
        }
        ends
    }

    /// Whether the innermost block is implicit and ends here, if its last part is complete and ends
    /// so.
    pub fn ends(&self, ending: Ending) -> bool
        ensures { result ≡ ends_innermost self.now.blocks ending self.now.rest }
    {
        match self.blocks.innermost() {
            Some(OpenBlock::Implicit { col, kind }) => self.ends_block(col, kind, ending),
            Some(OpenBlock::Explicit) => false,
            None => false,
        }
    }

    /// Leaves the innermost block, if there is one.
    pub fn leave(&mut self)
        ensures { self.new ≡ left self.old }
    {
        self.blocks.leave();
    }

    /// A part begins here: its first lexeme goes on in the block, wherever it stands.
    pub fn begin(&mut self)
        ensures { self.new ≡ begun self.old }
    {
        self.mark(false);
    }

    /// Whether a part may start here behind one that ends so: at the block's begin and behind a
    /// `;`, where nothing ends, wherever the block goes on, and else at its column alone. False
    /// where the innermost block isn't implicit.
    pub fn starts_part(&self, ending: Ending) -> bool
        ensures { result ≡ starts_innermost self.now.blocks ending self.now.rest }
    {
        match self.blocks.innermost() {
            Some(OpenBlock::Implicit { col, .. }) => match ending {
                Ending::Nothing => self.is_not_left_of(col),
                _ => self.is_at_margin(col),
            },
            Some(OpenBlock::Explicit) => false,
            None => false,
        }
    }

    /// Whether there is a next lexeme, and it goes on in the innermost block: it is right of an
    /// implicit block's column, or not first on its line.
    pub fn goes_on(&self) -> bool
        ensures { result ≡ next_goes_on self.now.blocks self.now.rest }
    {
        match self.rest.front() {
            None => false,
            Some(next) => goes_on(self.blocks.enclosing(), next),
        }
    }

    /// The next lexeme, if it goes on in the innermost block.
    pub fn ahead(&self) -> Option<&Lexeme>
        ensures { option_map (λ lexeme. lexeme.now) result ≡ (if next_goes_on self.now.blocks self.now.rest then lexeme_of self.now.rest else None) }
    {
        if self.goes_on() { self.peek() } else { None }
    }

    /// How a block opens here.
    fn opening(&self) -> Opened
        ensures { result ≡ opening self.now }
    {
        match self.rest.front() {
            None => Opened::Empty,
            Some(next) => opens(self.blocks.enclosing(), next),
        }
    }

    /// Whether an implicit block of the kind at this column ends here.
    fn ends_block(&self, col: u32, kind: BlockKind, ending: Ending) -> bool
        ensures { result ≡ ends_block col kind ending self.now.rest }
    {
        match self.rest.front() {
            None => true,
            Some(next) => ends_before(col, kind, ending, next),
        }
    }

    /// Whether the next lexeme is there, and first on its line at the column.
    fn is_at_margin(&self, col: u32) -> bool
        ensures { result ≡ next_at_margin col self.now.rest }
    {
        match self.rest.front() {
            None => false,
            Some(next) => at_margin(col, next),
        }
    }

    /// Whether the next lexeme is there, and not first on its line left of the column.
    fn is_not_left_of(&self, col: u32) -> bool
        ensures { result ≡ next_not_left col self.now.rest }
    {
        match self.rest.front() {
            None => false,
            Some(next) => !left_of(col, next),
        }
    }

    /// The next lexeme counts as first on its line, or as not first.
    fn mark(&mut self, is_first: bool)
        ensures { self.new ≡ marked is_first self.old }
    {
        if let Some(next) = self.rest.front_mut() {
            next.first = is_first;
        }
    }
}
