//! The parts that hold expressions: qualifiers, right sides, declarations and alternatives, with their heights.
ghost use Rattle.std.specs.Prelude.{◌≡◌, None};

use hr_base::{Ending, Item};
use hr_parse_declaration::{Stated, state};
use hr_parse_lexeme::{Held, Stop, nest};
use hr_parse_parts::{Blocked, GuardedBy, Guards, Side, Whole};
use hr_parse_pattern::Part;
use hr_tree::{Alt, Block, Body, Decl, Exp, Guarded, LeftSide, Pat, Qualifier, Where};
use sqlite_items::Boxed;
use std::alloc::{AllocError, Global};

pub fn test(alloc: Global, exp: Part<Exp>) -> Result<Part<Qualifier>, AllocError> {
    let Part { tree, height } = exp;
    Ok(Part {
        tree: Boxed::new(alloc, Qualifier::Test(tree))?,
        height,
    })
}

pub fn generator(
    alloc: Global,
    pattern: Part<Pat>,
    arrow: Item,
    exp: Part<Exp>,
) -> Result<Part<Qualifier>, AllocError> {
    let Part { tree, height } = pattern;
    let Part {
        tree: exp,
        height: levels,
    } = exp;
    let qualifier = Qualifier::Generator(tree.into_inner(), arrow, exp);
    Ok(Part {
        tree: Boxed::new(alloc, qualifier)?,
        height: height.max(levels),
    })
}

pub fn locals(
    alloc: Global,
    word: Item,
    block: Blocked<Decl>,
) -> Result<Part<Qualifier>, AllocError> {
    let Blocked {
        layout,
        pieces,
        height,
    } = block;
    let block = Block { layout, pieces };
    Ok(Part {
        tree: Boxed::new(alloc, Qualifier::Locals(word, block))?,
        height,
    })
}

pub fn plain(mark: Item, exp: Part<Exp>) -> Whole {
    let Part { tree, height } = exp;
    Whole {
        body: Held::new(Body::Plain(mark, tree.into_inner())),
        height,
    }
}

pub fn one_guard_more(
    guards: Guards,
    guarded: GuardedBy,
    body: Part<Exp>,
) -> Result<Guards, AllocError> {
    let mut guards = guards;
    let GuardedBy { bar, guard, mark } = guarded;
    let Part {
        tree: guard,
        height,
    } = guard;
    let Part {
        tree: body,
        height: levels,
    } = body;
    guards.height = height.max(levels).max(guards.height);
    guards.list.push(Guarded {
        bar,
        guard: guard.into_inner(),
        mark,
        body: body.into_inner(),
    })?;
    Ok(guards)
}

pub fn guarded(guards: Guards) -> Whole {
    let Guards { list, height, .. } = guards;
    Whole {
        body: Held::new(Body::Guarded(list)),
        height,
    }
}

pub fn side(whole: Whole, ending: Ending) -> Side
    ensures { result ≡ record { body = whole.body; locals = None; height = whole.height; ending = ending } }
{
    let height = whole.height;
    let Whole { body, .. } = whole;
    Side {
        body,
        locals: None,
        height,
        ending,
    }
}

pub fn side_where(whole: Whole, word: Item, block: Blocked<Decl>) -> Side {
    let Whole { body, height } = whole;
    let Blocked {
        layout,
        pieces,
        height: levels,
    } = block;
    let block = Block { layout, pieces };
    Side {
        body,
        locals: Some(Where { word, block }),
        height: height.max(levels),
        ending: Ending::WhereBlock,
    }
}

pub fn binding(alloc: Global, pattern: Part<Pat>, side: Side) -> Result<Stated<Decl>, Stop> {
    let Part { tree, height } = pattern;
    let Side {
        body,
        locals,
        height: levels,
        ending,
    } = side;
    let decl = Decl::Binding(tree.into_inner(), body.take(), locals);
    let levels = levels.max(height);
    let stated = state(alloc, decl, levels, ending)?;
    nest(1, levels)?;
    Ok(stated)
}

pub fn equation(
    alloc: Global,
    left: LeftSide,
    height: u32,
    side: Side,
) -> Result<Stated<Decl>, Stop> {
    let Side {
        body,
        locals,
        height: levels,
        ending,
    } = side;
    let decl = Decl::Equation(left, body.take(), locals);
    let levels = levels.max(height);
    let stated = state(alloc, decl, levels, ending)?;
    nest(1, levels)?;
    Ok(stated)
}

pub fn alternative(alloc: Global, pattern: Part<Pat>, side: Side) -> Result<Stated<Alt>, Stop> {
    let Part { tree, height } = pattern;
    let Side {
        body,
        locals,
        height: levels,
        ending,
    } = side;
    let alt = Alt {
        pattern: tree.into_inner(),
        body: body.take(),
        locals,
    };
    let tree = Boxed::new(alloc, alt)?;
    let levels = levels.max(height);
    nest(1, levels)?;
    Ok(Stated {
        tree,
        height: levels + 1,
        ending,
    })
}
