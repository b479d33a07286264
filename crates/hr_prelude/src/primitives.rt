ghost use Rattle.std.specs.Prelude.{◌≡◌, map};
ghost use Rattle.hr_prelude.specs.Primitives.{primitive_of, named_in};

/// What a primitive does. Each is of `Int`, but for `Seq`, `Error`, `Ord` and `Chr`.
#[derive(Clone, Copy, Debug, PartialEq, Eq)]
pub enum Prim {
    Add,
    Subtract,
    Multiply,
    Quot,
    Rem,
    Div,
    Mod,
    Max,
    Min,
    QuotRem,
    DivMod,
    Negate,
    Abs,
    Signum,
    Succ,
    Pred,
    MinBound,
    MaxBound,
    Equal,
    NotEqual,
    Less,
    LessOrEqual,
    Greater,
    GreaterOrEqual,
    Compare,
    Show,
    Seq,
    Error,
    Ord,
    Chr,
}

static OF_PRELUDE: [(&[u8], Prim); 28] = [
    (b"+", Prim::Add),
    (b"-", Prim::Subtract),
    (b"*", Prim::Multiply),
    (b"quot", Prim::Quot),
    (b"rem", Prim::Rem),
    (b"div", Prim::Div),
    (b"mod", Prim::Mod),
    (b"max", Prim::Max),
    (b"min", Prim::Min),
    (b"quotRem", Prim::QuotRem),
    (b"divMod", Prim::DivMod),
    (b"negate", Prim::Negate),
    (b"abs", Prim::Abs),
    (b"signum", Prim::Signum),
    (b"succ", Prim::Succ),
    (b"pred", Prim::Pred),
    (b"minBound", Prim::MinBound),
    (b"maxBound", Prim::MaxBound),
    (b"==", Prim::Equal),
    (b"/=", Prim::NotEqual),
    (b"<", Prim::Less),
    (b"<=", Prim::LessOrEqual),
    (b">", Prim::Greater),
    (b">=", Prim::GreaterOrEqual),
    (b"compare", Prim::Compare),
    (b"show", Prim::Show),
    (b"seq", Prim::Seq),
    (b"error", Prim::Error),
];

static OF_CHAR: [(&[u8], Prim); 2] = [(b"ord", Prim::Ord), (b"chr", Prim::Chr)];

/// The primitive that the name stands for in the module, if it is one.
pub fn primitive(module_name: &str, name: &str) -> Option<Prim>
    ensures { result ≡ primitive_of module_name.now name.now }
{
    if module_name == "Prelude" {
        named_in(&OF_PRELUDE, name.as_bytes())
    } else if module_name == "Char" {
        named_in(&OF_CHAR, name.as_bytes())
    } else {
        None
    }
}

/// The primitive of the first row that has the name.
fn named_in(table: &[(&[u8], Prim)], name: &[u8]) -> Option<Prim>
    ensures { result ≡ named_in (map (λ row. (row.0.now, row.1)) table.now) name.now }
{
    for (spelled, primitive) in table {
        if *spelled == name {
            return Some(*primitive);
        }
    }
    None
}
