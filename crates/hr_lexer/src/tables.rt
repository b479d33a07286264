//! Words, operators and names of controls that a text may spell.
ghost use Rattle.std.specs.Prelude.{◌≡◌, map};
ghost use Rattle.hr_rules.specs.Names.{is_one_of, is_reserved_word, is_spelled};
ghost use Rattle.hr_rules.specs.Operators.{is_reserved_operator};
ghost use Rattle.hr_rules.specs.Quotes.{ascii_names, named_len};
ghost use Rattle.hr_rules.specs.Runs.{begins_word};

static RESERVED_WORDS: [&[u8]; 22] = [
    b"case",
    b"class",
    b"data",
    b"default",
    b"deriving",
    b"do",
    b"else",
    b"if",
    b"import",
    b"in",
    b"infix",
    b"infixl",
    b"infixr",
    b"instance",
    b"let",
    b"module",
    b"newtype",
    b"of",
    b"then",
    b"type",
    b"where",
    b"_",
];

static RESERVED_OPERATORS: [&[u8]; 11] = [
    b"..", b":", b"::", b"=", b"\\", b"|", b"<-", b"->", b"@", b"~", b"=>",
];

/// The names of ASCII's controls, of which the longer stand before the shorter.
static CONTROL_NAMES: [&[u8]; 34] = [
    b"NUL", b"SOH", b"STX", b"ETX", b"EOT", b"ENQ", b"ACK", b"BEL", b"DLE", b"DC1", b"DC2", b"DC3",
    b"DC4", b"NAK", b"SYN", b"ETB", b"CAN", b"SUB", b"ESC", b"DEL", b"BS", b"HT", b"LF", b"VT",
    b"FF", b"CR", b"SO", b"SI", b"EM", b"FS", b"GS", b"RS", b"US", b"SP",
];

/// Whether the word is reserved.
#[tactic(auto, unfolding(hr_rules::specs::Names::is_reserved_word))]
pub fn is_reserved_word(word: &[char]) -> bool
    ensures { result ≡ is_reserved_word word.now }
{
    is_one_of(&RESERVED_WORDS, word)
}

/// Whether the operator is reserved.
#[tactic(auto, unfolding(hr_rules::specs::Operators::is_reserved_operator))]
pub fn is_reserved_operator(operator: &[char]) -> bool
    ensures { result ≡ is_reserved_operator operator.now }
{
    is_one_of(&RESERVED_OPERATORS, operator)
}

/// The length of the name of a control that the text begins with.
pub fn control_name_len(text: &[char]) -> Option<usize>
    ensures { result ≡ named_len ascii_names text.now }
{
    named_len(&CONTROL_NAMES, text)
}

/// Whether the text is one of the words.
fn is_one_of(table: &[&[u8]], text: &[char]) -> bool
    ensures { result ≡ is_one_of (map (λ word. word.now) table.now) text.now }
{
    for word in table {
        if is_spelled(word, text) {
            return true;
        }
    }
    false
}

/// The length of the first of the names that the text begins with.
fn named_len(table: &[&[u8]], text: &[char]) -> Option<usize>
    ensures { result ≡ named_len (map (λ word. word.now) table.now) text.now }
{
    for name in table {
        if begins_word(name, text) {
            return Some(name.len());
        }
    }
    None
}

/// Whether the text is the word.
fn is_spelled(word: &[u8], text: &[char]) -> bool
    ensures { result ≡ is_spelled word.now text.now }
{
    text.len() == word.len() && begins_word(word, text)
}

/// Whether the text begins with the word.
fn begins_word(word: &[u8], text: &[char]) -> bool
    ensures { result ≡ begins_word word.now text.now }
{
    let mut left = text;
    for byte in word {
        match left {
            [] => return false,
            [c, rest @ ..] => {
                if u32::from(*c) != u32::from(*byte) {
                    return false;
                }
                left = rest;
            }
        }
    }
    true
}
