//! The kinds of character.
ghost use Rattle.std.specs.Prelude.{◌≡◌, ◌<◌};
ghost use Rattle.ucd_category.specs.GeneralCategory.{general_category};
ghost use Rattle.hr_rules.specs.Letters.{ascii_kind, continues_name, is_blank, is_in_name, is_newline, is_symbol, kind_of, wide_kind};

use unicode::properties::GeneralCategory;

/// The kinds of character of the Haskell 98 Report, section 2.2. Past ASCII the general category
/// of Unicode decides.
#[derive(Clone, Copy, Debug, PartialEq, Eq)]
pub enum Kind {
    /// A small letter, or `_`.
    Small,
    /// A large letter.
    Large,
    /// An ASCII digit.
    Digit,
    /// A digit beyond ASCII, which stands in names alone.
    WideDigit,
    /// A character of operators, `:` among them.
    Symbol,
    /// A bracket, comma, semicolon or backquote.
    Special,
    /// A blank that ends no line.
    Blank,
    /// A linefeed, return or form feed.
    Newline,
    /// `'`.
    Quote,
    /// `"`.
    DoubleQuote,
    /// A character that stands in comments and literals alone.
    Other,
}

/// The kinds of the ASCII characters, in the order of their codes.
static ASCII_KINDS: [Kind; 128] = [
    Kind::Other,
    Kind::Other,
    Kind::Other,
    Kind::Other,
    Kind::Other,
    Kind::Other,
    Kind::Other,
    Kind::Other,
    Kind::Other,
    Kind::Blank,
    Kind::Newline,
    Kind::Blank,
    Kind::Newline,
    Kind::Newline,
    Kind::Other,
    Kind::Other,
    Kind::Other,
    Kind::Other,
    Kind::Other,
    Kind::Other,
    Kind::Other,
    Kind::Other,
    Kind::Other,
    Kind::Other,
    Kind::Other,
    Kind::Other,
    Kind::Other,
    Kind::Other,
    Kind::Other,
    Kind::Other,
    Kind::Other,
    Kind::Other,
    Kind::Blank,
    Kind::Symbol,
    Kind::DoubleQuote,
    Kind::Symbol,
    Kind::Symbol,
    Kind::Symbol,
    Kind::Symbol,
    Kind::Quote,
    Kind::Special,
    Kind::Special,
    Kind::Symbol,
    Kind::Symbol,
    Kind::Special,
    Kind::Symbol,
    Kind::Symbol,
    Kind::Symbol,
    Kind::Digit,
    Kind::Digit,
    Kind::Digit,
    Kind::Digit,
    Kind::Digit,
    Kind::Digit,
    Kind::Digit,
    Kind::Digit,
    Kind::Digit,
    Kind::Digit,
    Kind::Symbol,
    Kind::Special,
    Kind::Symbol,
    Kind::Symbol,
    Kind::Symbol,
    Kind::Symbol,
    Kind::Symbol,
    Kind::Large,
    Kind::Large,
    Kind::Large,
    Kind::Large,
    Kind::Large,
    Kind::Large,
    Kind::Large,
    Kind::Large,
    Kind::Large,
    Kind::Large,
    Kind::Large,
    Kind::Large,
    Kind::Large,
    Kind::Large,
    Kind::Large,
    Kind::Large,
    Kind::Large,
    Kind::Large,
    Kind::Large,
    Kind::Large,
    Kind::Large,
    Kind::Large,
    Kind::Large,
    Kind::Large,
    Kind::Large,
    Kind::Large,
    Kind::Special,
    Kind::Symbol,
    Kind::Special,
    Kind::Symbol,
    Kind::Small,
    Kind::Special,
    Kind::Small,
    Kind::Small,
    Kind::Small,
    Kind::Small,
    Kind::Small,
    Kind::Small,
    Kind::Small,
    Kind::Small,
    Kind::Small,
    Kind::Small,
    Kind::Small,
    Kind::Small,
    Kind::Small,
    Kind::Small,
    Kind::Small,
    Kind::Small,
    Kind::Small,
    Kind::Small,
    Kind::Small,
    Kind::Small,
    Kind::Small,
    Kind::Small,
    Kind::Small,
    Kind::Small,
    Kind::Small,
    Kind::Small,
    Kind::Special,
    Kind::Symbol,
    Kind::Special,
    Kind::Symbol,
    Kind::Other,
];

/// The kind of the character.
#[inline(always)]
#[tactic(auto, unfolding(crate::specs::Letters::kind_of))]
pub fn kind_of(c: char) -> Kind
    ensures { result ≡ kind_of c }
{
    if u32::from(c) < 128 {
        ascii_kind(u32::from(c))
    } else {
        kind_beyond_ascii(c)
    }
}

/// The kind of a character beyond ASCII.
#[inline(never)]
fn kind_beyond_ascii(c: char) -> Kind
    ensures { result ≡ wide_kind (general_category c) }
{
    wide_kind(GeneralCategory::for_char(c))
}

/// The kind of an ASCII character.
fn ascii_kind(code: u32) -> Kind
    requires { code < 128 }
    ensures { result ≡ ascii_kind code }
{
    ASCII_KINDS[code as usize]
}

/// Whether the character ends a line: a linefeed, form feed or return.
pub fn is_newline(c: char) -> bool
    ensures { result ≡ is_newline c }
{
    c == '\n' || c == '\x0C' || c == '\r'
}

/// The kind of a character beyond ASCII.
fn wide_kind(category: GeneralCategory) -> Kind
    ensures { result ≡ wide_kind category }
{
    match category {
        GeneralCategory::LowercaseLetter => Kind::Small,
        GeneralCategory::UppercaseLetter => Kind::Large,
        GeneralCategory::TitlecaseLetter => Kind::Large,
        GeneralCategory::DecimalNumber => Kind::WideDigit,
        GeneralCategory::SpaceSeparator => Kind::Blank,
        GeneralCategory::ConnectorPunctuation => Kind::Symbol,
        GeneralCategory::DashPunctuation => Kind::Symbol,
        GeneralCategory::OpenPunctuation => Kind::Symbol,
        GeneralCategory::ClosePunctuation => Kind::Symbol,
        GeneralCategory::InitialPunctuation => Kind::Symbol,
        GeneralCategory::FinalPunctuation => Kind::Symbol,
        GeneralCategory::OtherPunctuation => Kind::Symbol,
        GeneralCategory::MathSymbol => Kind::Symbol,
        GeneralCategory::CurrencySymbol => Kind::Symbol,
        GeneralCategory::ModifierSymbol => Kind::Symbol,
        GeneralCategory::OtherSymbol => Kind::Symbol,
        _ => Kind::Other,
    }
}

/// Whether a character of the kind may stand in a name behind its first letter.
pub fn continues_name(kind: Kind) -> bool
    ensures { result ≡ continues_name kind }
{
    match kind {
        Kind::Small => true,
        Kind::Large => true,
        Kind::Digit => true,
        Kind::WideDigit => true,
        Kind::Quote => true,
        _ => false,
    }
}

/// Whether the character may stand in a name behind its first letter.
pub fn is_in_name(c: char) -> bool
    ensures { result ≡ is_in_name c }
{
    continues_name(kind_of(c))
}

/// Whether the character is a symbol.
pub fn is_symbol(c: char) -> bool
    ensures { result ≡ is_symbol c }
{
    match kind_of(c) {
        Kind::Symbol => true,
        _ => false,
    }
}

/// Whether the character is blank, the newlines among them.
pub fn is_blank_char(c: char) -> bool
    ensures { result ≡ is_blank c }
{
    match kind_of(c) {
        Kind::Blank => true,
        Kind::Newline => true,
        _ => false,
    }
}
