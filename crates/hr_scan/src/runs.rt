//! Runs of bytes of one class.
ghost use Rattle.std.specs.Prelude.{◌≡◌, ◌≤◌, drop, length};
ghost use Rattle.std.specs.List.{prefix_len};
ghost use Rattle.hr_scan.specs.Classes.{in_class};

use crate::lines::FORM_FEED;

/// The classes of bytes that runs are made of.
#[derive(Clone, Copy, Debug, PartialEq, Eq)]
pub enum ByteClass {
    /// A space or a tab.
    Blank,
    /// An ASCII letter, a digit, `_` or `'`.
    Ident,
    /// Any byte but LF, CR and FF.
    LineBody,
    /// Any byte but `{` and `-`.
    NestBody,
}

impl ByteClass {
    /// Whether the byte is of the class.
    fn contains(self, byte: u8) -> bool
        ensures { result ≡ in_class self byte }
    {
        match self {
            ByteClass::Blank => matches!(byte, b' ' | b'\t'),
            ByteClass::Ident => byte.is_ascii_alphanumeric() || matches!(byte, b'_' | b'\''),
            ByteClass::LineBody => !matches!(byte, b'\n' | b'\r' | FORM_FEED),
            ByteClass::NestBody => !matches!(byte, b'{' | b'-'),
        }
    }
}

/// The length of the longest run of bytes of the class that begins at the place `from`.
pub fn run_of(class: ByteClass, bytes: &[u8], from: usize) -> usize
    requires { from ≤ length bytes.now }
    ensures { result ≡ prefix_len (in_class class) (drop from bytes.now) }
{
    let (_, rest) = bytes.split_at(from);
    rest.iter()
        .take_while(|byte| class.contains(**byte))
        .count()
}
