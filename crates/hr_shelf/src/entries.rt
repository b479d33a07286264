ghost use Rattle.std.specs.Prelude.{◌≡◌, position};
ghost use Rattle.std.specs.Str.{bytes_eq};

use hr_base::Text;

/// The place of the first entry with the name.
pub(crate) fn place_named<T>(entries: &[(Text, T)], name: &[u8]) -> Option<usize>
    ensures { result ≡ position (λ entry. bytes_eq name.now entry.0) entries.now }
{
    entries.iter().position(|(held, _)| name == held.as_slice())
}
