//! What of a text is still to be read: its characters, and the bytes that spell them.
ghost use Rattle.std.specs.Prelude.{◌≡◌, ◌<◌, ◌≤◌, ◌^◌, length, take, drop};
ghost use Rattle.std.specs.Str.{encode_utf8_all};

/// The characters that are left, with their bytes.
#[derive(Clone, Copy)]
pub struct Source<'a> {
    pub characters: &'a [char],
    pub bytes: &'a [u8],
}

/// The bytes of the first `count` characters, and what is left behind them.
pub fn split(source: Source, count: usize) -> (&[u8], Source)
    requires spelled { source.bytes.now ≡ encode_utf8_all source.characters.now }
    requires within { count ≤ length source.characters.now }
    ensures text { result.0.now ≡ encode_utf8_all (take count source.entry.characters.now) }
    ensures characters { result.1.characters.now ≡ drop count source.entry.characters.now }
    ensures bytes { result.1.bytes.now ≡ encode_utf8_all (drop count source.entry.characters.now) }
{
    let (front, characters) = source.characters.split_at(count);
    let (text, bytes) = source.bytes.split_at(utf8_len(front));
    (text, Source { characters, bytes })
}

/// How many bytes spell the characters.
pub fn utf8_len(characters: &[char]) -> usize
    requires { length (encode_utf8_all characters.now) < 2 ^ 64 }
    ensures { result ≡ length (encode_utf8_all characters.now) }
{
    let mut len = 0;
    for c in characters {
        len += c.len_utf8();
    }
    len
}
