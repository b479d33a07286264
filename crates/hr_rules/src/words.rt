//! Texts told from words.
ghost use Rattle.std.specs.Prelude.{◌≡◌, map};
ghost use Rattle.hr_rules.specs.Names.{is_one_of, is_spelled};

/// Whether the text is the word.
pub fn is_spelled(word: &[u8], text: &[u8]) -> bool
    ensures { result ≡ is_spelled word.now text.now }
{
    text == word
}

/// Whether the text is one of the words.
pub fn is_one_of(words: &[&[u8]], text: &[u8]) -> bool
    ensures { result ≡ is_one_of (map (λ word. word.now) words.now) text.now }
{
    for word in words {
        if is_spelled(word, text) {
            return true;
        }
    }
    false
}
