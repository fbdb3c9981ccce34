//! Words and plain names: which characters they are made of.
ghost use Rattle.std.specs.Prelude.{◌≡◌};
ghost use Rattle.std.specs.List.{list_all};
ghost use Rattle.std.specs.Option.{option_copied};
ghost use Rattle.std.specs.Str.{chars};
ghost use Rattle.gq_base.specs.Words as words;

/// Whether a word may begin with this character: an ASCII letter, `_`, or a character past ASCII that is no white
/// space.
pub fn is_word_start(c: char) -> bool
    ensures { result ≡ words.is_word_start c }
{
    c.is_ascii_alphabetic() || c == '_' || c >= '\u{80}' && !c.is_whitespace()
}

/// Whether a word may go on with this character: one that may begin it, or an ASCII digit.
pub fn is_word_part(c: char) -> bool
    ensures { result ≡ words.is_word_part c }
{
    is_word_start(c) || c.is_ascii_digit()
}

/// The text of these bytes, or `None` where they are not UTF-8.
pub fn read_text(bytes: &[u8]) -> Option<&str>
    ensures { option_copied result ≡ words.text_of bytes.now }
{
    match str::from_utf8(bytes) {
        Ok(text) => Some(text),
        Err(_) => None,
    }
}

/// The plain name that these bytes are, or `None` where they are none: UTF-8 whose characters are a word.
pub fn read_name(bytes: &[u8]) -> Option<&str>
    ensures { option_copied result ≡ words.name_of bytes.now }
{
    let name = read_text(bytes)?;
    if is_word(name) { Some(name) } else { None }
}

fn is_word(text: &str) -> bool
    ensures { result ≡ words.is_word (chars text.now) }
{
    match text.chars().next() {
        Some(first) => is_word_start(first) && are_word_parts(text),
        None => false,
    }
}

fn are_word_parts(text: &str) -> bool
    ensures { result ≡ list_all words.is_word_part (chars text.now) }
{
    text.chars().all(is_word_part)
}
