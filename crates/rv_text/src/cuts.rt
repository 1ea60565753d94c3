//! Bytes are cut at a byte.
ghost use Rattle.std.specs.Prelude.{◌≡◌, ◌<◌, IfSome, length};
ghost use Rattle.std.specs.Option.{option_copied};
ghost use Rattle.rv_text.specs.Lines.{cut};
ghost use Rattle.rv_text.specs.Replies.{after};

use memchr::memchr;

/// What stands before the first such byte, and what stands behind it; the whole and None where there is none.
pub fn cut_at(byte: u8, text: &[u8]) -> (&[u8], Option<&[u8]>)
    ensures word { result.0.now ≡ (cut byte text.now).word }
    ensures more { option_copied result.1 ≡ (cut byte text.now).more }
    ensures shorter { IfSome (option_copied result.1) (λ more. length more < length text.now) }
{
    match memchr(byte, text) {
        Some(at) => (&text[..at], Some(&text[at + 1..])),
        None => (text, None),
    }
}

/// What follows a word; None where the text does not begin with it.
pub fn after<'a>(word: &[u8], text: &'a [u8]) -> Option<&'a [u8]>
    ensures { option_copied result ≡ after word.now text.now }
{
    text.strip_prefix(word)
}
