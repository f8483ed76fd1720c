ghost use Rattle.std.specs.Prelude.{◌≡◌, ◌∷◌, ◌++◌, ◌<◌, length, position, MatchOption};
ghost use Rattle.command_text.specs.Script.{HasNoLf, is_lf, lines_of};

use memchr::memchr;

// The first LF.
fn first_lf(text: &[u8]) -> Option<usize>
    ensures { result ≡ position is_lf text.now }
{
    memchr(b'\n', text)
}

/// The bytes before the first LF of a text, and those after it.
pub fn cut_line(text: &[u8]) -> Option<(&[u8], &[u8])>
    ensures { MatchOption result (HasNoLf text.now)
        (λ p. (text.now ≡ p.0.now ++ 10 ∷ p.1.now) × HasNoLf p.0.now) }
{
    match first_lf(text) {
        Some(at) => Some((&text[..at], &text[at + 1..])),
        None => None,
    }
}

/// The first line of a text, without the LF that ends it, and the text after it.
pub fn next_line(text: &[u8]) -> (&[u8], &[u8])
    requires { 0 < length text.now }
    ensures cut { lines_of text.now ≡ result.0.now ∷ lines_of result.1.now }
    ensures shorter { length result.1.now < length text.now }
{
    match first_lf(text) {
        Some(at) => (&text[..at], &text[at + 1..]),
        None => (text, &text[text.len()..]),
    }
}
