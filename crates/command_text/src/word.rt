ghost use Rattle.std.specs.Prelude.{◌≡◌, [], ◌∷◌, not, position, MatchOption, Some};
ghost use Rattle.command_text.specs.Grammar.{is_space, words_of, read_as, alone, one_of, two_of, three_of};
ghost use Rattle.command_text.specs.Words.{StartsWord};

use crate::{Command, LineFault};

// The first space.
fn first_space(text: &[u8]) -> Option<usize>
    ensures { result ≡ position is_space text.now }
{
    text.iter().position(|b| *b == b' ')
}

// The first byte that is no space.
fn first_byte(text: &[u8]) -> Option<usize>
    ensures { result ≡ position (λ b. not (is_space b)) text.now }
{
    text.iter().position(|b| *b != b' ')
}

// The text from its first byte on that is no space.
fn skip_spaces(text: &[u8]) -> &[u8]
    ensures words { words_of result.now ≡ words_of text.now }
    ensures first { StartsWord result.now }
{
    &text[first_byte(text).unwrap_or(text.len())..]
}

/// The first word of a line, and what comes after it.
pub fn next_word(text: &[u8]) -> Option<(&[u8], &[u8])>
    ensures { MatchOption result (words_of text.now ≡ [])
        (λ p. words_of text.now ≡ p.0.now ∷ words_of p.1.now) }
{
    let text = skip_spaces(text);
    if text.is_empty() {
        return None;
    }
    match first_space(text) {
        Some(at) => Some((&text[..at], &text[at + 1..])),
        None => Some((text, &text[text.len()..])),
    }
}

/// The command, where no word is left. Fault: WordCount.
#[inline(never)]
pub fn alone(text: &[u8], command: Command) -> Result<Option<Command>, LineFault>
    ensures { result ≡ read_as Some (alone (words_of text.now) command) }
{
    match next_word(text) {
        None => Ok(Some(command)),
        Some(_) => Err(LineFault::WordCount),
    }
}

/// The one word that is left. Fault: WordCount.
pub fn one_word(text: &[u8]) -> Result<&[u8], LineFault>
    ensures { read_as (λ w. w.now) result ≡ one_of (words_of text.now) }
{
    let (first, rest) = next_word(text).ok_or(LineFault::WordCount)?;
    match next_word(rest) {
        None => Ok(first),
        Some(_) => Err(LineFault::WordCount),
    }
}

/// The two words that are left. Fault: WordCount.
pub fn two_words(text: &[u8]) -> Result<(&[u8], &[u8]), LineFault>
    ensures { read_as (λ p. (p.0.now, p.1.now)) result ≡ two_of (words_of text.now) }
{
    let (first, rest) = next_word(text).ok_or(LineFault::WordCount)?;
    Ok((first, one_word(rest)?))
}

/// The three words that are left. Fault: WordCount.
pub fn three_words(text: &[u8]) -> Result<(&[u8], &[u8], &[u8]), LineFault>
    ensures { read_as (λ p. (p.0.now, p.1.now, p.2.now)) result ≡ three_of (words_of text.now) }
{
    let (first, rest) = next_word(text).ok_or(LineFault::WordCount)?;
    let (second, third) = two_words(rest)?;
    Ok((first, second, third))
}
