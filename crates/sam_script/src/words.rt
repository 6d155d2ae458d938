//! Reads the parts of a line: words, each after one space, numbers, and a text up to the end of the line.

ghost use Rattle.std.specs.Prelude.{◌≡◌, [], false, chars};
ghost use Rattle.sam_script.specs.Words.{Gives, word_of, behind_word, word_at, number_of, number_at, unescaped, meant, text_at, ended};
ghost use Rattle.sam_script.specs.Words.{tag_alone, tag_and_place, tag_and_range, tag_and_text};

use crate::fault::LineFault;
use sam_runes::Runes;
use std::alloc::Global;

/// Returns what stands before the first space, and the rest from that space on. Without a space all is before it.
pub fn split_word(text: &str) -> (&str, &str)
    ensures word { result.0.now ≡ word_of text.now }
    ensures rest { result.1.now ≡ behind_word text.now }
{
    match text.find(' ') {
        Some(end) => text.split_at(end),
        None => (text, ""),
    }
}

/// Reads the word after one space, and returns it with the rest of the line. The word may be empty.
pub fn word_at(text: &str) -> Result<(&str, &str), LineFault>
    ensures { Gives (λ x. (x.0.now, x.1.now)) result (word_at text.now) }
{
    match text.strip_prefix(' ') {
        Some(text) => Ok(split_word(text)),
        None => Err(LineFault::Wrong),
    }
}

/// Reads the next word as a tag or a version, and returns it with the rest of the line.
#[tactic(auto, unfolding(crate::specs::Words::number_at))]
pub fn tag_at(text: &str) -> Result<(u16, &str), LineFault>
    ensures { Gives (λ x. (x.0, x.1.now)) result (number_at 16 text.now) }
{
    let (word, rest) = word_at(text)?;
    let tag = tag_of(word)?;
    Ok((tag, rest))
}

/// Reads the next word as a place, a length or a count of lines, and returns it with the rest of the line.
#[tactic(auto, unfolding(crate::specs::Words::number_at))]
pub fn place_at(text: &str) -> Result<(u32, &str), LineFault>
    ensures { Gives (λ x. (x.0, x.1.now)) result (number_at 32 text.now) }
{
    let (word, rest) = word_at(text)?;
    let place = place_of(word)?;
    Ok((place, rest))
}

/// Returns the number of 16 bits that the digits of a word write. `parse` alone would take a plus in front.
#[tactic(auto, using(crate::proofs::WordLaws::parsed))]
fn tag_of(word: &str) -> Result<u16, LineFault>
    ensures { Gives (λ n. n) result (number_of 16 word.now) }
{
    if word.starts_with('+') {
        return Err(LineFault::Wrong);
    }
    match word.parse::<u16>() {
        Ok(tag) => Ok(tag),
        Err(_) => Err(LineFault::Wrong),
    }
}

/// Returns the number of 32 bits that the digits of a word write. Here too a plus is wrong.
#[tactic(auto, using(crate::proofs::WordLaws::parsed))]
fn place_of(word: &str) -> Result<u32, LineFault>
    ensures { Gives (λ n. n) result (number_of 32 word.now) }
{
    if word.starts_with('+') {
        return Err(LineFault::Wrong);
    }
    match word.parse::<u32>() {
        Ok(place) => Ok(place),
        Err(_) => Err(LineFault::Wrong),
    }
}

/// Reads the rest of the line as a text after one space. An empty text may lack its space.
pub fn text_at(alloc: Global, text: &str) -> Result<Runes, LineFault>
    ensures { Gives (λ runes. runes) result (text_at text.now) }
{
    match text.strip_prefix(' ') {
        Some(escaped) => unescape(alloc, escaped),
        None => ended(Runes::from_vec(Vec::new(alloc)), text),
    }
}

/// Returns the runes of a text in which `\n` is a newline and `\\` a backslash. Any other backslash is `Wrong`.
fn unescape(alloc: Global, escaped: &str) -> Result<Runes, LineFault>
    ensures { Gives (λ runes. runes) result (unescaped [] false (chars escaped.now)) }
{
    let mut runes = Vec::new(alloc);
    let mut is_escaped = false;
    for rune in escaped.chars() {
        if rune == '\\' && !is_escaped {
            is_escaped = true;
        } else {
            let Some(meant) = meant(is_escaped, rune) else {
                return Err(LineFault::Wrong);
            };
            runes.push(meant)?;
            is_escaped = false;
        }
    }
    if is_escaped {
        return Err(LineFault::Wrong);
    }
    Ok(Runes::from_vec(runes))
}

/// Returns what a rune means, by itself or after a backslash, or `None` if it may not stand there. `unescape` asks for no backslash
/// by itself.
fn meant(is_escaped: bool, rune: char) -> Option<char>
    ensures { result ≡ meant is_escaped rune }
{
    match (is_escaped, rune) {
        (true, 'n') => Some('\n'),
        (true, '\\') => Some('\\'),
        (true, _) | (false, '\n') => None,
        (false, rune) => Some(rune),
    }
}

/// Returns the value if nothing is left of the line, else `Wrong`.
pub fn ended<X: Drop>(value: X, text: &str) -> Result<X, LineFault>
    ensures { Gives (λ x. x) result (ended value text.now) }
{
    if text.is_empty() {
        Ok(value)
    } else {
        Err(LineFault::Wrong)
    }
}

/// Reads a tag and nothing more.
#[tactic(auto, unfolding(crate::specs::Words::tag_alone))]
pub fn tag_alone(text: &str) -> Result<u16, LineFault>
    ensures { Gives (λ tag. tag) result (tag_alone text.now) }
{
    let (tag, rest) = tag_at(text)?;
    ended(tag, rest)
}

/// Reads a tag, a number of 32 bits and nothing more.
#[tactic(auto, unfolding(crate::specs::Words::tag_and_place))]
pub fn tag_and_place(text: &str) -> Result<(u16, u32), LineFault>
    ensures { Gives (λ x. (x.0, x.1)) result (tag_and_place text.now) }
{
    let (tag, rest) = tag_at(text)?;
    let (place, rest) = place_at(rest)?;
    ended((tag, place), rest)
}

/// Reads a tag, two numbers of 32 bits and nothing more. The second may be less than the first.
#[tactic(auto, unfolding(crate::specs::Words::tag_and_range))]
pub fn tag_and_range(text: &str) -> Result<(u16, u32, u32), LineFault>
    ensures { Gives (λ x. (x.0, x.1, x.2)) result (tag_and_range text.now) }
{
    let (tag, rest) = tag_at(text)?;
    let (start, rest) = place_at(rest)?;
    let (end, rest) = place_at(rest)?;
    ended((tag, start, end), rest)
}

/// Reads a tag and a text that takes the rest of the line.
#[tactic(auto, unfolding(crate::specs::Words::tag_and_text))]
pub fn tag_and_text(alloc: Global, text: &str) -> Result<(u16, Runes), LineFault>
    ensures { Gives (λ x. (x.0, x.1)) result (tag_and_text text.now) }
{
    let (tag, rest) = tag_at(text)?;
    let runes = text_at(alloc, rest)?;
    Ok((tag, runes))
}
