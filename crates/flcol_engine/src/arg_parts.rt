//! Parts of words: what stands before and behind a separator, numbers, and lists.

ghost use Rattle.std.specs.Prelude.{◌≡◌, ◌<◌, ℕ, List, Ok, Option, IfSome, length, option_map};
ghost use Rattle.fl_types.specs.Refusals.{Answers};
ghost use Rattle.flcol_engine.specs.Words.{halves_at, index_in_text, list_in_text, number_in_word, pair_in_text, range_in_text};

use crate::text;
use fl_column::FastLanesError;
use std::alloc::Global;

/// What stands before the first separator and what stands behind it, where there is one.
pub(crate) fn split_once(text: &[u8], separator: u8) -> Option<(&[u8], &[u8])>
    ensures halves { option_map (λ h. (h.0.now, h.1.now)) result ≡ halves_at separator text.now }
    ensures shorter { IfSome result (λ h. length h.1.now < length text.now) }
{
    for (i, b) in text.iter().enumerate() {
        if *b == separator {
            return Some((&text[..i], &text[i + 1..]));
        }
    }
    None
}

/// A number of 64 bits.
pub(crate) fn number(digits: &[u8]) -> Option<usize>
    ensures { result ≡ number_in_word digits.now }
{
    let number = text::number(digits, u64::MAX)?;
    Some(number as usize)
}

/// Two numbers, with a separator between them.
pub(crate) fn pair(text: &[u8], separator: u8) -> Option<(usize, usize)>
    ensures { result ≡ pair_in_text separator text.now }
{
    let (first, second) = split_once(text, separator)?;
    let first = number(first)?;
    let second = number(second)?;
    Some((first, second))
}

/// What stands in the lists of words.
pub(crate) trait Element: Sized + Copy + Drop {
    /// What a text says.
    ghost said: { List ℕ → Option Self };

    /// The element that a text says.
    fn parse(text: &[u8]) -> Option<Self>
        ensures { result ≡ said text.now };
}

/// An index, or `null`.
impl Element for Option<u64> {
    ghost said = { index_in_text };

    fn parse(text: &[u8]) -> Option<Option<u64>> {
        if text == b"null".as_slice() {
            return Some(None);
        }
        let index = text::number(text, u64::MAX)?;
        Some(Some(index))
    }
}

/// A range: a start, a plus sign and a length.
impl Element for (usize, usize) {
    ghost said = { range_in_text };

    fn parse(text: &[u8]) -> Option<(usize, usize)> {
        pair(text, b'+')
    }
}

/// What the parts between commas say, where each says something; no text is an empty list.
pub(crate) fn list<T: Element>(alloc: Global, text: &[u8]) -> Result<Option<Vec<T>>, FastLanesError>
    ensures { Answers (option_map (λ v. v.items)) result (Ok (list_in_text T.said text.now)) }
{
    let mut elements = Vec::new(alloc);
    if text.is_empty() {
        return Ok(Some(elements));
    }
    let mut rest = text;
    while let Some((part, next)) = split_once(rest, b',') {
        let Some(element) = T::parse(part) else {
            return Ok(None);
        };
        elements.push(element)?;
        rest = next;
    }
    let Some(element) = T::parse(rest) else {
        return Ok(None);
    };
    elements.push(element)?;
    Ok(Some(elements))
}
