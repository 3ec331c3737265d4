//! The words of a line. One space parts two words.
ghost use Rattle.std.specs.Prelude.{◌≡◌, option_map, map, position, IfOk};
ghost use Rattle.values_lines.specs.Words.{is_space, split_word as first_word_of};
ghost use Rattle.values_lines.specs.Words.{words_of as all_words_of, is_word as may_be_word};

use std::alloc::{AllocError, Global};

/// The first word, and what follows the space behind it. `None` if there is no space.
pub fn split_word(text: &[u8]) -> (&[u8], Option<&[u8]>)
    ensures { (result.0.now, option_map (λ rest. rest.now) result.1) ≡ first_word_of text.now }
{
    match first_space(text) {
        Some(end) => (&text[..end], Some(&text[end + 1..])),
        None => (text, None),
    }
}

/// All words, in order: what stands between the spaces. Two spaces in a row have an empty word
/// between them, and an empty text is one empty word. The error is want of memory.
#[tactic(auto, using(crate::proofs::WordLemmas::words_from))]
pub fn words_of(alloc: Global, text: &[u8]) -> Result<Vec<&[u8]>, AllocError>
    ensures { IfOk result (λ words. map (λ word. word.now) words.items ≡ all_words_of text.now) }
{
    let mut words = Vec::new(alloc);
    let mut rest = text;
    'words: loop {
        let (word, others) = split_word(rest);
        words.push(word)?;
        match others {
            Some(others) => rest = others,
            None => return Ok(words),
        }
    }
}

/// The index of the first space.
fn first_space(text: &[u8]) -> Option<usize>
    ensures { result ≡ position is_space text.now }
{
    text.iter().position(|octet| *octet == b' ')
}

/// Whether the text is one word: not empty, and without a space.
pub fn is_word(text: &[u8]) -> bool
    ensures { result ≡ may_be_word text.now }
{
    !text.is_empty() && first_space(text).is_none()
}
