// The words of a line.
ghost use Rattle.std.specs.Prelude.{◌≡◌, ◌↔◌, ◌≤◌, IsTrue, IfOk, MatchOption, length, take};
ghost use Rattle.hm_model.specs.Words.{IsWord, IsWordByte};
ghost use Rattle.hm_script.specs.declared.words.TheConstants.{MOST_WORDS};
ghost use Rattle.hm_script.specs.Texts.{texts, IsNoText, IsText};

use hm_types::{NoMemory, Text};
use std::alloc::Global;

/// The most words of a line of the grammar: a lane, and `fill` with its four values.
pub(crate) const MOST_WORDS: usize = 6;

/// The first words of a line, as many as `count` says. They take no memory.
#[derive(Drop)]
pub(crate) struct Words<'a> {
    words: [&'a [u8]; MOST_WORDS],
    count: usize,
    ghost few: { count ≤ MOST_WORDS },
}

impl<'a> Words<'a> {
    /// The words of a line, or None where it has too many, or anything but one blank between two.
    pub(crate) fn of(text: &'a [u8]) -> Option<Words<'a>>
        ensures { MatchOption result (IsNoText text.now)
            (λ found. IsText text.now found.words found.count) }
    {
        let mut words = [&text[..0]; MOST_WORDS];
        let mut count = 0usize;
        for word in text.split(|byte| *byte == b' ') {
            if count == MOST_WORDS || !is_word(word) {
                return None;
            }
            words[count] = word;
            count += 1;
        }
        Some(Words { words, count })
    }

    pub(crate) fn list(&self) -> &[&'a [u8]]
        ensures { result.now ≡ take self.now.count self.now.words }
    {
        &self.words[..self.count]
    }
}

fn is_word(word: &[u8]) -> bool
    ensures { IsTrue result ↔ IsWord word.now }
{
    !word.is_empty() && word.iter().all(|byte| is_word_byte(*byte))
}

fn is_word_byte(byte: u8) -> bool
    ensures { IsTrue result ↔ IsWordByte byte }
{
    matches!(byte, 0x21..=0x7E | 0x80..=0xFF)
}

/// Whether the word is this one.
pub(crate) fn is(word: &[u8], name: &[u8]) -> bool
    ensures { IsTrue result ↔ (word.now ≡ name.now) }
{
    word == name
}

/// A copy of the word.
pub(crate) fn copy_of(alloc: Global, word: &[u8]) -> Result<Text, NoMemory>
    ensures { IfOk result (λ text. text ≡ word.now) }
{
    Ok(Text::of(word.to_vec(alloc)?))
}
