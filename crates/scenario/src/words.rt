//! The words of a line, taken one by one.
ghost use Rattle.std.specs.Prelude.{◌≡◌, ◌&&◌, length, Some, None, nat_lt};
ghost use Rattle.std.specs.Option.{option_map};
ghost use Rattle.std.specs.Str.{all_ascii_digits};
ghost use Rattle.scenario.specs.Words.{rest_of, first_word, behind_word, Cuts, told, Tells, word_after, name_after, number_of, number_after, bytes_after, end_after};

use crate::hex::from_hex;
use crate::wrong::{Stop, Wrong};
use std::alloc::Global;

/// What is left of a line, word by word, and where the bytes that it says are kept.
#[derive(Clone, Copy)]
pub(crate) struct Words<'a> {
    heap: Global,
    rest: Option<&'a str>,
}

// Only digits, and at least one.
fn is_number(word: &str) -> bool
    ensures { result ≡ (all_ascii_digits word.now && nat_lt 0 (length word.now)) }
{
    !word.is_empty() && word.bytes().all(|byte| byte.is_ascii_digit())
}

// A number past 32 bits counts as the largest of these, which is out of every field's range too.
fn number_of(word: &str) -> Option<u32>
    ensures { result ≡ number_of word.now }
{
    if !is_number(word) {
        return None;
    }
    Some(word.parse().unwrap_or(u32::MAX))
}

// The first word of a text, and what is left behind its space. By match, which shows the two pairs better than `map_or` does.
fn cut(text: &str) -> (&str, Option<&str>)
    ensures word { result.0.now ≡ first_word text.now }
    ensures left { option_map (λ t. t.now) result.1 ≡ behind_word text.now }
{
    match text.split_once(' ') {
        Some((word, rest)) => (word, Some(rest)),
        None => (text, None),
    }
}

impl<'a> Iterator for Words<'a> {
    type Item = &'a str;

    ghost next_gives = { Cuts };

    fn next(&mut self) -> Option<&'a str> {
        let (word, rest) = cut(self.rest?);
        self.rest = rest;
        Some(word)
    }
}

impl<'a> Words<'a> {
    pub(crate) fn new(heap: Global, line: &'a str) -> Words<'a>
        ensures { rest_of result ≡ Some line.now }
    {
        Words {
            heap,
            rest: Some(line),
        }
    }

    /// The next word; `wanted` says what it should be.
    pub(crate) fn word(&mut self, wanted: &'a str) -> Result<&'a str, Wrong<'a>>
        ensures { told (λ w. w.now) result (rest_of self.new) ≡ word_after wanted.now (rest_of self.old) }
    {
        match self.next() {
            None => Err(Wrong::Missing(wanted)),
            Some("") => Err(Wrong::Gap),
            Some(word) => Ok(word),
        }
    }

    /// The word that names what follows.
    pub(crate) fn name(&mut self, name: &'a str) -> Result<(), Wrong<'a>>
        ensures { told (λ _. tt) result (rest_of self.new) ≡ name_after name.now (rest_of self.old) }
    {
        let found = self.word(name)?;
        if found == name {
            Ok(())
        } else {
            Err(Wrong::Word {
                wanted: name,
                found,
            })
        }
    }

    /// The number behind its name.
    pub(crate) fn number(&mut self, name: &'a str) -> Result<u32, Wrong<'a>>
        ensures { told (λ n. n) result (rest_of self.new) ≡ number_after name.now (rest_of self.old) }
    {
        self.name(name)?;
        let word = self.word("a number")?;
        number_of(word).ok_or(Wrong::Number(word))
    }

    /// Bytes.
    pub(crate) fn bytes(&mut self) -> Result<Vec<u8>, Stop<'a>>
        ensures { Tells (λ v. (v.items, rest_of self.new)) result (bytes_after (rest_of self.old)) }
    {
        let word = self.word("bytes")?;
        from_hex(self.heap, word)?.ok_or(Wrong::Bytes(word).into())
    }

    /// The end of the line.
    pub(crate) fn end(self) -> Result<(), Wrong<'a>>
        ensures { told (λ _. tt) result None ≡ end_after (rest_of self.entry) }
    {
        match self.rest {
            None => Ok(()),
            Some("") => Err(Wrong::Gap),
            Some(rest) => Err(Wrong::Rest(rest)),
        }
    }
}
