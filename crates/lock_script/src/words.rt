ghost use Rattle.std.specs.Prelude.{◌≡◌};
ghost use Rattle.std.specs.Option.{option_copied};
ghost use Rattle.lock_script.specs.Words.{words_of, first_word, words_behind, no_words, begins_with, behind_word, last_word};

use crate::bytes::{is, place_of};
use std::marker::Model;

/// The words of a line that are left, which single spaces part. Contracts see them as a list.
#[derive(Drop)]
pub struct Words<'a> {
    /// The bytes after the last space that was read.
    rest: Option<&'a [u8]>,
}

impl<'a> Model for Words<'a> {
    ghost use Rattle.std.specs.Prelude.{List, ℕ};
    ghost use Rattle.std.specs.Option.{option_copied};
    ghost use Rattle.lock_script.specs.Words.{words_left};

    ghost Value = { List (List ℕ) };

    ghost view = { λ words. words_left (option_copied words.rest) };
}

impl<'a> Words<'a> {
    pub fn new(line: &'a [u8]) -> Self
        ensures { result ≡ words_of line.now }
    {
        Words { rest: Some(line) }
    }

    /// The next word, if there is one.
    pub fn next(&mut self) -> Option<&'a [u8]>
        ensures word { option_copied result ≡ first_word self.old }
        ensures behind { self.new ≡ words_behind self.old }
    {
        let rest = self.rest?;
        match place_of(rest, b' ') {
            Some(end) => {
                self.rest = Some(&rest[end + 1..]);
                Some(&rest[..end])
            }
            None => {
                self.rest = None;
                Some(rest)
            }
        }
    }

    /// The next word, if there is one and no other behind it.
    pub fn last(&mut self) -> Option<&'a [u8]>
        ensures { option_copied result ≡ last_word self.old }
    {
        let word = self.next()?;
        if self.is_empty() { Some(word) } else { None }
    }

    /// Passes over the next word, if it is this one.
    pub fn skip(&mut self, wanted: &[u8]) -> bool
        ensures there { result ≡ begins_with wanted.now self.old }
        ensures behind { self.new ≡ behind_word wanted.now self.old }
    {
        let before = self.rest;
        if let Some(word) = self.next()
            && is(word, wanted)
        {
            return true;
        }
        self.rest = before;
        false
    }

    pub fn is_empty(&self) -> bool
        ensures { result ≡ no_words self.now }
    {
        self.rest.is_none()
    }
}
