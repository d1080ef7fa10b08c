//! The words of a text, lent one after the other.

ghost use Rattle.std.specs.Prelude.{◌≡◌, ◌∷◌, ◌++◌, ◌==◌, false, MatchOption};
ghost use Rattle.std.specs.List.{All};
ghost use Rattle.memchr.specs.Find.{IsFirstByte, is_byte};

use crate::octets::are_odd;
use memchr::memchr;

/// The place of the first space. Most words are short, so the first octets are looked at one by one.
fn first_space(octets: &[u8]) -> Option<usize>
    ensures { IsFirstByte (is_byte 32) octets.now result }
{
    let near = octets.len().min(8);
    match octets[..near].iter().position(|octet| *octet == b' ') {
        Some(at) => Some(at),
        None => Some(near + memchr(b' ', &octets[near..])?),
    }
}

/// The octets before the first space, and those after it.
fn split_word(octets: &[u8]) -> Option<(&[u8], &[u8])>
    ensures cut { MatchOption result (All (λ b. (b == 32) ≡ false) octets.now)
        (λ r. (octets.now ≡ r.0.now ++ 32 ∷ r.1.now)
        × All (λ b. (b == 32) ≡ false) r.0.now) }
{
    let at = first_space(octets)?;
    Some((&octets[..at], &octets[at + 1..]))
}

/// The words of a text that are left, lent one after the other.
#[derive(Clone, Copy, Debug)]
pub struct Words<'a> {
    rest: Option<&'a [u8]>,
}

impl<'a> Words<'a> {
    ghost use Rattle.std.specs.Prelude.{◌≡◌, ◌∷◌, ◌==◌, ◌&&◌, ◌%◌, nat_lt, length, [], option_map};
    ghost use Rattle.std.specs.Prelude.{MatchOption, IfNone};
    ghost use Rattle.text_words.specs.Words.{words_of};
    ghost use Rattle.run_record.specs.Seen.{words_left, one_of, two_of, four_of};

    /// The words of a text.
    pub fn of(text: &'a [u8]) -> Self
        ensures { words_left result ≡ words_of text.now }
    {
        Words { rest: Some(text) }
    }

    /// Takes the next word; none exactly where no word is left.
    pub fn next(&mut self) -> Option<&'a [u8]>
        ensures word { MatchOption result (words_left self.old ≡ []) (λ word. words_left self.old
            ≡ word.now ∷ words_left self.new) }
        ensures none { IfNone result (words_left self.new ≡ []) }
    {
        let text = self.rest?;
        match split_word(text) {
            Some((word, more)) => {
                self.rest = Some(more);
                Some(word)
            }
            None => {
                self.rest = None;
                Some(text)
            }
        }
    }

    /// No word is left.
    pub fn is_empty(&self) -> bool
        ensures { result ≡ (length (words_left self.now) == 0) }
    {
        self.rest.is_none()
    }

    /// The words that are left are some, and go by twos.
    pub fn are_pairs(&self) -> bool
        ensures { result ≡ (nat_lt 0 (length (words_left self.now))
            && (length (words_left self.now) % 2 == 0)) }
    {
        match self.rest {
            Some(text) => are_odd(text),
            None => false,
        }
    }

    /// The word, if it is the only one that is left.
    pub fn one(self) -> Option<&'a [u8]>
        ensures { option_map (λ word. word.now) result ≡ one_of (words_left self.entry) }
    {
        let mut words = self;
        let word = words.next()?;
        if words.is_empty() { Some(word) } else { None }
    }

    /// The words, if they are two.
    pub fn two(self) -> Option<(&'a [u8], &'a [u8])>
        ensures { option_map (λ words. (words.0.now, words.1.now)) result ≡ two_of
            (words_left self.entry) }
    {
        let mut words = self;
        let word = words.next()?;
        match words.one() {
            Some(next) => Some((word, next)),
            None => None,
        }
    }

    /// The words, if they are four.
    pub fn four(self) -> Option<(&'a [u8], &'a [u8], &'a [u8], &'a [u8])>
        ensures { option_map (λ words. (words.0.now, words.1.now, words.2.now, words.3.now)) result
            ≡ four_of (words_left self.entry) }
    {
        let mut words = self;
        let first = words.next()?;
        let second = words.next()?;
        match words.two() {
            Some((third, fourth)) => Some((first, second, third, fourth)),
            None => None,
        }
    }
}
