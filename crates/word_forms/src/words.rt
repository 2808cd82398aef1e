//! Going through the words.

ghost use Rattle.std.specs.Prelude.{◌≡◌, ℕ, ◌+◌, ◌<◌, [], length, map, drop, None};
ghost use Rattle.std.specs.Option.{option_copied};
ghost use Rattle.std.specs.String.{string_bytes};
ghost use Rattle.word_forms.specs.Items.{has_letters, items};
ghost use Rattle.word_forms.specs.Words.{IsNext, given_as, left};
ghost use Rattle.word_forms.specs.inside.Steps.{IsItem, IsWord, option_left, word_left};

use crate::fault::WordFault;
use crate::rows::Rows;

/// An option that is given, or an operand.
#[derive(Clone, Copy, Debug)]
pub struct Given<'a, C> {
    /// None for an operand.
    pub choice: Option<C>,
    /// The place of the word that has the value, from 0; of a flag, of its own word.
    pub place: usize,
    /// No text for a flag.
    pub value: &'a str,
}

/// This is given.
fn give<C>(choice: Option<C>, place: usize, value: &str) -> Given<'_, C>
    ensures { given_as result ≡ record { choice = choice; place = place; value = value.now } }
{
    Given {
        choice,
        place,
        value,
    }
}

/// A reader of words. It gives what they give, one after the other.
#[derive(Clone, Copy)]
pub struct Words<'a, R> {
    rows: R,
    words: &'a [String],
    /// The place of the next word.
    next: usize,
    /// The place of the word before.
    place: usize,
    /// What is left of that word's letters.
    letters: &'a str,
}

/// Whether a word has a minus sign in front and more behind it.
fn has_letters(word: &[u8]) -> bool
    ensures { result ≡ has_letters word.now }
{
    match word {
        [] => false,
        [_] => false,
        [first, _, ..] => *first == b'-',
    }
}

impl<'a, R: Rows> Words<'a, R> {
    /// Reads the words from a place on; places are those of the whole list.
    pub fn new(rows: R, words: &'a [String], from: usize) -> Self
        ensures { left R.rows result ≡ items R.rows rows from None (drop from (map string_bytes words.now)) }
    {
        Words {
            rows,
            words,
            next: from,
            place: from,
            letters: "",
        }
    }

    /// The next word, as it stands.
    fn word(&mut self) -> Option<&'a str>
        ensures { IsWord self.old (option_copied result) self.new }
    {
        if self.next >= self.words.len() {
            return None;
        }
        let word = self.words[self.next].as_str();
        self.place = self.next;
        self.next += 1;
        Some(word)
    }

    /// Gives an option of the word before, behind which that word has this text.
    fn option(
        &mut self,
        choice: R::Choice,
        rest: &'a str,
    ) -> Result<Given<'a, R::Choice>, WordFault>
        ensures { IsItem (option_left R.rows self.old choice rest.now) result (left R.rows self.new) }
    {
        let place = self.place;
        if !self.rows.wants(choice) {
            self.letters = rest;
            return Ok(give(Some(choice), place, ""));
        }
        self.letters = "";
        if !rest.is_empty() {
            return Ok(give(Some(choice), place, rest));
        }
        let Some(value) = self.word() else {
            return Err(WordFault::NoValue {
                word: self.next.saturating_sub(1),
            });
        };
        Ok(give(Some(choice), self.place, value))
    }

    /// Gives the option that the next letter is.
    fn letter(&mut self) -> Result<Given<'a, R::Choice>, WordFault>
        requires { 0 < length self.old.letters.now }
        ensures { IsItem (left R.rows self.old) result (left R.rows self.new) }
    {
        let letters = self.letters;
        match self.rows.letter(letters.as_bytes()[0]) {
            None => {
                self.letters = "";
                Err(WordFault::UnknownOption { word: self.place })
            }
            Some(choice) => self.option(choice, &letters[1..]),
        }
    }

    /// Gives what the word before gives first.
    fn first_of(&mut self, word: &'a str) -> Result<Given<'a, R::Choice>, WordFault>
        requires place { self.old.next ≡ self.old.place + 1 }
        requires letters { self.old.letters.now ≡ [] }
        ensures { IsItem (word_left R.rows self.old word.now) result (left R.rows self.new) }
    {
        if let Some(choice) = self.rows.name(word) {
            return self.option(choice, "");
        }
        if has_letters(word.as_bytes()) {
            self.letters = &word[1..];
            return self.letter();
        }
        let Some(rows) = self.rows.behind(word) else {
            return Err(WordFault::BadOperand { word: self.place });
        };
        self.rows = rows;
        Ok(give(None, self.place, word))
    }

    /// What is given next, nothing behind the last word; or what is wrong with a word, behind which the next words are
    /// read.
    pub fn next(&mut self) -> Result<Option<Given<'a, R::Choice>>, WordFault>
        ensures { IsNext (left R.rows self.old) result (left R.rows self.new) }
    {
        if !self.letters.is_empty() {
            return Ok(Some(self.letter()?));
        }
        let Some(word) = self.word() else {
            return Ok(None);
        };
        Ok(Some(self.first_of(word)?))
    }
}
