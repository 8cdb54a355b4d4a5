ghost use Rattle.std.specs.Prelude.{◌≡◌};
ghost use Rattle.std.specs.Char.{is_ascii_graphic};
ghost use Rattle.std.specs.List.{list_all};
ghost use Rattle.mg_words.specs.Texts.{is_plain, is_short, shown};

use crate::slot::Slot;
use std::fmt;

/// Longer words are not shown.
const LONGEST: usize = 100;

/// What is said of a word that is bad, or missing where there is none, and of what could stand there. With no slot the line could end.
#[derive(Clone, Copy)]
pub struct WrongText<'a> {
    pub word: Option<&'a str>,
    pub wanted: Option<Slot>,
}

impl fmt::Display for WrongText<'_> {
    ghost use Rattle.std.specs.Prelude.{Some, option_map};
    ghost use Rattle.mg_words.specs.Texts.{wrong_text};

    ghost output = { λ wrong. Some (wrong_text (option_map (λ word. word.now) wrong.word) wrong.wanted) };

    fn fmt<W: fmt::Write>(&self, f: &mut fmt::Formatter<W>) -> fmt::Result {
        match (self.word, self.wanted) {
            (Some(word), Some(slot)) => {
                let name = slot.name();
                let word = shown(word);
                let right = slot.right();
                write!(f, "{name} is {word}: {right}")
            }
            (None, Some(slot)) => {
                let name = slot.name();
                let right = slot.right();
                write!(f, "{name} is missing: {right}")
            }
            (Some(word), None) => {
                let word = shown(word);
                write!(f, "{word} is a word too many")
            }
            (None, None) => f.write_str("a word is missing"),
        }
    }
}

/// The word as it may stand in a line that is shown.
pub fn shown(word: &str) -> &str
    ensures { result.now ≡ shown word.now }
{
    if is_plain(word) { word } else { ".." }
}

/// Whether a word has no blank and nothing that a terminal would obey, and is neither long nor empty.
fn is_plain(word: &str) -> bool
    ensures { result ≡ is_plain word.now }
{
    is_short(word) && is_graphic(word)
}

fn is_short(word: &str) -> bool
    ensures { result ≡ is_short word.now }
{
    1 <= word.len() && word.len() <= LONGEST
}

fn is_graphic(word: &str) -> bool
    ensures { result ≡ list_all is_ascii_graphic word.now }
{
    word.as_bytes().iter().all(|byte| byte.is_ascii_graphic())
}
