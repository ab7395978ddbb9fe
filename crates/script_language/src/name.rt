ghost use Rattle.std.specs.Prelude.{◌≡◌, ◌≤◌, length, if◌then◌else◌, Some, None, nat_eq, refl};
ghost use Rattle.std.specs.Ordering.{nat_cmp};
ghost use Rattle.std.specs.Cmp.{partial_equiv_from_equiv};
ghost use Rattle.std.specs.Cmp.Lexicographic.{pointwise, slice_cmp, nat_list_eq_equiv, nat_list_cmp_total, texts_ties, texts_po};
ghost use Rattle.std.specs.List.{list_all};
ghost use Rattle.script_language.specs.Words.{name_of, is_name_letter};

use crate::fault::LineFault;
use std::cmp::Ordering;
use std::marker::Model;

/// The most letters that a name may have.
const NAME_LIMIT: usize = 16;

/// A name of a script: 1 to 16 lower case letters and digits. Seen by contracts as its letters. It takes no memory.
#[derive(Clone, Copy, Debug, Drop)]
pub struct Name {
    /// The letters, and zeros behind them.
    places: [u8; NAME_LIMIT],
    len: usize,
}

impl Model for Name {
    ghost use Rattle.std.specs.Prelude.{ℕ, List, length, take};

    ghost Value = { List ℕ };

    ghost use Rattle.script_language.specs.Letters.{padded, IsPadded, padded_take};

    ghost view = { λ a. take a.len a.places };

    ghost invariant = { λ a. IsPadded a.len a.places };

    ghost inverse = { λ letters. record { places = padded letters; len = length letters } };

    ghost inverse_ok = { λ a h. padded_take a.len a.places h (λ places len. record { places = places; len = len }) };
}

impl PartialEq for Name {
    ghost eq = { pointwise nat_eq };

    ghost laws = { partial_equiv_from_equiv nat_list_eq_equiv };

    fn eq(&self, other: &Name) -> bool {
        self.letters() == other.letters()
    }
}

impl Eq for Name {
    ghost laws = { nat_list_eq_equiv };
}

impl PartialOrd for Name {
    ghost partial_cmp = { λ x y. Some (slice_cmp nat_cmp x y) };

    ghost laws = { texts_po };

    fn partial_cmp(&self, other: &Name) -> Option<Ordering> {
        Some(self.cmp(other))
    }
}

// By the letters.
impl Ord for Name {
    ghost cmp = { slice_cmp nat_cmp };

    ghost total = { nat_list_cmp_total };

    ghost matches_partial_cmp = { λ x y. refl };

    ghost matches_eq = { texts_ties };

    fn cmp(&self, other: &Name) -> Ordering {
        self.letters().cmp(other.letters())
    }
}

impl Name {
    /// The name that a word is. `LongName` if it has more than 16 bytes, else `Name` if it is none.
    pub fn read(word: &str) -> Result<Self, LineFault>
        ensures { result ≡ name_of word.now }
    {
        Name::of_word(word.as_bytes())
    }

    /// The same of a word's bytes.
    pub(crate) fn of_word(letters: &[u8]) -> Result<Self, LineFault>
        ensures { result ≡ name_of letters.now }
    {
        if letters.len() > NAME_LIMIT {
            return Err(LineFault::LongName);
        }
        if letters.is_empty() {
            return Err(LineFault::Name);
        }
        match Name::of_letters(letters) {
            Some(name) => Ok(name),
            None => Err(LineFault::Name),
        }
    }

    fn letters(&self) -> &[u8]
        ensures { result.now ≡ self.now }
    {
        &self.places[..self.len]
    }

    /// The name of these bytes, if each is a letter of names.
    fn of_letters(letters: &[u8]) -> Option<Self>
        requires { length letters.now ≤ 16 }
        ensures { result ≡ (if list_all is_name_letter letters.now then Some letters.now else None) }
    {
        let mut places = [0; NAME_LIMIT];
        for i in 0..letters.len() {
            let letter = letters[i];
            if !is_name_letter(letter) {
                return None;
            }
            places[i] = letter;
        }
        Some(Name {
            places,
            len: letters.len(),
        })
    }
}

fn is_name_letter(letter: u8) -> bool
    ensures { result ≡ is_name_letter letter }
{
    letter.is_ascii_lowercase() || letter.is_ascii_digit()
}
