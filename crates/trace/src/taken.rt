// What a part of a form takes of a text.
ghost use Rattle.std.specs.Prelude.{◌≡◌};
ghost use Rattle.trace.specs.Forms.{octets_taken, letter_taken, gap_taken, taken, taken_len};

use crate::digit::pair_count;
use crate::form::{Gap, Part};
use crate::line::starts;
use crate::number::{Number, address, decimal};

#[derive(Clone, Copy, Debug, PartialEq, Eq)]
pub(crate) enum Taken {
    // A character.
    Letter,
    Value(Number),
    // Octets, by their count: two characters each.
    Octets(u16),
}

impl Taken {
    // How many characters they are.
    pub(crate) fn len(self) -> usize
        ensures { result ≡ taken_len self }
    {
        match self {
            Taken::Letter => 1,
            Taken::Value(number) => number.len,
            Taken::Octets(count) => 2 * usize::from(count),
        }
    }
}

// The octets that fill a gap; else where reading stops, as below.
#[tactic(auto, unfolding(crate::specs::Forms::octets_taken))]
fn octets_taken(text: &[u8]) -> Result<Taken, usize>
    ensures { result ≡ octets_taken text.now }
{
    match u16::try_from(pair_count(text)) {
        Ok(count) => Ok(Taken::Octets(count)),
        Err(_) => Err(0),
    }
}

// What fills a gap.
fn gap_taken(gap: Gap, text: &[u8]) -> Result<Taken, usize>
    ensures { result ≡ gap_taken gap text.now }
{
    match gap {
        Gap::Octets => octets_taken(text),
        Gap::Address => Ok(Taken::Value(address(text)?)),
        _ => {
            let most = gap.limit().ok_or(0usize)?;
            let number = decimal(text, most).ok_or(0usize)?;
            Ok(Taken::Value(number))
        }
    }
}

// A character that stands as it is.
#[tactic(auto, unfolding(crate::specs::Forms::letter_taken))]
fn letter_taken(letter: u8, text: &[u8]) -> Result<Taken, usize>
    ensures { result ≡ letter_taken letter text.now }
{
    if starts(text, letter) {
        Ok(Taken::Letter)
    } else {
        Err(0)
    }
}

// What a part of a form takes of a text; else how many characters stand before the fault.
pub(crate) fn part_taken(part: Part, text: &[u8]) -> Result<Taken, usize>
    ensures { result ≡ taken part text.now }
{
    match part {
        Part::Letter(letter) => letter_taken(letter, text),
        Part::Gap(gap) => gap_taken(gap, text),
    }
}
