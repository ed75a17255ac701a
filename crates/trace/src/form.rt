// The parts of a form, and the kinds of its gaps (docs/TRACE.md, "Lines").
ghost use Rattle.std.specs.Prelude.{◌≡◌};
ghost use Rattle.std.specs.Iterator.{YieldsFirst, item_count};
ghost use Rattle.trace.specs.Gaps.{gap_of, limit_of};
ghost use Rattle.trace.specs.Forms.{parts_of};

// A gap begins with this character.
const PERCENT: u8 = b'%';

// What fills a gap, by the character behind its `%`.
#[derive(Clone, Copy, Debug, PartialEq, Eq)]
pub(crate) enum Gap {
    // A number in decimal, by its bits.
    Bit,
    U8,
    U16,
    U32,
    U64,
    Address,
    Octets,
    // No text fills it. A kind and not Option's None, since write_record fills it with a decimal number all the same.
    Unknown,
}

impl From<u8> for Gap {
    ghost from_gives = { λ kind gap. gap ≡ gap_of kind };

    #[tactic(auto, unfolding(crate::specs::Gaps::gap_of))]
    fn from(kind: u8) -> Gap {
        match kind {
            b'b' => Gap::Bit,
            b'c' => Gap::U8,
            b'h' => Gap::U16,
            b'w' => Gap::U32,
            b'q' => Gap::U64,
            b'a' => Gap::Address,
            b'x' => Gap::Octets,
            _ => Gap::Unknown,
        }
    }
}

impl Gap {
    // The largest number of a decimal gap.
    pub(crate) fn limit(self) -> Option<u64>
        ensures { result ≡ limit_of self }
    {
        match self {
            Gap::Bit => Some(1),
            Gap::U8 => Some(255),
            Gap::U16 => Some(65535),
            Gap::U32 => Some(4294967295),
            Gap::U64 => Some(u64::MAX),
            Gap::Address | Gap::Octets | Gap::Unknown => None,
        }
    }
}

// A part of a form: a character that stands as it is, or a gap.
#[derive(Clone, Copy, Debug, PartialEq, Eq)]
pub(crate) enum Part {
    Letter(u8),
    Gap(Gap),
}

// The parts of a form, in order.
#[derive(Clone, Copy, Debug)]
pub(crate) struct Parts<'a>(pub(crate) &'a [u8]);

impl<'a> Iterator for Parts<'a> {
    type Item = Part;

    ghost next_gives = { YieldsFirst (λ parts. parts_of parts.0.now) };

    ghost remaining = { item_count (λ parts. parts_of parts.0.now) };

    fn next(&mut self) -> Option<Part> {
        match self.0 {
            [] => None,
            [letter, rest @ ..] if *letter != PERCENT => {
                self.0 = rest;
                Some(Part::Letter(*letter))
            }
            [_, kind, rest @ ..] => {
                self.0 = rest;
                Some(Part::Gap(Gap::from(*kind)))
            }
            [_] => {
                self.0 = &[];
                Some(Part::Gap(Gap::Unknown))
            }
        }
    }
}
