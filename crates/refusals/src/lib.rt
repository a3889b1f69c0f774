// The refusals and their numbers (document 01, "When the bench says no", in its order; 27 is document 02's, No. 11), and what
// refusals 4 and 9 carry (document 02, No. 13).
#![tactic(auto)]

ghost use Rattle.std.specs.Prelude.{◌≡◌};
ghost use Rattle.refusals.specs.Refused.{refusal_number, tried_count, bad_word_in};
ghost use Rattle.refusals.specs.declared.Refusal.TheVariants.{NotWord};

use words::{BadWord, Kind};

#[derive(Clone, Copy)]
pub enum Refusal {
    Length,
    NotBit,
    OutputShort,
    NoPair,
    EndsDiffer,
    NotDivisible,
    NoTurn,
    Control,
    NotWord(BadWord),
    OffStep,
    Repeating,
    Thinned,
    NoPlace,
    PairTooLarge,
}

// How many pairs of scrambling and extra shaping bits there are.
const PAIRS: u32 = 4194304;

impl Refusal {
    // The refusal's number. A method and not a From: u8::from would not say which number is meant.
    pub fn number(self) -> u8
        ensures { result ≡ refusal_number self }
    {
        match self {
            Refusal::Length => 1,
            Refusal::NotBit => 2,
            Refusal::OutputShort => 3,
            Refusal::NoPair => 4,
            Refusal::EndsDiffer => 5,
            Refusal::NotDivisible => 6,
            Refusal::NoTurn => 7,
            Refusal::Control => 8,
            Refusal::NotWord(_) => 9,
            Refusal::OffStep => 10,
            Refusal::Repeating => 11,
            Refusal::Thinned => 12,
            Refusal::NoPlace => 13,
            Refusal::PairTooLarge => 27,
        }
    }

    // The count of pairs tried that refusal 4 carries; 0 for every other.
    pub fn tried(self) -> u32
        ensures { result ≡ tried_count self }
    {
        match self {
            Refusal::NoPair => PAIRS,
            _ => 0,
        }
    }

    // The bad word that refusal 9 carries; for every other one whose numbers are 0.
    pub fn bad_word(self) -> BadWord
        ensures { result ≡ bad_word_in self }
    {
        match self {
            Refusal::NotWord(bad) => bad,
            _ => BadWord {
                kind: Kind::Other,
                index: 0,
            },
        }
    }
}

// A bad word is refusal 9, which carries it: `?` makes it so.
impl From<BadWord> for Refusal {
    ghost from_gives = { λ bad refusal. refusal ≡ NotWord bad };

    fn from(bad: BadWord) -> Self {
        Self::NotWord(bad)
    }
}
