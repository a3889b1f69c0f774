// Telegrams (document 01, "The telegram, left to right"): one made from a block, the scrambling bits and the extra shaping
// bits, the fields of one, and one taken back to its block.
#![tactic(auto)]

ghost use Rattle.std.specs.Prelude.{◌≡◌, T, length};
ghost use Rattle.bits.specs.Bits.{all_bits};
ghost use Rattle.formats.specs.Numbers.{numbers_of};

use formats::format::Format;

pub mod fields;
pub mod making;
pub mod undoing;

// A block of user bits, as many as its format has.
#[derive(Clone, Copy)]
pub struct Block<'a> {
    pub format: Format,
    pub bits: &'a [u8],
    ghost are_bits: { T (all_bits bits.now) },
    ghost size: { length bits.now ≡ (numbers_of format).m },
}

// A telegram: as many bits as its format has.
#[derive(Clone, Copy)]
pub struct Telegram<'a> {
    pub format: Format,
    pub bits: &'a [u8],
    ghost are_bits: { T (all_bits bits.now) },
    ghost size: { length bits.now ≡ (numbers_of format).n },
}

// The scrambling bits B and the extra shaping bits esb of a telegram, as numbers: any two, since what makes a telegram is defined of any. Where
// they are to be numbers of twelve and ten bits a clause says so.
#[derive(Clone, Copy)]
pub struct Pair {
    pub scrambling: u16,
    pub shaping: u16,
}
