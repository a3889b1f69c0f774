// The last 110 bits of a telegram, b109 to b0 (document 01, "The telegram, left to right"), as two numbers of 55 bits: no word lies in both.
ghost use Rattle.std.specs.Prelude.{◌≡◌, ◌++◌, ◌≤◌, ◌<◌, ◌^◌, length, drop};
ghost use Rattle.bits.specs.Bits.{bits_of};
ghost use Rattle.formats.specs.Polynomial.{sum};
ghost use Rattle.formats.specs.Value.{value_of};
ghost use Rattle.telegrams.specs.Telegram.{settings};
ghost use Rattle.telegrams.specs.Fields.{all_words};
ghost use Rattle.quick_encoder.specs.Tail.{tail_bits};

use formats::register::Register;
use std::ops::BitXor;
use telegrams::Pair;

// b109 to b55, and b54 to b0.
#[derive(Clone, Copy)]
pub struct Tail {
    pub high: u64,
    pub low: u64,
}

// The bits of both added, digit by digit.
impl BitXor for Tail {
    type Output = Tail;

    ghost bitxor_gives = { λ s t r. tail_bits r ≡ sum (tail_bits s) (tail_bits t) };

    fn bitxor(self, other: Tail) -> Tail {
        Tail {
            high: self.high ^ other.high,
            low: self.low ^ other.low,
        }
    }
}

// Control bits, scrambling bits, extra shaping bits and check bits, b84 to b0, in the register.
pub fn tail_of(pair: Pair, check: Register) -> Tail
    requires pair_bound { (pair.scrambling < 4096) × (pair.shaping < 1024) }
    requires check_bound { value_of check < 2 ^ 85 }
    ensures { tail_bits result ≡ settings pair.scrambling pair.shaping ++ bits_of 85 (value_of check) }
{
    let scrambling = pair.scrambling as u64;
    let shaping = pair.shaping as u64;
    let settings = 0x10000000000000 + 0x10000000000 * scrambling + 0x40000000 * shaping;
    Tail {
        high: settings + 512 * check.high + (check.low >> 55),
        low: check.low % 0x80000000000000,
    }
}

// Whether the five words of a number of 55 bits are all in the table.
fn five_words(x: u64) -> bool
    ensures { result ≡ all_words 5 (bits_of 55 x) }
{
    (0..5u32).all(|i| words::in_table(((x >> (44 - 11 * i)) % 2048) as u16))
}

// Whether all ten words are in the table, from the first on: the first two change least as esb is counted on, so that the processor foresees
// their branches.
pub fn all_words(tail: Tail) -> bool
    ensures { result ≡ all_words 10 (tail_bits tail) }
{
    five_words(tail.high) && five_words(tail.low)
}

// The 55 bits of a number over the front of out.
fn write_five_words(x: u64, out: &mut [u8])
    requires { 55 ≤ length out.old }
    ensures { out.new ≡ bits_of 55 x ++ drop 55 out.old }
{
    bits::write_number(out, 27, (x / 0x10000000 % 0x8000000) as u32);
    bits::write_number(&mut out[27..], 28, (x % 0x10000000) as u32);
}

// The 110 bits over the front of out.
pub fn write_tail(tail: Tail, out: &mut [u8])
    requires { 110 ≤ length out.old }
    ensures { out.new ≡ tail_bits tail ++ drop 110 out.old }
{
    write_five_words(tail.high, out);
    write_five_words(tail.low, &mut out[55..]);
}
