// A polynomial over two elements of degree below 128, in two machine words: the coefficient of x^i is
// bit i of high * 2^64 + low. The register of a division by g or f*g, and the divisor itself, are such.
ghost use Rattle.std.specs.Prelude.{◌≡◌, ◌<◌, ◌^◌, T};
ghost use Rattle.std.specs.Int.Bits.{bit_xor};
ghost use Rattle.formats.specs.Value.{value_of, powers, all_below};

use std::ops::BitXor;

#[derive(Clone, Copy, PartialEq, Eq)]
pub struct Register {
    pub high: u64,
    pub low: u64,
}

impl Register {
    // The polynomial 0.
    pub fn zero() -> Self
        ensures { value_of result ≡ 0 }
    {
        Self { high: 0, low: 0 }
    }

    // With x^e added: a bit of one of two words, which no method of the library has.
    pub fn plus_power(self, e: u8) -> Self
        requires { e < 128 }
        ensures { value_of result ≡ bit_xor (value_of self) (2 ^ e) }
    {
        if e < 64 {
            Self {
                high: self.high,
                low: self.low ^ (1u64 << e),
            }
        } else {
            Self {
                high: self.high ^ (1u64 << (e - 64)),
                low: self.low,
            }
        }
    }

    // The polynomial with these exponents.
    pub fn of(exponents: &[u8]) -> Self
        requires { T (all_below 128 exponents.now) }
        ensures { value_of result ≡ powers 0 exponents.now }
    {
        let mut sum = Register::zero();
        for e in exponents {
            sum = sum.plus_power(*e);
        }
        sum
    }
}

// The sum of two polynomials.
impl BitXor for Register {
    type Output = Self;

    ghost bitxor_gives = { λ a b sum. value_of sum ≡ bit_xor (value_of a) (value_of b) };

    fn bitxor(self, rhs: Self) -> Self {
        Self {
            high: self.high ^ rhs.high,
            low: self.low ^ rhs.low,
        }
    }
}
