// Long division of polynomials over two elements: the bits come into a register one by one, and the divisor is added
// wherever its highest power comes up. One register has two words, for g and f*g; the other one, for f.
ghost use Rattle.std.specs.Prelude.{◌≡◌, ℕ, ◌/◌, ◌^◌, ◌<◌, ◌∷◌, T};
ghost use Rattle.bits.specs.Bits.{all_bits, number_of, bits_of};
ghost use Rattle.formats.specs.Value.{value_of};
ghost use Rattle.cyclic.specs.Machine.{step_v, Division};
ghost use Rattle.cyclic.specs.Remainder.{remainder, remainder_from};

use formats::register::Register;

// A register of a division, which also holds the divisor.
pub trait DivisionRegister: Copy {
    // The polynomial in it, as a number.
    ghost value: { Self → ℕ };

    // The degrees of the divisors that it has room for.
    ghost has_room: { ℕ → Type 0 };

    // The polynomial 0.
    fn zero() -> Self
        ensures { value result ≡ 0 };

    // The register after one more bit. The divisor's highest power, x^degree, comes up by the shift if the register's
    // highest bit is 1. The divisor is then added under a mask of all ones, otherwise of 0: a branch would be mispredicted half the time.
    fn step(self, b: u8, divisor: Self, degree: u8) -> Self
        requires room { has_room degree }
        requires s_bound { value self < 2 ^ degree }
        requires b_bound { b < 2 }
        ensures { value result ≡ step_v (value divisor) (2 ^ degree) (value self) b };
}

impl DivisionRegister for Register {
    ghost value = { value_of };

    ghost has_room = { λ k. (64 < k) × (k < 127) };

    fn zero() -> Self {
        Register::zero()
    }

    // The mask is taken before the shift, so that neither waits for the other.
    fn step(self, b: u8, divisor: Self, degree: u8) -> Self {
        let mask = std::num::wrapping_sub_u64(0, self.high >> (degree - 65));
        let high = self.high * 2 + (self.low >> 63);
        let low = (self.low << 1) + (b as u64);
        Register {
            high: high ^ (mask & divisor.high),
            low: low ^ (mask & divisor.low),
        }
    }
}

impl DivisionRegister for u64 {
    ghost value = { λ v. v };

    ghost has_room = { λ k. (0 < k) × (k < 63) };

    fn zero() -> Self {
        0
    }

    fn step(self, b: u8, divisor: Self, degree: u8) -> Self {
        let mask = std::num::wrapping_sub_u64(0, self >> (degree - 1));
        let shifted = self * 2 + (b as u64);
        shifted ^ (mask & divisor)
    }
}

// The register after some bits. The divisor's highest power is x^degree.
pub fn run<R: DivisionRegister>(divisor: R, degree: u8, start: R, bits: &[u8]) -> R
    requires room { R.has_room degree }
    requires division { Division degree (R.value divisor) (R.value start) bits.now }
    ensures result_value { R.value result ≡ number_of (remainder_from (bits_of degree (R.value divisor)) (bits_of degree (R.value start)) bits.now) }
    ensures result_bound { R.value result < 2 ^ degree }
{
    let mut r = start;
    for b in bits {
        r = r.step(*b, divisor, degree);
    }
    r
}

// The remainder of some bits. The divisor's highest power is x^degree.
pub fn remainder<R: DivisionRegister>(divisor: R, degree: u8, bits: &[u8]) -> R
    requires room { R.has_room degree }
    requires divisor_degree { R.value divisor / 2 ^ degree ≡ 1 }
    requires are_bits { T (all_bits bits.now) }
    ensures result_value { R.value result ≡ number_of (remainder (1 ∷ bits_of degree (R.value divisor)) bits.now) }
    ensures result_bound { R.value result < 2 ^ degree }
{
    run(divisor, degree, R::zero(), bits)
}
