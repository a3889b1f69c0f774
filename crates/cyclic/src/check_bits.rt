// The check bits b84 to b0 (document 01, "Check bits"): the remainder of the bits above them by f*g, plus g.
ghost use Rattle.std.specs.Prelude.{◌≡◌, ◌/◌, ◌%◌, ◌^◌, ◌<◌, ◌≤◌, T, ◌++◌, length, drop};
ghost use Rattle.bits.specs.Bits.{all_bits, number_of, bits_of};
ghost use Rattle.formats.specs.Numbers.{numbers_of};
ghost use Rattle.formats.specs.Value.{value_of};
ghost use Rattle.cyclic.specs.Check.{check_bits};

use crate::remainder;
use formats::format::Format;
use formats::register::Register;

// The check bits of the bits above them.
pub fn check_bits(format: Format, bits: &[u8]) -> Register
    requires { T (all_bits bits.now) }
    ensures result_value { value_of result ≡ number_of (check_bits (numbers_of format) bits.now) }
    ensures result_bound { value_of result < 2 ^ 85 }
{
    let zeros = [0u8; 85];
    let above = remainder::remainder_fg(format, bits);
    let rest = remainder::remainder_from_fg(format, above, &zeros);
    rest ^ format.g()
}

// The coefficient of x^e: a bit of one of two words, which no method of the library has.
fn coefficient(r: Register, e: usize) -> u8
    requires { e < 128 }
    ensures { result ≡ value_of r / 2 ^ e % 2 }
{
    if e < 64 {
        ((r.low >> e) % 2) as u8
    } else {
        ((r.high >> (e - 64)) % 2) as u8
    }
}

// The coefficients of x^84 to x^0 into the first 85 bytes of out.
pub fn write_check_bits(r: Register, out: &mut [u8])
    requires { 85 ≤ length out.old }
    ensures { out.new ≡ bits_of 85 (value_of r) ++ drop 85 out.old }
{
    for i in 0..85 {
        out[i] = coefficient(r, 84 - i);
    }
}
