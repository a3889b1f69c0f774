// Remainders of bits, the earliest the coefficient of the highest power, by f, g and f*g (document 01, "Check bits").
// That a remainder is below 2 to the degree of its divisor is a clause of each, since the degrees differ.
ghost use Rattle.std.specs.Prelude.{◌≡◌, ◌^◌, ◌<◌, T, drop};
ghost use Rattle.bits.specs.Bits.{all_bits, number_of, bits_of};
ghost use Rattle.formats.specs.Numbers.{numbers_of, f_of, g_of, fg_of};
ghost use Rattle.formats.specs.Value.{value_of};
ghost use Rattle.cyclic.specs.Remainder.{remainder, remainder_from};

use crate::division;
use formats::format::Format;
use formats::register::Register;

// The register of a division by f*g, from start on.
pub(crate) fn remainder_from_fg(format: Format, start: Register, bits: &[u8]) -> Register
    requires start_bound { value_of start < 2 ^ 85 }
    requires are_bits { T (all_bits bits.now) }
    ensures result_value { value_of result ≡ number_of (remainder_from (drop 1 (fg_of (numbers_of format))) (bits_of 85 (value_of start)) bits.now) }
    ensures result_bound { value_of result < 2 ^ 85 }
{
    division::run(format.fg(), 85, start, bits)
}

// The remainder by f*g.
pub fn remainder_fg(format: Format, bits: &[u8]) -> Register
    requires { T (all_bits bits.now) }
    ensures result_value { value_of result ≡ number_of (remainder (fg_of (numbers_of format)) bits.now) }
    ensures result_bound { value_of result < 2 ^ 85 }
{
    division::remainder(format.fg(), 85, bits)
}

// The remainder by g.
pub fn remainder_g(format: Format, bits: &[u8]) -> Register
    requires { T (all_bits bits.now) }
    ensures result_value { value_of result ≡ number_of (remainder (g_of (numbers_of format)) bits.now) }
    ensures result_bound { value_of result < 2 ^ 75 }
{
    division::remainder(format.g(), 75, bits)
}

// The remainder by f.
pub fn remainder_f(format: Format, bits: &[u8]) -> u64
    requires { T (all_bits bits.now) }
    ensures value { result ≡ number_of (remainder (f_of (numbers_of format)) bits.now) }
    ensures upper_bound { result < 2 ^ 10 }
{
    division::remainder(format.f().low, 10, bits)
}
