// Whether bits have the remainders of a telegram that is not turned: 0 by g, and that of g by f.
ghost use Rattle.std.specs.Prelude.{◌≡◌, T};
ghost use Rattle.bits.specs.Bits.{all_bits};
ghost use Rattle.formats.specs.Numbers.{numbers_of};
ghost use Rattle.cyclic.specs.Check.{divisible, unturned};

use crate::{remainder, turning};
use formats::format::Format;
use formats::register::Register;

// Whether g divides the bits.
pub fn divisible(format: Format, bits: &[u8]) -> bool
    requires { T (all_bits bits.now) }
    ensures { result ≡ divisible (numbers_of format) bits.now }
{
    let rest = remainder::remainder_g(format, bits);
    rest == Register::zero()
}

// Whether the remainder by f is that of turn 0.
pub fn unturned(format: Format, bits: &[u8]) -> bool
    requires { T (all_bits bits.now) }
    ensures { result ≡ unturned (numbers_of format) bits.now }
{
    let rest = remainder::remainder_f(format, bits);
    rest == turning::unturned(format)
}
