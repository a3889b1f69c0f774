// The turn of a window from its remainder by f (document 01, "Search, reading and place"): turned by s, every telegram
// leaves the remainder of g times x^s.
ghost use Rattle.std.specs.Prelude.{◌≡◌, ◌<◌};
ghost use Rattle.bits.specs.Bits.{number_of, bits_of};
ghost use Rattle.formats.specs.Numbers.{numbers_of};
ghost use Rattle.cyclic.specs.Check.{turn_remainder, turn_of};

use crate::division::DivisionRegister;
use formats::format::Format;

// The remainder of g by f, that of turn 0.
pub fn unturned(format: Format) -> u64
    ensures { result ≡ number_of (turn_remainder (numbers_of format) 0) }
{
    match format {
        Format::Long => 771,
        Format::Short => 822,
    }
}

// The turn whose remainder by f this is, or none.
pub fn turn(format: Format, remainder: u64) -> Option<usize>
    requires { remainder < 1024 }
    ensures { result ≡ turn_of (numbers_of format) (bits_of 10 remainder) }
{
    let f = format.f();
    let divisor = f.low;
    let n = format.telegram_bits();
    let mut turned = unturned(format);
    for s in 0..n {
        if turned == remainder {
            return Some(s);
        }
        turned = turned.step(0, divisor, 10);
    }
    None
}
