// A window whose bytes are known to be bits: for the calls of this crate, and for the search of a capture, which tests its
// bytes once. Not calls of the bench.
ghost use Rattle.std.specs.Prelude.{◌≡◌, length};
ghost use Rattle.formats.specs.Numbers.{numbers_of, window_bits};
ghost use Rattle.refusals.specs.Outcome.{outcome};
ghost use Rattle.reader.specs.Reads.{ends_agree, read_as};

use crate::{Asked, Reading, Window, telegram};
use cyclic::{divisors, remainder, turning};
use formats::format::Format;
use refusals::Refusal;

// Whether the window's last r bits repeat its first.
pub fn ends_agree(format: Format, window: &[u8]) -> bool
    requires { length window.now ≡ window_bits (numbers_of format) }
    ensures { result ≡ ends_agree (numbers_of format) window.now }
{
    let n = format.telegram_bits();
    let r = format.extra_bits();
    bits::same(&window[n..], &window[..r])
}

// Reads a window of the format, whose bytes are known to be bits. Read, output has the user bits in front; refused, it keeps every byte.
pub fn read_bits(asked: Asked, window: Window<'_>, output: &mut [u8]) -> Result<Reading, Refusal>
    ensures { read_as asked window.entry.format window.entry.bits.now output.old ≡ outcome result output.new }
{
    let format = window.format;
    if output.len() < format.user_bits() {
        return Err(Refusal::OutputShort);
    }
    if !ends_agree(format, window.bits) {
        return Err(Refusal::EndsDiffer);
    }
    let n = format.telegram_bits();
    if !divisors::divisible(format, &window.bits[..n]) {
        return Err(Refusal::NotDivisible);
    }
    let rest = remainder::remainder_f(format, &window.bits[..n]);
    let Some(t) = turning::turn(format, rest) else {
        return Err(Refusal::NoTurn);
    };
    telegram::read_turned(asked, t, window, output)
}
