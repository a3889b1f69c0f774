// Reading the telegram that a window has at a turn (document 01, "Search, reading and place"; document 02, No. 2 and No. 13).
ghost use Rattle.std.specs.Prelude.{◌≡◌, ◌≤◌, T, length};
ghost use Rattle.bits.specs.Bits.{all_bits};
ghost use Rattle.formats.specs.Numbers.{numbers_of, window_bits};
ghost use Rattle.refusals.specs.Outcome.{outcome};
ghost use Rattle.reader.specs.AtTurn.{asked_failing, read_telegram, read_at_turn};

use crate::{Asked, Reading, Window, turned};
use formats::format::{Format, Long};
use refusals::Refusal;
use telegrams::{Telegram, fields, undoing};

// That the conditions that are asked for hold, or the refusal of the first that fails.
fn first_failing(asked: Asked, telegram: Telegram<'_>) -> Result<(), Refusal>
    ensures { result ≡ asked_failing asked telegram.entry.format telegram.entry.bits.now }
{
    match asked {
        Asked::WellFormed => Ok(()),
        Asked::Proper => conditions::first_failing(telegram),
    }
}

// Reads the telegram found at the turn t.
fn read_telegram(
    asked: Asked,
    t: usize,
    flipped: bool,
    telegram: Telegram<'_>,
    output: &mut [u8],
) -> Result<Reading, Refusal>
    requires { (numbers_of telegram.format).m ≤ length output.old }
    ensures { read_telegram asked telegram.entry.format t flipped telegram.entry.bits.now output.old ≡ outcome result output.new }
{
    let format = telegram.format;
    if !fields::has_control(format, telegram.bits) {
        return Err(Refusal::Control);
    }
    let mut unshaped = [0u8; 10 * Long::WORDS];
    let words = format.words();
    undoing::unshape(telegram.bits, words, &mut unshaped)?;
    first_failing(asked, telegram)?;
    let b = fields::scrambling_bits(format, telegram.bits);
    let esb = fields::shaping_bits(format, telegram.bits);
    let m = format.user_bits();
    undoing::write_user_bits(b, &unshaped[..m], output);
    Ok(Reading {
        format,
        scrambling: b,
        shaping: esb,
        turn: t,
        flipped,
    })
}

// Reads the telegram that the window has at the turn t.
pub fn read_turned(
    asked: Asked,
    t: usize,
    window: Window<'_>,
    output: &mut [u8],
) -> Result<Reading, Refusal>
    requires t_bound { t ≤ (numbers_of window.format).n }
    requires room { (numbers_of window.format).m ≤ length output.old }
    ensures { read_at_turn asked window.entry.format t window.entry.bits.now output.old ≡ outcome result output.new }
{
    read_parts(asked, t, window.format, window.bits, output)
}

// The same of a window's format and bits. They are not a Window here, and the function is not inlined, so that the compiler knows that the
// bits, which it is then lent by themselves, do not overlap the telegram that they are copied to: the copy needs no `memmove`.
#[inline(never)]
fn read_parts(
    asked: Asked,
    t: usize,
    format: Format,
    bits: &[u8],
    output: &mut [u8],
) -> Result<Reading, Refusal>
    requires are_bits { T (all_bits bits.now) }
    requires size { length bits.now ≡ window_bits (numbers_of format) }
    requires t_bound { t ≤ (numbers_of format).n }
    requires room { (numbers_of format).m ≤ length output.old }
    ensures { read_at_turn asked format t bits.now output.old ≡ outcome result output.new }
{
    let mut telegram = [0u8; Long::N];
    let flipped = turned::telegram_in(t, Window { format, bits }, &mut telegram);
    let n = format.telegram_bits();
    let found = Telegram {
        format,
        bits: &telegram[..n],
    };
    read_telegram(asked, t, flipped, found, output)
}
