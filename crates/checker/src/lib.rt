// Checking a telegram (document 01, "When the bench says no": refusals 1, 2 and 6 to 12, the lowest that applies;
// document 02, No. 13).
#![tactic(auto)]

ghost use Rattle.std.specs.Prelude.{◌≡◌, T, length};
ghost use Rattle.bits.specs.Bits.{all_bits};
ghost use Rattle.formats.specs.Numbers.{numbers_of};
ghost use Rattle.telegrams.specs.Fields.{well_formed};
ghost use Rattle.checker.specs.Checking.{check_as, check_of};

use cyclic::divisors;
use formats::format::{Format, Short};
use refusals::Refusal;
use telegrams::{Telegram, fields};

// Refusals 10 to 12 of a well-formed telegram: conditions 2, 3 and 4.
fn check_conditions(telegram: Telegram<'_>) -> Result<Format, Refusal>
    requires { T (well_formed (numbers_of telegram.format) telegram.bits.now) }
    ensures { result ≡ check_as telegram.entry.format telegram.entry.bits.now }
{
    conditions::first_failing(telegram)?;
    Ok(telegram.format)
}

// Refusals 6 to 9 of as many bits as the format's telegram has, and then the conditions.
fn check_form(telegram: Telegram<'_>) -> Result<Format, Refusal>
    ensures { result ≡ check_as telegram.entry.format telegram.entry.bits.now }
{
    if !divisors::divisible(telegram.format, telegram.bits) {
        return Err(Refusal::NotDivisible);
    }
    if !divisors::unturned(telegram.format, telegram.bits) {
        return Err(Refusal::NoTurn);
    }
    if !fields::has_control(telegram.format, telegram.bits) {
        return Err(Refusal::Control);
    }
    fields::go_through(telegram.bits, telegram.format.words())?;
    check_conditions(telegram)
}

// The format of the proper telegram that the bytes are; else the lowest refusal that applies.
pub fn check(telegram: &[u8]) -> Result<Format, Refusal>
    ensures { result ≡ check_of telegram.now }
{
    let format = Format::of_length(Short::N, telegram.len());
    if telegram.len() != format.telegram_bits() {
        return Err(Refusal::Length);
    }
    if !bits::all_bits(telegram) {
        return Err(Refusal::NotBit);
    }
    check_form(Telegram {
        format,
        bits: telegram,
    })
}
