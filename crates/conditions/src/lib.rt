// Conditions 2, 3 and 4 of a proper telegram (document 01, "Four conditions of a proper telegram").
// A telegram is b(n-1) to b0, one bit to a byte: b(i) stands at place n-1-i of the slice.
#![tactic(auto)]

ghost use Rattle.std.specs.Prelude.{◌≡◌, ◌&&◌};
ghost use Rattle.conditions.specs.Conditions.{off_step_within, not_repeating, thinned_within};
ghost use Rattle.conditions.specs.FirstFailing.{first_failing};

use refusals::Refusal;
use telegrams::Telegram;

pub mod off_step;
pub mod repeating;
mod ring;
pub mod run;
pub mod thinned;

// That conditions 2, 3 and 4 hold, or the refusal of the first that fails.
pub fn first_failing(telegram: Telegram<'_>) -> Result<(), Refusal>
    ensures { result ≡ first_failing telegram.entry.format telegram.entry.bits.now }
{
    if !off_step::within(telegram) {
        return Err(Refusal::OffStep);
    }
    if !repeating::not_repeating(telegram) {
        return Err(Refusal::Repeating);
    }
    if !thinned::within(telegram) {
        return Err(Refusal::Thinned);
    }
    Ok(())
}

// Whether conditions 2, 3 and 4 hold.
pub fn conditions(telegram: Telegram<'_>) -> bool
    ensures { result ≡ off_step_within telegram.entry.format telegram.entry.bits.now && (not_repeating telegram.entry.format telegram.entry.bits.now && thinned_within telegram.entry.format telegram.entry.bits.now) }
{
    first_failing(telegram).is_ok()
}
