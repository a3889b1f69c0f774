// Condition 2, off step (document 01, "Four conditions of a proper telegram"; document 02, No. 5).
ghost use Rattle.std.specs.Prelude.{◌≡◌};
ghost use Rattle.conditions.specs.Conditions.{limit_at, off_step_within};

use crate::run;
use formats::format::Format;
use telegrams::Telegram;

// The longest run allowed off step by p.
pub fn limit_at(format: Format, p: usize) -> usize
    ensures { result ≡ limit_at format p }
{
    match (format, p) {
        (_, 1 | 10) => 2,
        (Format::Long, _) => 10,
        (Format::Short, _) => 6,
    }
}

// Whether condition 2 holds.
pub fn within(telegram: Telegram<'_>) -> bool
    ensures { result ≡ off_step_within telegram.entry.format telegram.entry.bits.now }
{
    let format = telegram.format;
    let words = format.words();
    let b = telegram.bits;
    (1..11).all(|p| run::within(b, p, words, limit_at(format, p)))
}
