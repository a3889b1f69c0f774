// Condition 3, of the long format only (document 01, "Four conditions of a proper telegram").
ghost use Rattle.std.specs.Prelude.{◌≡◌, ℕ, ◌-◌, ◌*◌, ◌≤◌, ◌<◌, length};
ghost use Rattle.formats.specs.Numbers.{long};
ghost use Rattle.conditions.specs.Conditions.{from_to, apart, shifted_apart, not_repeating};

use crate::ring;
use formats::format::{Format, Long};
use telegrams::Telegram;

// Whether the 22 bits from place p differ in at least d places from those that stand k places on. When d places differ, the others are
// not looked at.
fn apart(d: usize, b: &[u8], p: usize, k: usize) -> bool
    requires { (p < length b.now) × (k ≤ length b.now) }
    ensures { result ≡ apart d b.now p k }
{
    let mut count: usize = 0;
    let mut at = p;
    let mut other = ring::place_after(p, k, b.len());
    for _i in 0..22usize {
        if d <= count {
            return true;
        }
        if b[at] != b[other] {
            count += 1;
        }
        at = ring::place_after(at, 1, b.len());
        other = ring::place_after(other, 1, b.len());
    }
    d <= count
}

// Whether condition 3 holds where b(i-1) stands at place p, and b(i-341-k-1) 341+k places on.
fn shifted_apart(b: &[u8], p: usize) -> bool
    requires { (length b.now ≡ long.n) × (p < long.n) }
    ensures { result ≡ shifted_apart b.now p }
{
    apart(3, b, p, 341) && (1..4).all(|k| apart(2, b, p, 341 + k) && apart(2, b, p, 341 - k))
}

// Whether condition 3 holds at each word of a long telegram.
fn each_shifted_apart(b: &[u8]) -> bool
    requires { length b.now ≡ long.n }
    ensures { result ≡ from_to 0 (long.words - 1) (λ (j : ℕ). shifted_apart b.now (11 * j)) }
{
    (0..Long::WORDS).all(|j| shifted_apart(b, 11 * j))
}

// Whether condition 3 holds.
pub fn not_repeating(telegram: Telegram<'_>) -> bool
    ensures { result ≡ not_repeating telegram.entry.format telegram.entry.bits.now }
{
    match telegram.format {
        Format::Long => each_shifted_apart(telegram.bits),
        Format::Short => true,
    }
}
