// Condition 4, thinned (document 01, "Four conditions of a proper telegram").
ghost use Rattle.std.specs.Prelude.{◌≡◌, ◌++◌, ◌≤◌, ◌<◌, length, drop};
ghost use Rattle.conditions.specs.Conditions.{from_to, thinned_below, thinned_at, thinned_by, thinned_within};

use crate::{ring, run};
use formats::format::Long;
use telegrams::Telegram;

// Writes v(n-1) to v0, v(j) = b(j*step), over the front of out. From j to j-1 the place goes on by step.
fn thin(b: &[u8], step: usize, out: &mut [u8])
    requires { (length b.now ≤ length out.old) × ((0 < length b.now) × (step ≤ length b.now)) }
    ensures { out.new ≡ thinned_below (length b.now) step b.now ++ drop (length b.now) out.old }
{
    let n = b.len();
    let mut at = n - 1;
    for slot in out[..n].iter_mut() {
        at = ring::place_after(at, step, n);
        *slot = b[at];
    }
}

// Whether at each of the 11 alignments no run round the ring of v, a telegram thinned out, exceeds 30.
fn within_round(thinned: Telegram<'_>) -> bool
    ensures { result ≡ from_to 0 10 (thinned_at thinned.entry.format thinned.entry.bits.now) }
{
    let words = thinned.format.words();
    let v = thinned.bits;
    (0..11).all(|a| run::within(v, a, words, 30))
}

// Whether condition 4 holds at k.
fn thinned_by(telegram: Telegram<'_>, k: usize) -> bool
    requires { k ≤ 4 }
    ensures { result ≡ thinned_by telegram.entry.format telegram.entry.bits.now k }
{
    let mut v = [0u8; Long::N];
    let b = telegram.bits;
    thin(b, 1 << k, &mut v);
    let n = b.len();
    within_round(Telegram {
        format: telegram.format,
        bits: &v[..n],
    })
}

// Whether condition 4 holds.
pub fn within(telegram: Telegram<'_>) -> bool
    ensures { result ≡ thinned_within telegram.entry.format telegram.entry.bits.now }
{
    (1..5).all(|k| thinned_by(telegram, k))
}
