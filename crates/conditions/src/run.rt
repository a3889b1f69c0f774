// Runs of valid words round a ring, against a limit.
ghost use Rattle.std.specs.Prelude.{◌≡◌, ◌+◌, ◌*◌, ◌≤◌, ◌<◌, T, leb, length};
ghost use Rattle.bits.specs.Bits.{all_bits};
ghost use Rattle.conditions.specs.Runs.{valid_words, longest, longest_round};
ghost use Rattle.conditions.specs.UpToInvalid.{up_to_invalid};

use crate::ring;

// Of count words from place p on, going round, how many there are up to and with the last invalid one; 0 where all are valid.
fn up_to_invalid(b: &[u8], p: usize, count: usize) -> usize
    requires { T (all_bits b.now) × ((p < length b.now) × (11 * count ≤ length b.now)) }
    ensures { result ≡ up_to_invalid count p b.now }
{
    for k in (0..count).rev() {
        if !ring::is_word_at(b, ring::place_after(p, 11 * k, b.len())) {
            return k + 1;
        }
    }
    0
}

// Whether no run of valid words over limit begins at one of the first `starts` words from place p on, going round. One that does has span
// valid words: none of the next span words up to the last invalid one can begin it.
pub fn none_over(b: &[u8], p: usize, starts: usize, limit: usize) -> bool
    requires are_bits { T (all_bits b.now) × (p < length b.now) }
    requires starts_in_bounds { (11 * starts ≤ length b.now) × (11 * (limit + 1) ≤ length b.now) }
    ensures { result ≡ leb (longest (valid_words (starts + limit) p b.now)) limit }
{
    let span = limit + 1;
    let mut at = p;
    let mut i: usize = 0;
    // A while, since i goes on past the last invalid word, and not by one.
    while i < starts {
        let past = up_to_invalid(b, at, span);
        if past == 0 {
            return false;
        }
        at = ring::place_after(at, 11 * past, b.len());
        i += past;
    }
    true
}

// Whether no run of valid words round the ring, whose words from place p on are `words`, exceeds limit: one that does begins at one of these.
pub fn within(b: &[u8], p: usize, words: usize, limit: usize) -> bool
    requires are_bits { T (all_bits b.now) × (p < length b.now) }
    requires words_value { (11 * words ≡ length b.now) × (limit < words) }
    ensures { result ≡ leb (longest_round (valid_words words p b.now)) limit }
{
    none_over(b, p, words, limit)
}
