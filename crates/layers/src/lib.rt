// The layers' functions for a caller in another language. Each meets the definition that the function it calls meets.
// A format is passed as `long`, and a register as two words, the high one first.
#![tactic(auto)]

ghost use Rattle.std.specs.Prelude.{◌≡◌, List, ◌++◌, ℕ, ◌+◌, ◌/◌, ◌<◌, ◌≤◌, T, length, take, drop};
ghost use Rattle.bits.specs.Bits.{all_bits, number_of, bits_of, flip};
ghost use Rattle.formats.specs.Numbers.{f_of, g_of, fg_of};
ghost use Rattle.formats.specs.Value.{value_of};
ghost use Rattle.words.specs.Words.{word_of, lookup_of, in_group250, in_group20};
ghost use Rattle.scrambling.specs.Scrambling.{scrambled, descrambled};
ghost use Rattle.scrambling.specs.Sum.{with_sum, without_sum};
ghost use Rattle.cyclic.specs.Remainder.{remainder};
ghost use Rattle.cyclic.specs.Check.{check_bits, turn_of};
ghost use Rattle.conditions.specs.Conditions.{off_step_within, not_repeating, thinned_within};
ghost use Rattle.refusals.specs.Outcome.{outcome};
ghost use Rattle.captures.specs.Captures.{first_place};
ghost use Rattle.captures.specs.Attempts.{out_found};
ghost use Rattle.layers.specs.Crossing.{format_of, numbers, number_or_kind, turn_or, place_or, two_words};

use captures::Found;
use conditions::{off_step, repeating, thinned};
use cyclic::{check_bits, remainder, turning};
use formats::format::{Format, Long};
use formats::register::Register;
use refusals::Refusal;
use telegrams::Telegram;

// Whether every byte of s is 0 or 1.
pub fn balise_layers_all_bits(s: &[u8]) -> bool
    ensures { result ≡ all_bits s.now }
{
    bits::all_bits(s)
}

// The number of the k bits of s from index at on.
pub fn balise_layers_number(s: &[u8], at: usize, k: usize) -> u32
    requires { (at + k ≤ length s.now) × ((k < 32) × T (all_bits s.now)) }
    ensures { result ≡ number_of (take k (drop at s.now)) }
{
    bits::number(s, at, k)
}

// Writes the lowest k binary digits of x into the front of out.
pub fn balise_layers_write_number(out: &mut [u8], k: usize, x: u32)
    requires { (k ≤ 32) × (k ≤ length out.old) }
    ensures { out.new ≡ bits_of k x ++ drop k out.old }
{
    bits::write_number(out, k, x);
}

// Turns each bit of s into the other.
pub fn balise_layers_flip(s: &mut [u8])
    requires { T (all_bits s.old) }
    ensures { s.new ≡ flip s.old }
{
    bits::flip(s);
}

// The word of the number i.
pub fn balise_layers_word(i: u16) -> u16
    requires { i < 1024 }
    ensures { result ≡ word_of i }
{
    words::word(i)
}

// The number of a word, or 1024 and the number of its kind where the table does not have it.
pub fn balise_layers_look_up(word: u16) -> u16
    ensures { result ≡ number_or_kind (lookup_of word) }
{
    let found = words::look_up(word);
    match found {
        Ok(i) => i,
        Err(kind) => 1024 + kind.number(),
    }
}

// Whether a word is in the group of 250 barred words.
pub fn balise_layers_in_group_250(word: u16) -> bool
    ensures { result ≡ in_group250 word }
{
    words::in_group_250(word)
}

// Whether a word is in the group of 20 barred words.
pub fn balise_layers_in_group_20(word: u16) -> bool
    ensures { result ≡ in_group20 word }
{
    words::in_group_20(word)
}

// Scrambles a block into the front of out.
pub fn balise_layers_scramble(b: u16, block: &[u8], out: &mut [u8])
    requires are_bits { T (all_bits block.now) }
    requires block_in_bounds { length block.now ≤ length out.old }
    ensures { out.new ≡ scrambled b block.now ++ drop (length block.now) out.old }
{
    scrambling::scramble(b, block, out);
}

// Descrambles a block into the front of out.
pub fn balise_layers_descramble(b: u16, block: &[u8], out: &mut [u8])
    requires are_bits { T (all_bits block.now) }
    requires block_in_bounds { length block.now ≤ length out.old }
    ensures { out.new ≡ descrambled b block.now ++ drop (length block.now) out.old }
{
    scrambling::descramble(b, block, out);
}

// Replaces the first block of ten bits by the sum of all blocks modulo 1024.
pub fn balise_layers_add_sum(block: &mut [u8])
    requires are_bits { T (all_bits block.old) }
    requires in_bounds { 10 ≤ length block.old }
    requires block_len_bound { length block.old ≤ 1000 }
    ensures { block.new ≡ with_sum (length block.old / 10) block.old }
{
    scrambling::add_sum(block);
}

// Takes the other blocks from the first modulo 1024.
pub fn balise_layers_remove_sum(block: &mut [u8])
    requires are_bits { T (all_bits block.old) }
    requires in_bounds { 10 ≤ length block.old }
    requires block_len_bound { length block.old ≤ 1000 }
    ensures { block.new ≡ without_sum (length block.old / 10) block.old }
{
    scrambling::remove_sum(block);
}

// The format that `long` stands for: C has no other name for it.
fn format_of(long: bool) -> Format
    ensures { result ≡ format_of long }
{
    if long { Format::Long } else { Format::Short }
}

// The format's telegram bits.
pub fn balise_layers_telegram_bits(long: bool) -> usize
    ensures { result ≡ (numbers long).n }
{
    let format = format_of(long);
    format.telegram_bits()
}

// The format's user bits.
pub fn balise_layers_user_bits(long: bool) -> usize
    ensures { result ≡ (numbers long).m }
{
    let format = format_of(long);
    format.user_bits()
}

// How many bits at the end of the format's window repeat its first.
pub fn balise_layers_extra_bits(long: bool) -> usize
    ensures { result ≡ (numbers long).r }
{
    let format = format_of(long);
    format.extra_bits()
}

// The format's words.
pub fn balise_layers_words(long: bool) -> usize
    ensures { result ≡ (numbers long).words }
{
    let format = format_of(long);
    format.words()
}

// Writes a register's two words into the front of out.
fn write_words(r: Register, out: &mut [u64])
    requires { 2 ≤ length out.old }
    ensures { out.new ≡ two_words (value_of r) ++ drop 2 out.old }
{
    out[0] = r.high;
    out[1] = r.low;
}

// The remainder of bits by f.
pub fn balise_layers_remainder_f(long: bool, bits: &[u8]) -> u64
    requires { T (all_bits bits.now) }
    ensures { result ≡ number_of (remainder (f_of (numbers long)) bits.now) }
{
    let format = format_of(long);
    remainder::remainder_f(format, bits)
}

// The remainder of bits by g, into the first two words of out.
pub fn balise_layers_remainder_g(long: bool, bits: &[u8], out: &mut [u64])
    requires are_bits { T (all_bits bits.now) }
    requires in_bounds { 2 ≤ length out.old }
    ensures { out.new ≡ two_words (number_of (remainder (g_of (numbers long)) bits.now)) ++ drop 2 out.old }
{
    let format = format_of(long);
    let rest = remainder::remainder_g(format, bits);
    write_words(rest, out);
}

// The remainder of bits by f*g, into the first two words of out.
pub fn balise_layers_remainder_fg(long: bool, bits: &[u8], out: &mut [u64])
    requires are_bits { T (all_bits bits.now) }
    requires in_bounds { 2 ≤ length out.old }
    ensures { out.new ≡ two_words (number_of (remainder (fg_of (numbers long)) bits.now)) ++ drop 2 out.old }
{
    let format = format_of(long);
    let rest = remainder::remainder_fg(format, bits);
    write_words(rest, out);
}

// The check bits of the bits above them, into the first 85 bytes of out.
pub fn balise_layers_check_bits(long: bool, bits: &[u8], out: &mut [u8])
    requires are_bits { T (all_bits bits.now) }
    requires in_bounds { 85 ≤ length out.old }
    ensures { out.new ≡ check_bits (numbers long) bits.now ++ drop 85 out.old }
{
    let format = format_of(long);
    let rest = check_bits::check_bits(format, bits);
    check_bits::write_check_bits(rest, out);
}

// The turn that a remainder by f belongs to, or the telegram's length where none does.
pub fn balise_layers_turn(long: bool, remainder: u64) -> usize
    requires { remainder < 1024 }
    ensures { result ≡ turn_or (numbers long).n (turn_of (numbers long) (bits_of 10 remainder)) }
{
    let format = format_of(long);
    let turn = turning::turn(format, remainder);
    turn.unwrap_or(format.telegram_bits())
}

// Whether condition 2 holds of a telegram's bits.
pub fn balise_layers_off_step(long: bool, telegram: &[u8]) -> bool
    requires { T (all_bits telegram.now) × (length telegram.now ≡ (numbers long).n) }
    ensures { result ≡ off_step_within (format_of long) telegram.now }
{
    let format = format_of(long);
    off_step::within(Telegram {
        format,
        bits: telegram,
    })
}

// Whether condition 3 holds of a telegram's bits.
pub fn balise_layers_not_repeating(long: bool, telegram: &[u8]) -> bool
    requires { T (all_bits telegram.now) × (length telegram.now ≡ (numbers long).n) }
    ensures { result ≡ not_repeating (format_of long) telegram.now }
{
    let format = format_of(long);
    repeating::not_repeating(Telegram {
        format,
        bits: telegram,
    })
}

// Whether condition 4 holds of a telegram's bits.
pub fn balise_layers_thinned_out(long: bool, telegram: &[u8]) -> bool
    requires { T (all_bits telegram.now) × (length telegram.now ≡ (numbers long).n) }
    ensures { result ≡ thinned_within (format_of long) telegram.now }
{
    let format = format_of(long);
    thinned::within(Telegram {
        format,
        bits: telegram,
    })
}

// The place of what a search without the tests of the calls found, or `none` where it found nothing.
fn place_or(none: usize, found: Result<Found, Refusal>) -> usize
    ensures { (s out o : List ℕ) → out_found s out (first_place s) ≡ outcome found o → result ≡ place_or none (first_place s) }
{
    match found {
        Ok(found) => found.place,
        Err(_) => none,
    }
}

// The first place at which a capture of any length, without the limit of the calls, has a window that read accepts; the capture's length
// where it has none.
pub fn balise_layers_first_place(capture: &[u8]) -> usize
    requires { T (all_bits capture.now) }
    ensures { result ≡ place_or (length capture.now) (first_place capture.now) }
{
    let mut output = [0u8; Long::M];
    let found = quick_search::search_bits(capture, &mut output);
    place_or(capture.len(), found)
}

// The same by the plain search, for comparison.
pub fn balise_layers_first_place_plain(capture: &[u8]) -> usize
    requires { T (all_bits capture.now) }
    ensures { result ≡ place_or (length capture.now) (first_place capture.now) }
{
    let mut output = [0u8; Long::M];
    let plain = captures::search_bits(capture, &mut output);
    place_or(capture.len(), plain)
}
