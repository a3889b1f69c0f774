// A telegram made from a block of user bits, the scrambling bits b and the extra shaping bits esb (document 01, "The
// telegram, left to right").
ghost use Rattle.std.specs.Prelude.{◌≡◌, ◌++◌, ◌-◌, ◌*◌, ◌/◌, ◌^◌, ◌≤◌, ◌<◌, T, length, take, drop};
ghost use Rattle.bits.specs.Bits.{all_bits, bits_of};
ghost use Rattle.formats.specs.Numbers.{numbers_of, blocks};
ghost use Rattle.formats.specs.Value.{value_of};
ghost use Rattle.scrambling.specs.Scrambling.{scrambled};
ghost use Rattle.scrambling.specs.Sum.{with_sum};
ghost use Rattle.cyclic.specs.Check.{check_bits};
ghost use Rattle.telegrams.specs.Telegram.{shaped, is_pair, settings, telegram_of};

use crate::{Block, Pair};
use cyclic::check_bits;
use formats::format::{Format, Long};
use formats::register::Register;

// The words of the first k blocks of ten bits of scrambled, over the front of out.
pub fn shape(scrambled: &[u8], k: usize, out: &mut [u8])
    requires are_bits { T (all_bits scrambled.now) }
    requires k_in_bounds { 10 * k ≤ length scrambled.now }
    requires room { 11 * k ≤ length out.old }
    ensures { out.new ≡ shaped k scrambled.now ++ drop (11 * k) out.old }
{
    let entries = words::entries();
    for j in 0..k {
        let number = bits::number(scrambled, 10 * j, 10);
        let word = words::word_in(&entries, number as u16);
        let at = 11 * j;
        bits::write_number(&mut out[at..], 11, word as u32);
    }
}

// A block of user bits with its sum in it, over the front of out.
pub fn write_summed(block: &[u8], out: &mut [u8])
    requires are_bits { T (all_bits block.now) }
    requires in_bounds { (10 ≤ length block.now) × (length block.now ≤ 1000) }
    requires room { length block.now ≤ length out.old }
    ensures { out.new ≡ with_sum (length block.now / 10) block.now ++ drop (length block.now) out.old }
{
    let m = bits::copy(block, out);
    scrambling::add_sum(&mut out[..m]);
}

// The shaped data over the front of telegram, from a block that has its sum in it.
pub fn write_shaped_data(summed: Block<'_>, b: u16, telegram: &mut [u8])
    requires { (numbers_of summed.format).n ≤ length telegram.old }
    ensures { telegram.new ≡ shaped (blocks (numbers_of summed.entry.format)) (scrambled b summed.entry.bits.now) ++ drop (11 * blocks (numbers_of summed.entry.format)) telegram.old }
{
    let mut scrambled = [0u8; Long::M];
    scrambling::scramble(b, summed.bits, &mut scrambled);
    shape(&scrambled, summed.bits.len() / 10, telegram);
}

// Whether b and esb are numbers of twelve and ten bits.
pub fn is_pair(b: u64, esb: u64) -> bool
    ensures { result ≡ is_pair b esb }
{
    b <= 4095 && esb <= 1023
}

// Control bits, scrambling bits and extra shaping bits over the front of out.
pub fn write_settings(pair: Pair, out: &mut [u8])
    requires { 25 ≤ length out.old }
    ensures { out.new ≡ settings pair.scrambling pair.shaping ++ drop 25 out.old }
{
    bits::write_number(out, 3, 0b001);
    bits::write_number(&mut out[3..], 12, pair.scrambling as u32);
    bits::write_number(&mut out[15..], 10, pair.shaping as u32);
}

// After the shaped data: control bits, scrambling bits and extra shaping bits. The answer is the check bits of all that then stands before
// them.
pub fn settle(format: Format, pair: Pair, telegram: &mut [u8]) -> Register
    requires format_in_bounds { (numbers_of format).n ≤ length telegram.old }
    requires are_bits { T (all_bits (take ((numbers_of format).n - 110) telegram.old)) }
    ensures result_value { bits_of 85 (value_of result) ≡ check_bits (numbers_of format) (take ((numbers_of format).n - 110) telegram.old ++ settings pair.scrambling pair.shaping) }
    ensures result_bound { value_of result < 2 ^ 85 }
    ensures telegram_after { telegram.new ≡ (take ((numbers_of format).n - 110) telegram.old ++ settings pair.scrambling pair.shaping) ++ drop ((numbers_of format).n - 85) telegram.old }
{
    let n = format.telegram_bits();
    let at = n - 110;
    write_settings(pair, &mut telegram[at..]);
    let end = n - 85;
    check_bits::check_bits(format, &telegram[..end])
}

// After the shaped data: control bits, scrambling bits, extra shaping bits and the check bits of all before them.
pub fn complete(format: Format, pair: Pair, telegram: &mut [u8])
    requires format_in_bounds { (numbers_of format).n ≤ length telegram.old }
    requires are_bits { T (all_bits (take ((numbers_of format).n - 110) telegram.old)) }
    ensures { telegram.new ≡ (take ((numbers_of format).n - 110) telegram.old ++ settings pair.scrambling pair.shaping) ++ (check_bits (numbers_of format) (take ((numbers_of format).n - 110) telegram.old ++ settings pair.scrambling pair.shaping) ++ drop (numbers_of format).n telegram.old) }
{
    let register = settle(format, pair, telegram);
    let checked = format.telegram_bits() - 85;
    check_bits::write_check_bits(register, &mut telegram[checked..]);
}

// The telegram of a block of user bits, over the front of out.
pub fn make(block: Block<'_>, pair: Pair, out: &mut [u8])
    requires { (numbers_of block.format).n ≤ length out.old }
    ensures { out.new ≡ telegram_of (numbers_of block.entry.format) block.entry.bits.now pair.scrambling pair.shaping ++ drop (numbers_of block.entry.format).n out.old }
{
    let mut buffer = [0u8; Long::M];
    write_summed(block.bits, &mut buffer);
    let format = block.format;
    let m = block.bits.len();
    let summed = Block {
        format,
        bits: &buffer[..m],
    };
    write_shaped_data(summed, pair.scrambling, out);
    complete(format, pair, out);
}
