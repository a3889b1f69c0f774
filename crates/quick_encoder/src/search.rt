// The quick search for the first pair, from a given one on, whose telegram is proper (document 02, No. 7). A B is dropped where the word with
// the control bits or the shaped data alone breaks a rule. From esb to esb the last ten words are added to, and tested before anything is written.
// The buffer that a telegram is written in is a plain slice with its format beside it: a type that lends it would have a ghost field beside a
// `&mut`, which the toolchain does not prove.
ghost use Rattle.std.specs.Prelude.{◌≡◌, ◌++◌, ◌+◌, ◌-◌, ◌*◌, ◌<◌, ◌≤◌, T, length, take};
ghost use Rattle.bits.specs.Bits.{all_bits};
ghost use Rattle.formats.specs.Numbers.{numbers_of, blocks};
ghost use Rattle.scrambling.specs.Scrambling.{scrambled};
ghost use Rattle.telegrams.specs.Telegram.{shaped};
ghost use Rattle.encoder.specs.Searched.{made_proper, pair_of};
ghost use Rattle.quick_encoder.specs.Tail.{tail_bits, tail_of};
ghost use Rattle.quick_encoder.specs.PairFrom.{pair_from, meets_conditions, shaping_from, shaping_at};

use crate::tail::Tail;
use crate::{change, data, tail};
use formats::format::{Format, Long};
use telegrams::{Block, Pair, Telegram, making};

// Whether the telegram that is completed by these 110 bits meets conditions 2, 3 and 4. It is written into the buffer.
fn meets_conditions(format: Format, tail: Tail, telegram: &mut [u8]) -> bool
    requires format_in_bounds { (numbers_of format).n ≤ length telegram.old }
    requires are_bits { T (all_bits (take ((numbers_of format).n - 110) telegram.old)) }
    ensures value { result ≡ meets_conditions format (take ((numbers_of format).n - 110) telegram.old ++ tail_bits tail) }
    ensures telegram_unchanged { take ((numbers_of format).n - 110) telegram.new ≡ take ((numbers_of format).n - 110) telegram.old }
{
    let n = format.telegram_bits();
    let at = n - 110;
    tail::write_tail(tail, &mut telegram[at..]);
    conditions::conditions(Telegram {
        format,
        bits: &telegram[..n],
    })
}

// Whether the telegram that is completed by these 110 bits passes: their words are tested first, and only where all are in the table is it
// written into the buffer, for the conditions.
fn passes(format: Format, tail: Tail, telegram: &mut [u8]) -> bool
    requires format_in_bounds { (numbers_of format).n ≤ length telegram.old }
    requires are_bits { T (all_bits (take ((numbers_of format).n - 110) telegram.old)) }
    ensures value { result ≡ made_proper format (take ((numbers_of format).n - 110) telegram.old ++ tail_bits tail) }
    ensures telegram_unchanged { take ((numbers_of format).n - 110) telegram.new ≡ take ((numbers_of format).n - 110) telegram.old }
{
    if !tail::all_words(tail) {
        return false;
    }
    meets_conditions(format, tail, telegram)
}

// The last 110 bits of the telegram that the shaped data in front of the buffer and the pair make. The settings are written.
fn first_tail(format: Format, pair: Pair, telegram: &mut [u8]) -> Tail
    requires format_in_bounds { (numbers_of format).n ≤ length telegram.old }
    requires are_bits { T (all_bits (take ((numbers_of format).n - 110) telegram.old)) }
    requires pair_bound { (pair.scrambling < 4096) × (pair.shaping < 1024) }
    ensures result_value { tail_bits result ≡ tail_of (numbers_of format) (take ((numbers_of format).n - 110) telegram.old) pair.scrambling pair.shaping }
    ensures telegram_unchanged { take ((numbers_of format).n - 110) telegram.new ≡ take ((numbers_of format).n - 110) telegram.old }
{
    let check = making::settle(format, pair, telegram);
    tail::tail_of(pair, check)
}

// The first esb, from the pair's on, with which the shaped data in front of the buffer and the pair's b make a telegram that passes.
fn first_shaping(format: Format, pair: Pair, telegram: &mut [u8]) -> Option<u16>
    requires format_in_bounds { (numbers_of format).n ≤ length telegram.old }
    requires are_bits { T (all_bits (take ((numbers_of format).n - 110) telegram.old)) }
    requires pair_bound { (pair.scrambling < 4096) × (pair.shaping < 1024) }
    ensures { result ≡ shaping_at (shaping_from format (take ((numbers_of format).n - 110) telegram.old) pair.scrambling pair.shaping) }
{
    let mut tail = first_tail(format, pair, telegram);
    for shaping in pair.shaping..1024 {
        if passes(format, tail, telegram) {
            return Some(shaping);
        }
        tail = change::next(format, tail, shaping);
    }
    None
}

// The same for the shaped data that the pair's b makes of a block with its sum; none where a rule is broken whatever esb is.
fn shaping_for(summed: Block<'_>, pair: Pair, telegram: &mut [u8]) -> Option<u16>
    requires room { (numbers_of summed.format).n ≤ length telegram.old }
    requires pair_bound { (pair.scrambling < 4096) × (pair.shaping < 1024) }
    ensures { result ≡ shaping_at (shaping_from summed.entry.format (shaped (blocks (numbers_of summed.entry.format)) (scrambled pair.scrambling summed.entry.bits.now)) pair.scrambling pair.shaping) }
{
    if !words::in_table(256 + pair.scrambling / 16) {
        return None;
    }
    making::write_shaped_data(summed, pair.scrambling, telegram);
    let format = summed.format;
    let n = format.telegram_bits();
    let at = n - 110;
    if !data::within(format, &telegram[..at]) {
        return None;
    }
    first_shaping(format, pair, telegram)
}

// The first pair, from the given one on in counting order, whose telegram is proper.
pub fn pair_from(format: Format, block: &[u8], pair: Pair) -> Option<Pair>
    requires are_bits { T (all_bits block.now) }
    requires block_len { length block.now ≡ (numbers_of format).m }
    requires pair_bound { (pair.scrambling < 4096) × (pair.shaping < 1024) }
    ensures { result ≡ pair_of (pair_from format block.now (1024 * pair.scrambling + pair.shaping)) }
{
    let m = block.len();
    let mut buffer = [0u8; Long::M];
    making::write_summed(block, &mut buffer);
    let summed = Block {
        format,
        bits: &buffer[..m],
    };
    let mut telegram = [0u8; Long::N];
    let mut shaping = pair.shaping;
    for scrambling in pair.scrambling..4096 {
        let from = Pair {
            scrambling,
            shaping,
        };
        let found = shaping_for(summed, from, &mut telegram);
        if let Some(shaping) = found {
            return Some(Pair {
                scrambling,
                shaping,
            });
        }
        shaping = 0;
    }
    None
}
