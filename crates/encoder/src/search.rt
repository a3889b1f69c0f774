// The search for the first pair whose telegram is proper (document 01, "Search, reading and place").
ghost use Rattle.std.specs.Prelude.{◌≡◌, T, length};
ghost use Rattle.bits.specs.Bits.{all_bits};
ghost use Rattle.formats.specs.Numbers.{numbers_of};
ghost use Rattle.encoder.specs.Encoding.{first_pair};
ghost use Rattle.encoder.specs.Searched.{made_proper, pair_of};

use formats::format::{Format, Long};
use telegrams::{Block, Pair, Telegram, fields, making};

// Whether the last ten words are in the table and conditions 2, 3 and 4 hold: by these a telegram that was made is proper.
fn passes(telegram: Telegram<'_>) -> bool
    ensures { result ≡ made_proper telegram.entry.format telegram.entry.bits.now }
{
    let at = telegram.bits.len() - 110;
    fields::all_words(&telegram.bits[at..], 10) && conditions::conditions(telegram)
}

// The first pair, B from 0 to 4095 and within each esb from 0 to 1023, whose telegram is proper. The shaped data is formed
// once for each B.
pub fn first_pair(format: Format, block: &[u8]) -> Option<Pair>
    requires are_bits { T (all_bits block.now) }
    requires block_len { length block.now ≡ (numbers_of format).m }
    ensures { result ≡ pair_of (first_pair format block.now) }
{
    let m = block.len();
    let n = format.telegram_bits();
    let mut buffer = [0u8; Long::M];
    making::write_summed(block, &mut buffer);
    let summed = Block {
        format,
        bits: &buffer[..m],
    };
    let mut telegram = [0u8; Long::N];
    'search: {
        for scrambling in 0..4096 {
            making::write_shaped_data(summed, scrambling, &mut telegram);
            for shaping in 0..1024 {
                let pair = Pair {
                    scrambling,
                    shaping,
                };
                making::complete(format, pair, &mut telegram);
                if passes(Telegram {
                    format,
                    bits: &telegram[..n],
                }) {
                    break 'search Some(pair);
                }
            }
        }
        None
    }
}
