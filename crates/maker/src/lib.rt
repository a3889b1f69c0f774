// Making a telegram from a block of user bits, B and esb, without a search (document 02, No. 11 and No. 13).
#![tactic(auto)]

ghost use Rattle.std.specs.Prelude.{◌≡◌};
ghost use Rattle.refusals.specs.Outcome.{outcome};
ghost use Rattle.maker.specs.Making.{make_of};
ghost use Rattle.maker.specs.Makes.{InOrder};
ghost use Rattle.maker.specs.PairTests.{tested_of};

use formats::format::{Format, Long, Short};
use refusals::Refusal;
use telegrams::{Block, Pair, fields, making};

// The tests are rows of this call's table, as those of each call: 27 stands between 2 and 3, so that encoder::test is no part of them.
//
// Tests a block, B and esb, and the length of the output that is lent for a telegram, in document 02's order: the block's format,
// or refusal 1, 2, 27 or 3.
pub fn test(block: &[u8], b: u64, esb: u64, room: usize) -> Result<Format, Refusal>
    ensures { result ≡ tested_of block.now b esb room }
{
    let format = Format::of_length(Short::M, block.len());
    if block.len() != format.user_bits() {
        return Err(Refusal::Length);
    }
    if !bits::all_bits(block) {
        return Err(Refusal::NotBit);
    }
    if !making::is_pair(b, esb) {
        return Err(Refusal::PairTooLarge);
    }
    if room < format.telegram_bits() {
        return Err(Refusal::OutputShort);
    }
    Ok(format)
}

// The telegram over the front of output; refusal 9 where a word of it is not in the table. It is formed beside output, which a refusal
// keeps.
fn write_telegram(
    format: Format,
    block: &[u8],
    pair: Pair,
    output: &mut [u8],
) -> Result<Format, Refusal>
    requires { InOrder format block.now pair.scrambling pair.shaping output.old }
    ensures { make_of block.now pair.scrambling pair.shaping output.old ≡ outcome result output.new }
{
    let mut telegram = [0u8; Long::N];
    let bits = block;
    making::make(Block { format, bits }, pair, &mut telegram);
    let n = format.telegram_bits();
    let words = format.words();
    fields::go_through(&telegram[..n], words)?;
    bits::copy(&telegram[..n], output);
    Ok(format)
}

// The telegram of the block, B and esb over the front of output. The refusals are tested in document 02's order, 1, 2, 27, 3 and 9,
// and each keeps every byte of output.
pub fn make(block: &[u8], b: u64, esb: u64, output: &mut [u8]) -> Result<Format, Refusal>
    ensures { make_of block.now b esb output.old ≡ outcome result output.new }
{
    let format = test(block, b, esb, output.len())?;
    let pair = Pair {
        scrambling: b as u16,
        shaping: esb as u16,
    };
    write_telegram(format, block, pair, output)
}
