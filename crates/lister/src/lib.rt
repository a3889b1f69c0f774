// The proper pairs of a block, one after the other (document 02, No. 9).
#![tactic(auto)]

ghost use Rattle.std.specs.Prelude.{◌≡◌, Ok};
ghost use Rattle.refusals.specs.Outcome.{outcome};
ghost use Rattle.maker.specs.Makes.{InOrder};
ghost use Rattle.lister.specs.Listing.{next_of, just_after};

use formats::format::Format;
use quick_encoder::search;
use refusals::Refusal;
use telegrams::{Block, Pair, making};

// A pair of scrambling and extra shaping bits whose telegram is proper, and the format.
#[derive(Clone, Copy)]
pub struct Listed {
    pub format: Format,
    pub pair: Pair,
}

// The next pair's telegram over the front of output, from the given pair on; none where there are no more.
fn write_next(format: Format, block: &[u8], from: Pair, output: &mut [u8]) -> Option<Listed>
    requires { InOrder format block.now from.scrambling from.shaping output.old }
    ensures { next_of block.now from.scrambling from.shaping output.old ≡ outcome (Ok result) output.new }
{
    let pair = search::pair_from(format, block, from)?;
    let bits = block;
    making::make(Block { format, bits }, pair, output);
    Some(Listed { format, pair })
}

// The first pair at or after b and esb, in counting order, whose telegram is proper, and that telegram over the front of output; none where
// there are no more. The refusals are tested in document 02's order, 1, 2, 27 and 3. These, and no more, keep every byte of output.
pub fn next(block: &[u8], b: u64, esb: u64, output: &mut [u8]) -> Result<Option<Listed>, Refusal>
    ensures { next_of block.now b esb output.old ≡ outcome result output.new }
{
    let format = maker::test(block, b, esb, output.len())?;
    let from = Pair {
        scrambling: b as u16,
        shaping: esb as u16,
    };
    Ok(write_next(format, block, from, output))
}

// Where a listing that answered with this pair goes on: just after it. After 4095, 1023 it has ended.
pub fn just_after(pair: Pair) -> Option<Pair>
    ensures { result ≡ just_after pair.scrambling pair.shaping }
{
    if pair.shaping < 1023 {
        return Some(Pair {
            scrambling: pair.scrambling,
            shaping: pair.shaping + 1,
        });
    }
    if pair.scrambling < 4095 {
        return Some(Pair {
            scrambling: pair.scrambling + 1,
            shaping: 0,
        });
    }
    None
}
