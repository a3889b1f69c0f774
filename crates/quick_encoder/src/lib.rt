// Encoding a block of user bits by the quick search (document 02, No. 7): the answers, the bytes and the counts of encoder::encode.
#![tactic(auto)]

ghost use Rattle.std.specs.Prelude.{◌≡◌};
ghost use Rattle.refusals.specs.Outcome.{outcome};
ghost use Rattle.encoder.specs.Encoding.{encode_of};

use encoder::Encoded;
use refusals::Refusal;
use telegrams::{Block, Pair};

mod change;
mod data;
pub mod search;
mod tail;

// The block's telegram over the front of output, with the first pair that gives a proper one. The lowest refusal that applies is given, and a
// refusal keeps every byte of output. This is encoder::encode over the search of this crate: what both share is in encoder, and one function of
// both over the search, with clauses on what it finds, would be longer.
pub fn encode(block: &[u8], output: &mut [u8]) -> Result<Encoded, Refusal>
    ensures { encode_of block.now output.old ≡ outcome result output.new }
{
    let format = encoder::test(block, output.len())?;
    let least = Pair {
        scrambling: 0,
        shaping: 0,
    };
    let first = search::pair_from(format, block, least);
    let bits = block;
    encoder::write_found(Block { format, bits }, first, output)
}
