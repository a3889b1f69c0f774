// Encoding a block of user bits (document 01, "Search, reading and place", and "When the bench says no": refusals 1 to 4).
#![tactic(auto)]

ghost use Rattle.std.specs.Prelude.{◌≡◌, ◌≤◌, List, ℕ, length};
ghost use Rattle.formats.specs.Numbers.{numbers_of};
ghost use Rattle.refusals.specs.Outcome.{outcome};
ghost use Rattle.encoder.specs.Encoding.{first_pair, encode_of};
ghost use Rattle.encoder.specs.Searched.{pair_of};
ghost use Rattle.encoder.specs.Tested.{TestedFor};

use formats::format::{Format, Short};
use refusals::Refusal;
use telegrams::{Block, Pair, making};

pub mod search;

// What encoding a block answers where nothing is refused: the format, the pair of scrambling and extra shaping bits and the count of
// pairs tried.
#[derive(Clone, Copy)]
pub struct Encoded {
    pub format: Format,
    pub pair: Pair,
    pub tried: u32,
}

// Tests a block, and the length of the output that is lent for its telegram: the block's format, or refusal 1, 2 or 3.
pub fn test(block: &[u8], room: usize) -> Result<Format, Refusal>
    ensures { (out : List ℕ) → length out ≡ room → TestedFor block.now out result }
{
    let format = Format::of_length(Short::M, block.len());
    if block.len() != format.user_bits() {
        return Err(Refusal::Length);
    }
    if !bits::all_bits(block) {
        return Err(Refusal::NotBit);
    }
    if room < format.telegram_bits() {
        return Err(Refusal::OutputShort);
    }
    Ok(format)
}

// The telegram of the first proper pair, which a search found, over the front of output; refusal 4 where it found none.
pub fn write_found(
    block: Block<'_>,
    first: Option<Pair>,
    output: &mut [u8],
) -> Result<Encoded, Refusal>
    requires room { (numbers_of block.format).n ≤ length output.old }
    requires first_value { first ≡ pair_of (first_pair block.format block.bits.now) }
    ensures { encode_of block.entry.bits.now output.old ≡ outcome result output.new }
{
    let Some(pair) = first else {
        return Err(Refusal::NoPair);
    };
    making::make(block, pair, output);
    Ok(Encoded {
        format: block.format,
        pair,
        tried: 1024 * (pair.scrambling as u32) + pair.shaping as u32 + 1,
    })
}

// The block's telegram over the front of output, with the first pair that gives a proper one, by the plain search. The lowest refusal that
// applies is given, and a refusal keeps every byte of output.
pub fn encode(block: &[u8], output: &mut [u8]) -> Result<Encoded, Refusal>
    ensures { encode_of block.now output.old ≡ outcome result output.new }
{
    let format = test(block, output.len())?;
    let first = search::first_pair(format, block);
    let bits = block;
    write_found(Block { format, bits }, first, output)
}
