// Scrambling and its undoing by a 32-bit register, and the sum in the first block (document 01, "Scrambling").
#![tactic(auto)]

mod blocks;

ghost use Rattle.std.specs.Prelude.{◌≡◌, ◌/◌, ◌<◌, ◌≤◌, cond, T, ◌++◌, length, drop};
ghost use Rattle.bits.specs.Bits.{all_bits};
ghost use Rattle.scrambling.specs.Scrambling.{seed_of, top_bit, xor_bit, next_state, scrambled, descrambled};
ghost use Rattle.scrambling.specs.Sum.{with_sum, without_sum};

// Bits 31, 30, 29, 27, 25 and 0.
const FEEDBACK: u32 = 0xea00_0001;

// The register of scrambling and of its undoing.
#[derive(Clone, Copy)]
pub struct Scrambler {
    pub state: u32,
}

impl Scrambler {
    // The register at its start, for the scrambling bits b.
    pub fn new(b: u16) -> Self
        ensures { result.state ≡ seed_of b }
    {
        let product = 2801775573 * (b as u64);
        Scrambler {
            state: (product % 4294967296) as u32,
        }
    }

    // The register's top bit XOR a bit.
    pub fn xor_top(self, bit: u32) -> u32
        requires { bit < 2 }
        ensures { result ≡ xor_bit (top_bit self.state) bit }
    {
        let top = self.state >> 31;
        top ^ bit
    }

    // The register after a scrambled bit. The mask is 0, or all ones if the bit is 1; a branch
    // would be mispredicted half the time.
    pub fn fed(self, bit: u32) -> Self
        requires { bit < 2 }
        ensures { result.state ≡ next_state self.state bit }
    {
        let shifted = self.state << 1;
        let mask = std::num::wrapping_sub_u32(0, bit);
        Scrambler {
            state: shifted ^ (mask & FEEDBACK),
        }
    }
}

// Passes a block through the register into the front of out: the user bits to scramble them, or, in the UNDO, the scrambled
// bits. The register is fed the scrambled bit either way: the one that comes out, or in the UNDO the one that goes in.
fn pass<const UNDO: bool>(b: u16, block: &[u8], out: &mut [u8])
    requires are_bits { T (all_bits block.now) }
    requires block_in_bounds { length block.now ≤ length out.old }
    ensures { out.new ≡ cond UNDO (descrambled b block.now) (scrambled b block.now) ++ drop (length block.now) out.old }
{
    let mut register = Scrambler::new(b);
    for (i, bit) in block.iter().enumerate() {
        let bit_in = *bit as u32;
        let bit_out = register.xor_top(bit_in);
        register = register.fed(if UNDO { bit_in } else { bit_out });
        out[i] = bit_out as u8;
    }
}

// Scrambles a block of user bits into the front of out; the rest of out is kept.
pub fn scramble(b: u16, block: &[u8], out: &mut [u8])
    requires are_bits { T (all_bits block.now) }
    requires block_in_bounds { length block.now ≤ length out.old }
    ensures { out.new ≡ scrambled b block.now ++ drop (length block.now) out.old }
{
    pass::<false>(b, block, out);
}

// Descrambles a block of scrambled bits into the front of out; the rest of out is kept.
pub fn descramble(b: u16, block: &[u8], out: &mut [u8])
    requires are_bits { T (all_bits block.now) }
    requires block_in_bounds { length block.now ≤ length out.old }
    ensures { out.new ≡ descrambled b block.now ++ drop (length block.now) out.old }
{
    pass::<true>(b, block, out);
}

// Replaces the first block of ten bits by the sum of all blocks modulo 1024, in place.
pub fn add_sum(block: &mut [u8])
    requires are_bits { T (all_bits block.old) }
    requires in_bounds { 10 ≤ length block.old }
    requires block_len_bound { length block.old ≤ 1000 }
    ensures { block.new ≡ with_sum (length block.old / 10) block.old }
{
    let sum = blocks::sum_of_blocks(block);
    bits::write_number(block, 10, sum % 1024);
}

// Undoes add_sum, in place: takes the other blocks from the first modulo 1024.
pub fn remove_sum(block: &mut [u8])
    requires are_bits { T (all_bits block.old) }
    requires in_bounds { 10 ≤ length block.old }
    requires block_len_bound { length block.old ≤ 1000 }
    ensures { block.new ≡ without_sum (length block.old / 10) block.old }
{
    let first = bits::number(block, 0, 10);
    let others = blocks::sum_of_blocks(&block[10..]) % 1024;
    let minus_others = 1024 - others;
    bits::write_number(block, 10, (first + minus_others) % 1024);
}
