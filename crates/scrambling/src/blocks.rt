// The sum of the blocks of ten bits.
ghost use Rattle.std.specs.Prelude.{◌≡◌, ◌/◌, ◌≤◌, T, length};
ghost use Rattle.bits.specs.Bits.{all_bits};
ghost use Rattle.scrambling.specs.Sum.{sum_of_blocks};

// The sum of the numbers of the blocks of ten bits.
pub(crate) fn sum_of_blocks(block: &[u8]) -> u32
    requires are_bits { T (all_bits block.now) }
    requires block_len_bound { length block.now ≤ 1000 }
    ensures { result ≡ sum_of_blocks (length block.now / 10) block.now }
{
    let blocks = block.len() / 10;
    let mut sum: u32 = 0;
    for j in 0..blocks {
        sum += bits::number(block, 10 * j, 10);
    }
    sum
}
