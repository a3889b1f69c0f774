// A telegram's words taken back to the ten bits of their numbers, and those to the user bits (document 01, "Words" and
// "Search, reading and place").
ghost use Rattle.std.specs.Prelude.{◌≡◌, ◌++◌, ◌*◌, ◌/◌, ◌≤◌, T, length, drop};
ghost use Rattle.bits.specs.Bits.{all_bits};
ghost use Rattle.scrambling.specs.Scrambling.{descrambled};
ghost use Rattle.scrambling.specs.Sum.{without_sum};
ghost use Rattle.telegrams.specs.Fields.{all_words, unshaped};
ghost use Rattle.telegrams.specs.Worded.{worded};

use crate::fields;
use words::BadWord;

// The ten bits of the number of each of the first k words, over the front of out, up to the first word that is not in the table.
pub fn unshape(telegram: &[u8], k: usize, out: &mut [u8]) -> Result<(), BadWord>
    requires are_bits { T (all_bits telegram.now) }
    requires k_in_bounds { 11 * k ≤ length telegram.now }
    requires room { 10 * k ≤ length out.old }
    ensures value { result ≡ worded k telegram.now }
    ensures out_after { T (all_words k telegram.now) → out.new ≡ unshaped k telegram.now ++ drop (10 * k) out.old }
{
    for j in 0..k {
        let word = bits::number(telegram, 11 * j, 11);
        let Ok(i) = words::look_up(word as u16) else {
            return Err(fields::bad_word(telegram, j));
        };
        let at = 10 * j;
        bits::write_number(&mut out[at..], 10, i as u32);
    }
    Ok(())
}

// The user bits, from the scrambled ones and the scrambling bits b, over the front of output.
pub fn write_user_bits(b: u16, scrambled: &[u8], output: &mut [u8])
    requires are_bits { T (all_bits scrambled.now) }
    requires in_bounds { (10 ≤ length scrambled.now) × (length scrambled.now ≤ 1000) }
    requires scrambled_in_bounds { length scrambled.now ≤ length output.old }
    ensures { output.new ≡ without_sum (length scrambled.now / 10) (descrambled b scrambled.now) ++ drop (length scrambled.now) output.old }
{
    scrambling::descramble(b, scrambled, output);
    let m = scrambled.len();
    scrambling::remove_sum(&mut output[..m]);
}
