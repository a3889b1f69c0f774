// Condition 2 on the shaped data alone (document 01, "Four conditions of a proper telegram"; document 02, No. 7): a run of valid words that
// lies in it is a run of every telegram with it.
ghost use Rattle.std.specs.Prelude.{◌≡◌, ◌*◌, T, length};
ghost use Rattle.bits.specs.Bits.{all_bits};
ghost use Rattle.formats.specs.Numbers.{numbers_of, blocks};
ghost use Rattle.quick_encoder.specs.ShapedData.{data_within};

use conditions::{off_step, run};
use formats::format::Format;

// Whether no run in the shaped data exceeds its limit: one that does begins before the last limit words.
pub fn within(format: Format, d: &[u8]) -> bool
    requires { T (all_bits d.now) × (length d.now ≡ 11 * blocks (numbers_of format)) }
    ensures { result ≡ data_within format d.now }
{
    let words = d.len() / 11 - 1;
    (1..11).all(|p| {
        let limit = off_step::limit_at(format, p);
        run::none_over(d, p, words - limit, limit)
    })
}
