// The telegram in a window (document 01, "Search, reading and place"): the first n bits turned back, and upright.
ghost use Rattle.std.specs.Prelude.{◌≡◌, ◌++◌, ◌-◌, ◌≤◌, length, drop};
ghost use Rattle.formats.specs.Numbers.{numbers_of};
ghost use Rattle.cyclic.specs.Check.{turned};
ghost use Rattle.reader.specs.Reads.{is_flipped, turned_back, telegram_in};

use crate::Window;

// The bits of first turned back by t, over the front of out.
fn turn_back(first: &[u8], t: usize, out: &mut [u8])
    requires t_in_bounds { t ≤ length first.now }
    requires first_in_bounds { length first.now ≤ length out.old }
    ensures { out.new ≡ turned (length first.now - t) first.now ++ drop (length first.now) out.old }
{
    let k = first.len() - t;
    let at = bits::copy(&first[k..], out);
    bits::copy(&first[..k], &mut out[at..]);
}

// The telegram of a window at the turn t, over the front of out, and whether it is flipped in the window.
pub fn telegram_in(t: usize, window: Window<'_>, out: &mut [u8]) -> bool
    requires t_bound { t ≤ (numbers_of window.format).n }
    requires room { (numbers_of window.format).n ≤ length out.old }
    ensures value { result ≡ is_flipped (numbers_of window.entry.format) (turned_back (numbers_of window.entry.format) t window.entry.bits.now) }
    ensures out_after { out.new ≡ telegram_in (numbers_of window.entry.format) t window.entry.bits.now ++ drop (numbers_of window.entry.format).n out.old }
{
    let n = window.format.telegram_bits();
    turn_back(&window.bits[..n], t, out);
    let b109 = n - 110;
    if out[b109] == 1 {
        bits::flip(&mut out[..n]);
        return true;
    }
    false
}
