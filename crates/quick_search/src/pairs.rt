// Pairs of bits that stand n apart: the ends of a format's window agree where its r pairs do.
ghost use Rattle.std.specs.Prelude.{◌+◌, ◌≤◌, length};
ghost use Rattle.quick_search.specs.Pairs.{AgreedFrom};

// The lowest pair, from the first up to the end, from which on all agree: tried from the last down, so that the pair that differs
// is the last that does.
pub fn agreed_from(n: usize, capture: &[u8], first: usize, end: usize) -> usize
    requires first_le_end { first ≤ end }
    requires n_in_bounds { end + n ≤ length capture.now }
    ensures { AgreedFrom n capture.now first end result }
{
    for a in (first..end).rev() {
        if capture[a] != capture[a + n] {
            return a + 1;
        }
    }
    first
}
