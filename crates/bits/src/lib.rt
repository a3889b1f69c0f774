// Bits, one to a byte, earliest sent first: the tests that every byte is 0 or 1 and that two slices are the same, the
// number of some consecutive bits, the bits of a number, and the flip.
//
// That the bytes of a slice are bits is a clause here and in the layers, and not a type: a type that lends a slice is named in an `ensures` by
// `s.entry.bytes.now`, and each part of a buffer would be wrapped where it is lent, so that clauses and calls would be longer. Blocks, telegrams
// and windows, where they are whole and go with their format, are types.
#![tactic(auto)]

ghost use Rattle.std.specs.Prelude.{◌≡◌, ◌+◌, ◌≤◌, ◌<◌, ◌++◌, T, length, take, drop};
ghost use Rattle.bits.specs.Bits.{all_bits, same, number_of, bits_of, flip};

// Whether every byte of s is 0 or 1: the largest is. No byte ends the loop early, so that the compiler can take many at a time.
pub fn all_bits(s: &[u8]) -> bool
    ensures { result ≡ all_bits s.now }
{
    let most = s.iter().fold(0, |most: u8, b| most.max(*b));
    most < 2
}

// Whether a and b are as long and the same at each place.
pub fn same(a: &[u8], b: &[u8]) -> bool
    ensures { result ≡ same a.now b.now }
{
    a == b
}

// The number of the k bits of s from index at on, the first in the highest place.
pub fn number(s: &[u8], at: usize, k: usize) -> u32
    requires { (at + k ≤ length s.now) × ((k < 32) × T (all_bits s.now)) }
    ensures { result ≡ number_of (take k (drop at s.now)) }
{
    let mut x: u32 = 0;
    for b in &s[at..at + k] {
        x = x * 2 + *b as u32;
    }
    x
}

// Writes the lowest k binary digits of x into the front of out, the highest of them first.
pub fn write_number(out: &mut [u8], k: usize, x: u32)
    requires { (k ≤ 32) × (k ≤ length out.old) }
    ensures { out.new ≡ bits_of k x ++ drop k out.old }
{
    for i in 0..k {
        out[i] = ((x >> (k - (i + 1))) % 2) as u8;
    }
}

// Turns each bit of s into the other.
pub fn flip(s: &mut [u8])
    requires { T (all_bits s.old) }
    ensures { s.new ≡ flip s.old }
{
    for bit in s.iter_mut() {
        *bit = 1 - *bit;
    }
}

// Copies from over the front of out, and answers how many bytes that are. The library's copy_from_slice wants a slice of the same length.
pub fn copy(from: &[u8], out: &mut [u8]) -> usize
    requires { length from.now ≤ length out.old }
    ensures count { result ≡ length from.now }
    ensures copied { out.new ≡ from.now ++ drop (length from.now) out.old }
{
    let n = from.len();
    out[..n].copy_from_slice(from);
    n
}
