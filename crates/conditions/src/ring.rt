// Bits going round: the first follows the last.
ghost use Rattle.std.specs.Prelude.{◌≡◌, ◌+◌, ◌%◌, ◌≤◌, ◌<◌, T, length};
ghost use Rattle.bits.specs.Bits.{all_bits, number_of, around};
ghost use Rattle.words.specs.Words.{is_word};

// The place k after p on a ring of n.
pub fn place_after(p: usize, k: usize, n: usize) -> usize
    requires { (p < n) × (k ≤ n) }
    ensures { result ≡ (p + k) % n }
{
    if p < n - k { p + k } else { p - (n - k) }
}

// The number of the 11 bits from place p on, bit by bit.
fn word_by_bits(b: &[u8], p: usize) -> u16
    requires { T (all_bits b.now) × (p < length b.now) }
    ensures { result ≡ number_of (around 11 p b.now) }
{
    let mut x: u16 = 0;
    let mut at = p;
    for _i in 0..11usize {
        x = x * 2 + b[at] as u16;
        at = place_after(at, 1, b.len());
    }
    x
}

// The number of the 11 bits from place p on. Most words do not go round the end.
fn word_around(b: &[u8], p: usize) -> u16
    requires { T (all_bits b.now) × (p < length b.now) }
    ensures { result ≡ number_of (around 11 p b.now) }
{
    if 11 <= b.len() - p {
        return bits::number(b, p, 11) as u16;
    }
    word_by_bits(b, p)
}

// Whether the 11 bits from place p on are a valid word.
pub fn is_word_at(b: &[u8], p: usize) -> bool
    requires { T (all_bits b.now) × (p < length b.now) }
    ensures { result ≡ is_word (around 11 p b.now) }
{
    words::in_table(word_around(b, p))
}
