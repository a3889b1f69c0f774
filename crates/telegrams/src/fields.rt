// The fields of a telegram (document 01, "The telegram, left to right").
ghost use Rattle.std.specs.Prelude.{◌≡◌, ◌+◌, ◌-◌, ◌*◌, ◌≤◌, T, length, take, drop};
ghost use Rattle.bits.specs.Bits.{all_bits, same, number_of};
ghost use Rattle.formats.specs.Numbers.{numbers_of};
ghost use Rattle.telegrams.specs.Telegram.{control};
ghost use Rattle.telegrams.specs.Fields.{control_of, scrambling_of, shaping_of, all_words};
ghost use Rattle.telegrams.specs.Worded.{bad_word_at, worded};

use formats::format::Format;
use words::BadWord;

// b109 to b107.
const CONTROL: [u8; 3] = [0, 0, 1];

// The word of s with this index, which is not in the table.
pub fn bad_word(s: &[u8], index: usize) -> BadWord
    requires are_bits { T (all_bits s.now) }
    requires index_in_bounds { 11 * index + 11 ≤ length s.now }
    ensures { result ≡ bad_word_at s.now index }
{
    let word = bits::number(s, 11 * index, 11);
    let kind = words::kind_of(word as u16);
    BadWord { kind, index }
}

// Goes through the first k words of s: each is in the table, or the first that is not.
pub fn go_through(s: &[u8], k: usize) -> Result<(), BadWord>
    requires are_bits { T (all_bits s.now) }
    requires k_in_bounds { 11 * k ≤ length s.now }
    ensures { result ≡ worded k s.now }
{
    for at in 0..k {
        let word = bits::number(s, 11 * at, 11);
        if !words::in_table(word as u16) {
            return Err(bad_word(s, at));
        }
    }
    Ok(())
}

// Whether the first k words of s are all in the table.
pub fn all_words(s: &[u8], k: usize) -> bool
    requires are_bits { T (all_bits s.now) }
    requires k_in_bounds { 11 * k ≤ length s.now }
    ensures { result ≡ all_words k s.now }
{
    go_through(s, k).is_ok()
}

// Whether the control bits are 0, 0, 1.
pub fn has_control(format: Format, telegram: &[u8]) -> bool
    requires { (numbers_of format).n ≤ length telegram.now }
    ensures { result ≡ same (control_of (numbers_of format) telegram.now) control }
{
    let n = format.telegram_bits();
    let at = n - 110;
    let control = CONTROL;
    bits::same(&telegram[at..at + 3], &control)
}

// The k bits from b(top-1) on, of a telegram of n bits, as a number.
fn field(format: Format, telegram: &[u8], top: usize, k: usize) -> u16
    requires are_bits { T (all_bits telegram.now) }
    requires format_in_bounds { (numbers_of format).n ≤ length telegram.now }
    requires k_le_top { (k ≤ top) × ((top ≤ 110) × (k ≤ 12)) }
    ensures { result ≡ number_of (take k (drop ((numbers_of format).n - top) telegram.now)) }
{
    let n = format.telegram_bits();
    bits::number(telegram, n - top, k) as u16
}

// The scrambling bits, b106 to b95, as a number.
pub fn scrambling_bits(format: Format, telegram: &[u8]) -> u16
    requires are_bits { T (all_bits telegram.now) }
    requires format_in_bounds { (numbers_of format).n ≤ length telegram.now }
    ensures { result ≡ scrambling_of (numbers_of format) telegram.now }
{
    field(format, telegram, 107, 12)
}

// The extra shaping bits, b94 to b85, as a number.
pub fn shaping_bits(format: Format, telegram: &[u8]) -> u16
    requires are_bits { T (all_bits telegram.now) }
    requires format_in_bounds { (numbers_of format).n ≤ length telegram.now }
    ensures { result ≡ shaping_of (numbers_of format) telegram.now }
{
    field(format, telegram, 95, 10)
}
