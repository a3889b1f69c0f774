// The 10-to-11 table (document 01, "Words"; document 02, No. 13): the word of a number, the number of a word, the barred words, and the kind
// of a word that the table does not have.
#![tactic(auto)]

ghost use Rattle.std.specs.Prelude.{◌≡◌, ◌<◌};
ghost use Rattle.words.specs.Table.{table};
ghost use Rattle.words.specs.BarredOf64.{kind_marked};
ghost use Rattle.words.specs.Words.{word_of, lookup_of, in_table, in_group250, in_group20, kind_of, kind_number};

mod barred;
mod parts;
mod table;

use std::fmt;
use table::TABLE;

// What a word is that the table does not have (document 02, No. 13): in the group of 250 barred words, in the group of 20, or simply
// not in the table.
#[derive(Clone, Copy)]
pub enum Kind {
    Group250,
    Group20,
    Other,
}

// A word of a telegram that the table does not have: its kind, and its index among the words, from 0 at the left.
#[derive(Clone, Copy)]
pub struct BadWord {
    pub kind: Kind,
    pub index: usize,
}

// The group of 20 barred words: ten, and then their flips.
const BARRED: [u16; 20] = [
    0b01010101010,
    0b00100100100,
    0b01001001001,
    0b10010010010,
    0b00010001000,
    0b00100010001,
    0b01000100010,
    0b10001000100,
    0b00110011001,
    0b01100110011,
    0b10101010101,
    0b11011011011,
    0b10110110110,
    0b01101101101,
    0b11101110111,
    0b11011101110,
    0b10111011101,
    0b01110111011,
    0b11001100110,
    0b10011001100,
];

// The table. A constant array is copied at each use: who needs many words takes it once, and each word by `word_in`.
pub fn entries() -> [u16; 1024]
    ensures { result ≡ table }
{
    TABLE
}

// The word of the number i, from the table.
pub fn word_in(entries: &[u16], i: u16) -> u16
    requires { (entries.now ≡ table) × (i < 1024) }
    ensures { result ≡ word_of i }
{
    entries[i as usize]
}

// The word of the number i.
pub fn word(i: u16) -> u16
    requires { i < 1024 }
    ensures { result ≡ word_of i }
{
    let entries = entries();
    word_in(&entries, i)
}

// The kind that a marked rank tells: 2048 more are for a word in neither group, 4096 for one in the group of 20, 6144 for one in that of 250.
fn kind_marked(rank: u16) -> Kind
    ensures { result ≡ kind_marked rank }
{
    if rank < 4096 {
        return Kind::Other;
    }
    if rank < 6144 {
        return Kind::Group20;
    }
    Kind::Group250
}

// The number of a word: how many words of the table are below it, since the table rises; or its kind. With the mark of a word that the
// table does not have, the sum alone decides, and no branch waits for the word's bits.
pub fn look_up(word: u16) -> Result<u16, Kind>
    ensures { result ≡ lookup_of word }
{
    let part = parts::part_at(word / 64);
    let barred = barred::barred_at(word / 64);
    let words = part.words;
    let place = word % 64;
    let absent = 1 - (words >> place) % 2;
    let mark = absent + (barred.group_20 >> place) % 2 + 2 * ((barred.group_250 >> place) % 2);
    let below = u64::count_ones(words % (1u64 << place)) as u16;
    let rank = part.before + below + 2048 * (mark as u16);
    let kind = kind_marked(rank);
    if rank < 2048 {
        return Ok(rank);
    }
    Err(kind)
}

// Whether a word is in the table.
pub fn in_table(word: u16) -> bool
    ensures { result ≡ in_table word }
{
    let part = parts::part_at(word / 64);
    let place = word % 64;
    (part.words >> place) % 2 == 1
}

// Whether a word is in the group of 250 barred words.
pub fn in_group_250(word: u16) -> bool
    ensures { result ≡ in_group250 word }
{
    word < 2048
        && (matches!(word / 64, 0b00000 | 0b11111)
            || matches!(word % 32, 0b00000 | 0b11111)
            || matches!(word, 0b10000000001 | 0b01111111110))
}

// Whether a word is in the group of 20 barred words.
pub fn in_group_20(word: u16) -> bool
    ensures { result ≡ in_group20 word }
{
    BARRED.contains(&word)
}

// The kind of a word that the table does not have.
pub fn kind_of(word: u16) -> Kind
    ensures { result ≡ kind_of word }
{
    let barred = barred::barred_at(word / 64);
    let place = word % 64;
    if (barred.group_250 >> place) % 2 == 1 {
        return Kind::Group250;
    }
    if (barred.group_20 >> place) % 2 == 1 {
        return Kind::Group20;
    }
    Kind::Other
}

impl Kind {
    // The kind's number: how many words its group has, and 0 where it is no group. A method and not a From, as that of a refusal.
    pub fn number(self) -> u16
        ensures { result ≡ kind_number self }
    {
        match self {
            Kind::Group250 => 250,
            Kind::Group20 => 20,
            Kind::Other => 0,
        }
    }
}

// The kind's word (document 01, "Bench sheet").
impl fmt::Display for Kind {
    fn fmt<W: fmt::Write>(&self, f: &mut fmt::Formatter<W>) -> fmt::Result {
        match self {
            Kind::Group250 => write!(f, "250"),
            Kind::Group20 => write!(f, "20"),
            Kind::Other => write!(f, "other"),
        }
    }
}
