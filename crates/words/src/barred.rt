// The barred words in parts of 64, as `parts` has the words of the table.
ghost use Rattle.std.specs.Prelude.{◌≡◌, get_or};
ghost use Rattle.words.specs.BarredOf64.{group250, group20};

// 64 neighbouring words: bit p tells whether the one at place p is in the group of 250, and whether it is in the group of 20.
#[derive(Clone, Copy)]
pub struct Barred {
    pub group_250: u64,
    pub group_20: u64,
}

// The words from 64 * k on; past the 2,048 there are none.
pub fn barred_at(k: u16) -> Barred
    ensures { (result.group_250 ≡ get_or group250 k 0) × (result.group_20 ≡ get_or group20 k 0) }
{
    match k {
        0 => Barred {
            group_250: 0xffffffffffffffff,
            group_20: 0x0000000000000000,
        },
        1 => Barred {
            group_250: 0x8000000180000001,
            group_20: 0x0000000000000000,
        },
        2 => Barred {
            group_250: 0x8000000180000001,
            group_20: 0x0000000000000100,
        },
        3 => Barred {
            group_250: 0x8000000180000001,
            group_20: 0x0000000000000000,
        },
        4 => Barred {
            group_250: 0x8000000180000001,
            group_20: 0x0000001000020000,
        },
        5 => Barred {
            group_250: 0x8000000180000001,
            group_20: 0x0000000000000000,
        },
        6 => Barred {
            group_250: 0x8000000180000001,
            group_20: 0x0000000002000000,
        },
        7 => Barred {
            group_250: 0x8000000180000001,
            group_20: 0x0000000000000000,
        },
        8 => Barred {
            group_250: 0x8000000180000001,
            group_20: 0x0000000400000000,
        },
        9 => Barred {
            group_250: 0x8000000180000001,
            group_20: 0x0000000000000200,
        },
        10 => Barred {
            group_250: 0x8000000180000001,
            group_20: 0x0000040000000000,
        },
        11 => Barred {
            group_250: 0x8000000180000001,
            group_20: 0x0000000000000000,
        },
        12 => Barred {
            group_250: 0x8000000180000001,
            group_20: 0x0008000000000000,
        },
        13 => Barred {
            group_250: 0x8000000180000001,
            group_20: 0x0000200000000000,
        },
        14 => Barred {
            group_250: 0x8000000180000001,
            group_20: 0x0800000000000000,
        },
        15 => Barred {
            group_250: 0xc000000180000001,
            group_20: 0x0000000000000000,
        },
        16 => Barred {
            group_250: 0x8000000180000003,
            group_20: 0x0000000000000000,
        },
        17 => Barred {
            group_250: 0x8000000180000001,
            group_20: 0x0000000000000010,
        },
        18 => Barred {
            group_250: 0x8000000180000001,
            group_20: 0x0000000000040000,
        },
        19 => Barred {
            group_250: 0x8000000180000001,
            group_20: 0x0000000000001000,
        },
        20 => Barred {
            group_250: 0x8000000180000001,
            group_20: 0x0000000000000000,
        },
        21 => Barred {
            group_250: 0x8000000180000001,
            group_20: 0x0000000000200000,
        },
        22 => Barred {
            group_250: 0x8000000180000001,
            group_20: 0x0040000000000000,
        },
        23 => Barred {
            group_250: 0x8000000180000001,
            group_20: 0x0000000020000000,
        },
        24 => Barred {
            group_250: 0x8000000180000001,
            group_20: 0x0000000000000000,
        },
        25 => Barred {
            group_250: 0x8000000180000001,
            group_20: 0x0000004000000000,
        },
        26 => Barred {
            group_250: 0x8000000180000001,
            group_20: 0x0000000000000000,
        },
        27 => Barred {
            group_250: 0x8000000180000001,
            group_20: 0x0000400008000000,
        },
        28 => Barred {
            group_250: 0x8000000180000001,
            group_20: 0x0000000000000000,
        },
        29 => Barred {
            group_250: 0x8000000180000001,
            group_20: 0x0080000000000000,
        },
        30 => Barred {
            group_250: 0x8000000180000001,
            group_20: 0x0000000000000000,
        },
        31 => Barred {
            group_250: 0xffffffffffffffff,
            group_20: 0x0000000000000000,
        },
        _ => Barred {
            group_250: 0x0000000000000000,
            group_20: 0x0000000000000000,
        },
    }
}
