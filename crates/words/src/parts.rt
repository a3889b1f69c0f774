// The words of the table counted in parts of 64. A match and not an array: the compiler makes a constant table of it, where an
// array would be copied to the stack at each use.
ghost use Rattle.std.specs.Prelude.{◌≡◌, get_or};
ghost use Rattle.words.specs.PartsOf64.{present, before};

// 64 neighbouring words: bit p tells whether the one at place p is in the table, and how many words of the table are below all 64.
#[derive(Clone, Copy)]
pub struct Part {
    pub words: u64,
    pub before: u16,
}

// The words from 64 * k on; past the 2,048 there are none, and the whole table is below.
pub fn part_at(k: u16) -> Part
    ensures { (result.words ≡ get_or present k 0) × (result.before ≡ get_or before k 1024) }
{
    match k {
        0 => Part {
            words: 0x0000000000000000,
            before: 0,
        },
        1 => Part {
            words: 0x7ffffffe3ffffffe,
            before: 0,
        },
        2 => Part {
            words: 0x7c0388700a7dd242,
            before: 59,
        },
        3 => Part {
            words: 0x50018c5e1403a00a,
            before: 85,
        },
        4 => Part {
            words: 0x7733c02c0cf1cffa,
            before: 104,
        },
        5 => Part {
            words: 0x4a0ffff03f3fc0fe,
            before: 138,
        },
        6 => Part {
            words: 0x74cffff031ffff36,
            before: 178,
        },
        7 => Part {
            words: 0x4cf3fffc3f0fcc02,
            before: 223,
        },
        8 => Part {
            words: 0x600790f83f3fc032,
            before: 261,
        },
        9 => Part {
            words: 0x40d1fefc0ffff10e,
            before: 290,
        },
        10 => Part {
            words: 0x7c03f8380fff9002,
            before: 328,
        },
        11 => Part {
            words: 0x5f33ef3c340380ee,
            before: 358,
        },
        12 => Part {
            words: 0x7005c0283a31f0ca,
            before: 391,
        },
        13 => Part {
            words: 0x40cf9f500c11c03e,
            before: 415,
        },
        14 => Part {
            words: 0x7403ff382f7ffffa,
            before: 441,
        },
        15 => Part {
            words: 0x3ffffff000010002,
            before: 484,
        },
        16 => Part {
            words: 0x400080000ffffffc,
            before: 512,
        },
        17 => Part {
            words: 0x5ffffef41cffc02e,
            before: 540,
        },
        18 => Part {
            words: 0x7c0388300af9f302,
            before: 583,
        },
        19 => Part {
            words: 0x530f8c5c1403a00e,
            before: 609,
        },
        20 => Part {
            words: 0x7701c02c3cf7ccfa,
            before: 633,
        },
        21 => Part {
            words: 0x4009fff01c1fc03e,
            before: 666,
        },
        22 => Part {
            words: 0x708ffff03f7f8b02,
            before: 696,
        },
        23 => Part {
            words: 0x4c03fcfc1f09e006,
            before: 734,
        },
        24 => Part {
            words: 0x4033f0fc3fffcf32,
            before: 763,
        },
        25 => Part {
            words: 0x6cffff8c0ffff32e,
            before: 801,
        },
        26 => Part {
            words: 0x7f03fcfc0ffff052,
            before: 846,
        },
        27 => Part {
            words: 0x5ff38f303403ccee,
            before: 886,
        },
        28 => Part {
            words: 0x5005c0287a31800a,
            before: 920,
        },
        29 => Part {
            words: 0x424bbe500e11c03e,
            before: 939,
        },
        30 => Part {
            words: 0x7ffffffc7ffffffe,
            before: 965,
        },
        _ => Part {
            words: 0x0000000000000000,
            before: 1024,
        },
    }
}
