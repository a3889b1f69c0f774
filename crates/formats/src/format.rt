// The two formats and their fixed numbers (document 01, "What the bench takes in"), and the polynomials
// f and g of each by their exponents (document 01, "Check bits").
ghost use Rattle.std.specs.Prelude.{◌≡◌};
ghost use Rattle.bits.specs.Bits.{number_of};
ghost use Rattle.formats.specs.Numbers.{Numbers, long, short, numbers_of, window_bits, format_for, f_of, g_of, fg_of};
ghost use Rattle.formats.specs.Value.{value_of};

use crate::register::Register;
use std::fmt;

#[derive(Clone, Copy)]
pub enum Format {
    Long,
    Short,
}

// The polynomials of a format's type, in registers.
pub trait Polynomials {
    ghost numbers: { Numbers };

    fn f() -> Register
        ensures { value_of result ≡ number_of (f_of numbers) };

    fn g() -> Register
        ensures { value_of result ≡ number_of (g_of numbers) };

    fn fg() -> Register
        ensures { value_of result ≡ number_of (fg_of numbers) };
}

// The long format: its numbers are constants of the type, and its polynomials constructors, as document 01 names them.
#[derive(Clone, Copy)]
pub struct Long {}

impl Long {
    // Telegram bits, user bits, extra bits of a window, words.
    pub const N: usize = 1023;

    pub const M: usize = 830;

    pub const R: usize = 77;

    pub const WORDS: usize = 93;

    // The exponents of f and of g.
    const F: [u8; 9] = [10, 9, 7, 6, 4, 3, 2, 1, 0];

    const G: [u8; 39] = [
        75, 73, 72, 71, 67, 62, 61, 60, 57, 56, 55, 52, 51, 49, 46, 45, 44, 43, 41, 37, 35, 34, 33,
        31, 30, 28, 26, 24, 21, 17, 16, 15, 13, 12, 11, 9, 4, 1, 0,
    ];
}

impl Polynomials for Long {
    ghost numbers = { long };

    fn f() -> Register {
        let exponents = Long::F;
        Register::of(&exponents)
    }

    fn g() -> Register {
        let exponents = Long::G;
        Register::of(&exponents)
    }

    fn fg() -> Register {
        Register {
            high: 0x3ec171,
            low: 0x890c6f72c063b091,
        }
    }
}

// The short format, likewise.
#[derive(Clone, Copy)]
pub struct Short {}

impl Short {
    // Telegram bits, user bits, extra bits of a window, words.
    pub const N: usize = 341;

    pub const M: usize = 210;

    pub const R: usize = 121;

    pub const WORDS: usize = 31;

    // The exponents of f and of g.
    const F: [u8; 7] = [10, 8, 7, 5, 3, 1, 0];

    const G: [u8; 43] = [
        75, 72, 71, 70, 69, 68, 66, 65, 64, 63, 60, 55, 54, 49, 47, 46, 45, 44, 43, 42, 41, 39, 38,
        37, 36, 34, 33, 32, 31, 30, 27, 25, 22, 19, 17, 13, 12, 11, 10, 6, 3, 1, 0,
    ];
}

impl Polynomials for Short {
    ghost numbers = { short };

    fn f() -> Register {
        let exponents = Short::F;
        Register::of(&exponents)
    }

    fn g() -> Register {
        let exponents = Short::G;
        Register::of(&exponents)
    }

    fn fg() -> Register {
        Register {
            high: 0x2bb94d,
            low: 0x87757959021b6d65,
        }
    }
}

impl Format {
    // The format that an input's length picks, from the length that the input has in the short format. A length that is
    // neither format's picks long.
    pub fn of_length(short: usize, size: usize) -> Self
        ensures { result ≡ format_for short size }
    {
        if size == short {
            Format::Short
        } else {
            Format::Long
        }
    }

    // The format's telegram bits.
    pub fn telegram_bits(self) -> usize
        ensures { result ≡ (numbers_of self).n }
    {
        match self {
            Format::Long => Long::N,
            Format::Short => Short::N,
        }
    }

    // The format's user bits.
    pub fn user_bits(self) -> usize
        ensures { result ≡ (numbers_of self).m }
    {
        match self {
            Format::Long => Long::M,
            Format::Short => Short::M,
        }
    }

    // How many bits at the end of the format's window repeat its first.
    pub fn extra_bits(self) -> usize
        ensures { result ≡ (numbers_of self).r }
    {
        match self {
            Format::Long => Long::R,
            Format::Short => Short::R,
        }
    }

    // The bits of the format's window.
    pub fn window_bits(self) -> usize
        ensures { result ≡ window_bits (numbers_of self) }
    {
        self.telegram_bits() + self.extra_bits()
    }

    // The format's words.
    pub fn words(self) -> usize
        ensures { result ≡ (numbers_of self).words }
    {
        match self {
            Format::Long => Long::WORDS,
            Format::Short => Short::WORDS,
        }
    }

    // The format's f.
    pub fn f(self) -> Register
        ensures { value_of result ≡ number_of (f_of (numbers_of self)) }
    {
        match self {
            Format::Long => Long::f(),
            Format::Short => Short::f(),
        }
    }

    // The format's g.
    pub fn g(self) -> Register
        ensures { value_of result ≡ number_of (g_of (numbers_of self)) }
    {
        match self {
            Format::Long => Long::g(),
            Format::Short => Short::g(),
        }
    }

    // The format's f*g.
    pub fn fg(self) -> Register
        ensures { value_of result ≡ number_of (fg_of (numbers_of self)) }
    {
        match self {
            Format::Long => Long::fg(),
            Format::Short => Short::fg(),
        }
    }
}

// The format's word (document 01, "Bench sheet").
impl fmt::Display for Format {
    fn fmt<W: fmt::Write>(&self, f: &mut fmt::Formatter<W>) -> fmt::Result {
        match self {
            Format::Long => write!(f, "long"),
            Format::Short => write!(f, "short"),
        }
    }
}
