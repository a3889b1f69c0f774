// The last 110 bits of a telegram from one esb to the next: the bits of esb that change, and with them the check bits, which are added to
// without a division (document 02, No. 7). A match and not an array: the compiler makes a constant table of it, where an array would be copied
// to the stack at each use.
ghost use Rattle.std.specs.Prelude.{◌≡◌, ◌+◌, ◌<◌};
ghost use Rattle.std.specs.Int.Bits.{bit_xor};
ghost use Rattle.formats.specs.Numbers.{numbers_of};
ghost use Rattle.formats.specs.Polynomial.{sum};
ghost use Rattle.quick_encoder.specs.Tail.{tail_bits, change_of, Change};

use crate::tail::Tail;
use formats::format::Format;

// What is added where the lowest k + 1 bits of esb change, all ten from k = 9 on: ones there, and the remainder of these times x^85 by the
// format's f*g.
fn change(format: Format, k: u32) -> Tail
    ensures { Change (numbers_of format) k result }
{
    match format {
        Format::Long => match k {
            0 => Tail {
                high: 0x0000007d82e312,
                low: 0x0c6f72c063b091,
            },
            1 => Tail {
                high: 0x000000fb05c624,
                low: 0x18dee580c76122,
            },
            2 => Tail {
                high: 0x000001f60b8c48,
                low: 0x31bdcb018ec244,
            },
            3 => Tail {
                high: 0x000003ec171890,
                low: 0x637b96031d8488,
            },
            4 => Tail {
                high: 0x000007d82e3121,
                low: 0x46f72c063b0910,
            },
            5 => Tail {
                high: 0x00000fcdde8151,
                low: 0x01812acc15a2b1,
            },
            6 => Tail {
                high: 0x00001fe63fe1b0,
                low: 0x0f6d275848f5f3,
            },
            7 => Tail {
                high: 0x00003fcc7fc360,
                low: 0x1eda4eb091ebe6,
            },
            8 => Tail {
                high: 0x00007fe57d65d2,
                low: 0x31dbefa140675d,
            },
            _ => Tail {
                high: 0x0000ffcafacba4,
                low: 0x63b7df4280ceba,
            },
        },
        Format::Short => match k {
            0 => Tail {
                high: 0x00000057729b0e,
                low: 0x757959021b6d65,
            },
            1 => Tail {
                high: 0x000000f997ad13,
                low: 0x1f8beb062db7af,
            },
            2 => Tail {
                high: 0x000001f32f5a26,
                low: 0x3f17d60c5b6f5e,
            },
            3 => Tail {
                high: 0x000003e65eb44c,
                low: 0x7e2fac18b6debc,
            },
            4 => Tail {
                high: 0x000007ccbd6899,
                low: 0x7c5f58316dbd78,
            },
            5 => Tail {
                high: 0x00000fce084a3d,
                low: 0x0dc7e960c01795,
            },
            6 => Tail {
                high: 0x00001fcb620f74,
                low: 0x6ef68bc39b424f,
            },
            7 => Tail {
                high: 0x00003fc1b685e7,
                low: 0x28944e852de9fb,
            },
            8 => Tail {
                high: 0x00007fd41f90c0,
                low: 0x2451c40840be93,
            },
            _ => Tail {
                high: 0x0000ffff4dba8e,
                low: 0x3ddad1129a1043,
            },
        },
    }
}

// The tail for the next esb, from that for this one. The bits that change are the zeros at the end of the next esb, and the one before them.
pub fn next(format: Format, tail: Tail, esb: u16) -> Tail
    requires { esb < 1024 }
    ensures { tail_bits result ≡ sum (tail_bits tail) (change_of (numbers_of format) (bit_xor esb (esb + 1))) }
{
    tail ^ change(format, u16::trailing_zeros(esb + 1))
}
