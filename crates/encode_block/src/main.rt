// Reads a block of user bits from standard input, characters 0 and 1, and writes the telegram that the encoder gives.
#![tactic(auto)]

use encoder::Encoded;
use formats::format::Long;
use std::io;
use telegrams::Pair;
use texts::{front, input, output};

// Lines three and four.
fn report(rt: &impl Print, block: &[u8]) -> io::Result<()> {
    let mut telegram = [0u8; Long::N];
    let answer = quick_encoder::encode(block, &mut telegram);
    match answer {
        Ok(
            Encoded {
                format,
                pair: Pair {
                    scrambling,
                    shaping,
                },
                tried,
            },
        ) => {
            println!(rt; "{format} sb {scrambling} esb {shaping} tried {tried}")?;
            output::print_bits(rt, front(&telegram, format.telegram_bits()))
        }
        Err(refusal) => output::print_refused(rt, refusal),
    }
}

fn main(rt: HostRuntime) -> io::Result<()> {
    output::print_header(&rt, b"encode")?;
    let mut block = [0u8; Long::M];
    let Ok(count) = input::read_text(&rt, &mut block) else {
        return output::print_bad(&rt);
    };
    output::print_count(&rt, count)?;
    report(&rt, front(&block, count))
}
