// The lines that the programs print, to standard output. No contract can say what is written. A line that cannot be written
// is an error.
use crate::writing::write_text;
use refusals::Refusal;
use std::io;
use words::BadWord;

// The most bits that are written at once.
const CHUNK: usize = 1024;

// Line one.
pub fn print_header(rt: &impl Print, kind: &[u8]) -> io::Result<()> {
    rt.write_all(b"balise ")?;
    rt.write_all(kind)?;
    rt.write_all(b" 1\n")
}

// Line two: how many bits were read.
pub fn print_count(rt: &impl Print, count: usize) -> io::Result<()> {
    println!(rt; "bits {count}")
}

// Line two of a bad text.
pub fn print_bad(rt: &impl Print) -> io::Result<()> {
    println!(rt; "bad")
}

// Line three of a search that finds nothing.
pub fn print_none(rt: &impl Print) -> io::Result<()> {
    println!(rt; "none")
}

// Line three of a refusal: its number, for 4 the count of pairs tried, and for 9 the kind and the index of the first bad word
// (document 02, No. 13).
pub fn print_refused(rt: &impl Print, refusal: Refusal) -> io::Result<()> {
    let number = refusal.number();
    match refusal {
        Refusal::NoPair => {
            let tried = refusal.tried();
            println!(rt; "refused {number} tried {tried}")
        }
        Refusal::NotWord(BadWord { kind, index }) => {
            println!(rt; "refused {number} kind {kind} word {index}")
        }
        _ => println!(rt; "refused {number}"),
    }
}

// A line of bits. The text has room for all of a part, so that no bit is left out.
pub fn print_bits(rt: &impl Print, bits: &[u8]) -> io::Result<()> {
    for part in bits.chunks(CHUNK) {
        let mut text = [0u8; CHUNK];
        let n = write_text(part, &mut text);
        prove!(n == part.len());
        rt.write_all(&text[..n])?;
    }
    println!(rt)
}
