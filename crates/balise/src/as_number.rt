// The answers of the public calls as numbers: their values, packed.
ghost use Rattle.std.specs.Prelude.{◌≡◌, [], ◌∷◌, Ok};
ghost use Rattle.refusals.specs.AnswerValues.{format_number, flipped_number, refusal_values};
ghost use Rattle.encoder.specs.Encoding.{encoded_values};
ghost use Rattle.checker.specs.Checking.{checked_values};
ghost use Rattle.maker.specs.Making.{made_values};
ghost use Rattle.lister.specs.Listing.{listed_values};
ghost use Rattle.reader.specs.Reads.{read_values};
ghost use Rattle.captures.specs.Captures.{capture_values};
ghost use Rattle.balise.specs.AsNumber.{packed, encoded_sizes, checked_sizes, made_sizes, listed_sizes, read_sizes, search_sizes, Fits};

use captures::Found;
use encoder::Encoded;
use formats::format::Format;
use lister::Listed;
use reader::Reading;
use refusals::Refusal;

// The format: 0 long, 1 short. The numbers are those of the exported answers, which `formats` does not know: no From of Format.
fn format_number(format: Format) -> u8
    ensures { result ≡ format_number format }
{
    match format {
        Format::Long => 0,
        Format::Short => 1,
    }
}

// 0 upright, 1 flipped.
fn flipped_number(flipped: bool) -> u8
    ensures { result ≡ flipped_number flipped }
{
    u8::from(flipped)
}

// The fields of a refusal: its number, and of the bad word that 9 carries the kind and the index.
fn refusal_fields(refusal: Refusal) -> u64
    requires { Fits checked_sizes (refusal_values refusal) }
    ensures { result ≡ packed checked_sizes (refusal_values refusal) }
{
    let number = refusal.number() as u64;
    let bad = refusal.bad_word();
    let kind = bad.kind;
    let index = bad.index as u64;
    number + 1024 * (kind.number() as u64 + 4096 * index)
}

// The fields of the encoder's answer, and of a listing's: there the highest field is 1 where there are no more.
fn encoded_fields(number: u8, format: u8, b: u16, esb: u16, tried: u32) -> u64
    ensures { result ≡ packed encoded_sizes (number ∷ format ∷ b ∷ esb ∷ tried ∷ []) }
{
    let shaping = esb as u64 + 1024 * (tried as u64);
    let scrambling = b as u64 + 4096 * shaping;
    number as u64 + 256 * (format as u64 + 2 * scrambling)
}

// The fields of a reading, found at the place.
fn found_fields(found: Found) -> u64
    requires { Fits search_sizes (capture_values (Ok found)) }
    ensures { result ≡ packed search_sizes (capture_values (Ok found)) }
{
    let reading = found.reading;
    let place = found.place;
    let format = reading.format;
    let flipped = reading.flipped;
    let b = reading.scrambling;
    let esb = reading.shaping;
    let turn = reading.turn;
    let above = turn as u64 + 1024 * (place as u64 + 65536 * (esb as u64));
    let scrambling = b as u64 + 4096 * above;
    256 * (format_number(format) as u64 + 2 * (flipped_number(flipped) as u64 + 2 * scrambling))
}

pub fn encoded(answer: Result<Encoded, Refusal>) -> u64
    ensures { result ≡ packed encoded_sizes (encoded_values answer) }
{
    match answer {
        Ok(first) => {
            let format = format_number(first.format);
            let pair = first.pair;
            encoded_fields(0, format, pair.scrambling, pair.shaping, first.tried)
        }
        Err(refusal) => encoded_fields(refusal.number(), 0, 0, 0, refusal.tried()),
    }
}

pub fn checked(answer: Result<Format, Refusal>) -> u64
    requires { Fits checked_sizes (checked_values answer) }
    ensures { result ≡ packed checked_sizes (checked_values answer) }
{
    match answer {
        Ok(format) => 256 * (format_number(format) as u64),
        Err(refusal) => refusal_fields(refusal),
    }
}

// As a checked telegram's.
pub fn made(answer: Result<Format, Refusal>) -> u64
    requires { Fits made_sizes (made_values answer) }
    ensures { result ≡ packed made_sizes (made_values answer) }
{
    checked(answer)
}

pub fn listed(answer: Result<Option<Listed>, Refusal>) -> u64
    ensures { result ≡ packed listed_sizes (listed_values answer) }
{
    match answer {
        Ok(Some(next)) => {
            let format = format_number(next.format);
            let pair = next.pair;
            encoded_fields(0, format, pair.scrambling, pair.shaping, 0)
        }
        Ok(None) => encoded_fields(0, 0, 0, 0, 1),
        Err(refusal) => encoded_fields(refusal.number(), 0, 0, 0, 0),
    }
}

// A reading has the fields of one that was found at place 0.
pub fn read(answer: Result<Reading, Refusal>) -> u64
    requires { Fits read_sizes (read_values answer) }
    ensures { result ≡ packed read_sizes (read_values answer) }
{
    match answer {
        Ok(reading) => found_fields(Found { place: 0, reading }),
        Err(refusal) => refusal_fields(refusal),
    }
}

pub fn searched(answer: Result<Found, Refusal>) -> u64
    requires { Fits search_sizes (capture_values answer) }
    ensures { result ≡ packed search_sizes (capture_values answer) }
{
    match answer {
        Ok(found) => found_fields(found),
        Err(refusal) => refusal.number() as u64,
    }
}
