// The public calls for a caller in another language. A call answers one number, the values of its answer packed into the fields
// that specs/AsNumber.antt gives, and asks nothing of what it is given.
#![tactic(auto)]

ghost use Rattle.std.specs.Prelude.{◌≡◌};
ghost use Rattle.encoder.specs.Encoding.{encoded_values, encode_of};
ghost use Rattle.checker.specs.Checking.{checked_values, check_of};
ghost use Rattle.maker.specs.Making.{made_values, make_of};
ghost use Rattle.lister.specs.Listing.{listed_values, next_of};
ghost use Rattle.reader.specs.Reads.{read_values, read_of, read_well_formed_of};
ghost use Rattle.captures.specs.Captures.{capture_values, search_of};
ghost use Rattle.balise.specs.AsNumber.{packed, encoded_sizes, checked_sizes, made_sizes, listed_sizes, read_sizes, search_sizes};

mod as_number;

// Encodes a block: its telegram over the front of output. A refusal keeps every byte of output.
pub fn balise_encode(block: &[u8], output: &mut [u8]) -> u64
    ensures answers { result ≡ packed encoded_sizes (encoded_values (encode_of block.now output.old).answer) }
    ensures writes { output.new ≡ (encode_of block.now output.old).output }
{
    let answer = quick_encoder::encode(block, output);
    as_number::encoded(answer)
}

// Encodes a block by the plain search, which forms and tests each pair in order: the answers and bytes of balise_encode, for comparison.
pub fn balise_encode_plain(block: &[u8], output: &mut [u8]) -> u64
    ensures plain_answers { result ≡ packed encoded_sizes (encoded_values (encode_of block.now output.old).answer) }
    ensures plain_writes { output.new ≡ (encode_of block.now output.old).output }
{
    let plain = encoder::encode(block, output);
    as_number::encoded(plain)
}

// Checks a telegram.
pub fn balise_check(telegram: &[u8]) -> u64
    ensures { result ≡ packed checked_sizes (checked_values (check_of telegram.now)) }
{
    let answer = checker::check(telegram);
    as_number::checked(answer)
}

// Makes the telegram of a block, B and esb, without a search: over the front of output. A refusal keeps every byte of output.
pub fn balise_make(block: &[u8], b: u64, esb: u64, output: &mut [u8]) -> u64
    ensures answers { result ≡ packed made_sizes (made_values (make_of block.now b esb output.old).answer) }
    ensures writes { output.new ≡ (make_of block.now b esb output.old).output }
{
    let answer = maker::make(block, b, esb, output);
    as_number::made(answer)
}

// The next proper pair of a block at or after b and esb: its telegram over the front of output. No more, and a refusal, keep every byte
// of output.
pub fn balise_next(block: &[u8], b: u64, esb: u64, output: &mut [u8]) -> u64
    ensures answers { result ≡ packed listed_sizes (listed_values (next_of block.now b esb output.old).answer) }
    ensures writes { output.new ≡ (next_of block.now b esb output.old).output }
{
    let answer = lister::next(block, b, esb, output);
    as_number::listed(answer)
}

// Reads a window of a proper telegram: its user bits over the front of output. A refusal keeps every byte of output.
pub fn balise_read(window: &[u8], output: &mut [u8]) -> u64
    ensures answers { result ≡ packed read_sizes (read_values (read_of window.now output.old).answer) }
    ensures writes { output.new ≡ (read_of window.now output.old).output }
{
    let answer = reader::read(window, output);
    as_number::read(answer)
}

// Reads a window of a telegram that need only be well-formed. Otherwise as balise_read.
pub fn balise_read_well_formed(window: &[u8], output: &mut [u8]) -> u64
    ensures answers { result ≡ packed read_sizes (read_values (read_well_formed_of window.now output.old).answer) }
    ensures writes { output.new ≡ (read_well_formed_of window.now output.old).output }
{
    let answer = reader::read_well_formed(window, output);
    as_number::read(answer)
}

// Searches a capture for the first window that reads.
pub fn balise_search(capture: &[u8]) -> u64
    ensures { result ≡ packed search_sizes (capture_values (search_of capture.now)) }
{
    let answer = quick_search::search(capture);
    as_number::searched(answer)
}

// Searches a capture by the plain search, which tries each place in order: the answers of balise_search, for comparison.
pub fn balise_search_plain(capture: &[u8]) -> u64
    ensures plain_answers { result ≡ packed search_sizes (capture_values (search_of capture.now)) }
{
    let plain = captures::search(capture);
    as_number::searched(plain)
}
