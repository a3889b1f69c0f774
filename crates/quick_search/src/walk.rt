// One step of a format's walk through a capture: from a place to the next at which its window need be tried.
ghost use Rattle.std.specs.Prelude.{◌≡◌, ◌≤◌, ◌<◌, false, T, length};
ghost use Rattle.bits.specs.Bits.{all_bits};
ghost use Rattle.formats.specs.Numbers.{numbers_of};
ghost use Rattle.quick_search.specs.Stepped.{GoesOn, Stepped};

use crate::pairs;
use captures::Found;
use formats::format::Format;
use reader::{Asked, Window, tested};

// Where a walk stands: a place, before which no window is accepted, and whether a refused run goes on up to it.
#[derive(Clone, Copy)]
pub struct Walk {
    pub place: usize,
    pub refused: bool,
}

impl Walk {
    // At a place up to which no refused run goes on.
    pub fn at(place: usize) -> Walk
        ensures place { result.place ≡ place }
        ensures refused { result.refused ≡ false }
    {
        Walk {
            place,
            refused: false,
        }
    }

    // What is found at the place, or nothing: then the walk goes on from a later one. A pair that differs bars every place whose window has it
    // at its ends. Where all agree the window is read, unless it goes on a refused run: the verdict goes by the ring and not by the turn, so
    // that it is refused too. Either way no place up to the end of its pairs is accepted.
    pub fn step(&mut self, format: Format, capture: &[u8], output: &mut [u8]) -> Option<Found>
        requires are_bits { T (all_bits capture.now) }
        requires place_in_bounds { self.old.place < length capture.now }
        requires goes_on { GoesOn format capture.now self.old.place self.old.refused }
        requires format_in_bounds { (numbers_of format).m ≤ length output.old }
        ensures { Stepped format capture.now self.old.place output.old result self.new output.new }
    {
        let place = self.place;
        let bits = captures::window_at(format, capture, place);
        if bits.len() == 0 {
            *self = Walk::at(capture.len());
            return None;
        }
        let n = format.telegram_bits();
        let end = place + format.extra_bits();
        let agreed = pairs::agreed_from(n, capture, place, end);
        if place < agreed {
            *self = Walk::at(agreed);
            return None;
        }
        if !self.refused {
            let window = Window { format, bits };
            if let Ok(reading) = tested::read_bits(Asked::Proper, window, output) {
                return Some(Found { place, reading });
            }
        }
        *self = Walk {
            place: end,
            refused: true,
        };
        None
    }
}
