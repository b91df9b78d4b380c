// How many lines told the state of one place, and how many of these told 1.
ghost use Rattle.std.specs.Prelude.{◌≡◌};
ghost use Rattle.logger.specs.Tally.{SoundTally, fresh_tally, tells, counted, average_of};

use crate::Heard;
use request::Place;

// The readings of one place, how many of them were 1, and how many lines were something else.
#[derive(Clone, Copy)]
pub struct Tally {
    pub place: Place,
    pub readings: u64,
    pub ones: u64,
    pub others: u64,
}

// Whether what was heard tells a state of a place.
fn tells(place: Place, heard: Heard, state: u64) -> bool
    ensures { result ≡ tells place state heard }
{
    match heard {
        Heard::State(a, told) => told == state && a == place,
        _ => false,
    }
}

impl Tally {
    // As many lines as are counted; a tally that has them stays as it is.
    pub const MOST: u64 = u64::MAX;

    // Before the first line.
    pub fn fresh(place: Place) -> Self
        ensures { result ≡ fresh_tally place }
    {
        Tally {
            place,
            readings: 0,
            ones: 0,
            others: 0,
        }
    }

    // After one line more.
    #[tactic(auto, unfolding(crate::specs::Tally::counted))]
    pub fn count(self, heard: Heard) -> Self
        requires { SoundTally self }
        ensures { result ≡ counted self heard }
    {
        if self.others == Tally::MOST - self.readings {
            return self;
        }
        if tells(self.place, heard, 1) {
            return Tally {
                readings: self.readings + 1,
                ones: self.ones + 1,
                ..self
            };
        }
        if tells(self.place, heard, 0) {
            return Tally {
                readings: self.readings + 1,
                ..self
            };
        }
        Tally {
            others: self.others + 1,
            ..self
        }
    }

    // The average of the place's readings: so many ones of so many readings; none where there is no reading.
    #[tactic(auto, unfolding(crate::specs::Tally::average_of))]
    pub fn average(self) -> Option<(u64, u64)>
        ensures { result ≡ average_of self }
    {
        if self.readings == 0 {
            return None;
        }
        Some((self.ones, self.readings))
    }
}
