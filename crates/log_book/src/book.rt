// The tallies that are kept, one for each place that has a state.
ghost use Rattle.log_book.specs.Book.{SoundAll};

use logger::Heard;
use logger::tally::Tally;
use request::Place;

// Those of the connectors come first, then those of the relays.
#[derive(Clone, Copy)]
pub struct Book {
    tallies: [Tally; Book::PLACES],
    ghost each: { SoundAll tallies },
}

// The place of a slot, counted from 0.
fn place_of(slot: usize) -> Place {
    if slot < Place::CONNECTORS {
        Place::connector(slot)
    } else {
        Place {
            m: Place::RELAY,
            port: (slot - Place::CONNECTORS) as u64 + 1,
        }
    }
}

impl Book {
    pub const PLACES: usize = Place::CONNECTORS + Place::RELAYS;

    // Before the first line.
    pub fn fresh() -> Self {
        let mut tallies = [Tally::fresh(Place::nowhere()); Book::PLACES];
        for slot in 0..Book::PLACES {
            tallies[slot] = Tally::fresh(place_of(slot));
        }
        Book { tallies }
    }

    // One line more: each tally counts it.
    pub fn count(&mut self, heard: Heard) {
        for slot in 0..Book::PLACES {
            self.tallies[slot] = self.tallies[slot].count(heard);
        }
    }

    // A place that has no state has no reading.
    pub fn average(&self, place: Place) -> Option<(u64, u64)> {
        self.tallies.iter().find(|t| t.place == place)?.average()
    }
}
