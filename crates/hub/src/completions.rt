// The completions of a wait.
ghost use Rattle.std.specs.Prelude.{◌≡◌, [], ltb, length, position, unwrap_or};
ghost use Rattle.hub.specs.Completions.{completions_of, put_in};

use crate::Hub;
use connector::{Completion, Owner};
use pace::Micros;
use request::Place;

// The completions of a wait in their order; those behind the count are none. The count stays beside the array: there is no heap, and the record
// goes by value.
#[derive(Clone, Copy)]
pub struct Completions {
    pub count: usize,
    pub items: [Completion; Hub::CONNECTORS],
}

// Where one more goes among some: behind those that are not later.
fn place_in(items: &[Completion], x: Completion) -> usize
    ensures { result ≡ unwrap_or (position (λ y. ltb x.moment.0 y.moment.0) items.now) (length items.now) }
{
    items
        .iter()
        .position(|y| x.moment.0 < y.moment.0)
        .unwrap_or(items.len())
}

impl Completions {
    pub fn none() -> Self
        ensures { result ≡ completions_of [] }
    {
        let none = Completion {
            owner: Owner::Nobody,
            moment: Micros(0),
            place: Place::nowhere(),
            id: 0,
        };
        Completions {
            count: 0,
            items: [none; Hub::CONNECTORS],
        }
    }

    // One more, behind those that are not later, while there is room: from its place on each moves on by one.
    pub fn with(self, x: Completion) -> Self
        ensures { result ≡ put_in self x }
    {
        let Completions { count, mut items } = self;
        if Hub::CONNECTORS <= count {
            return self;
        }
        let at = place_in(&items[..count], x);
        items.copy_within(at..count, at + 1);
        items[at] = x;
        Completions {
            count: count + 1,
            items,
        }
    }
}
