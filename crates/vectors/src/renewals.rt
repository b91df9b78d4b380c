// When a sendir to connector 1 of a fresh hub is complete that is sent again some microseconds after its start.
use crate::{say, sending};
use hub::Hub;
use pace::Micros;

// Nothing is complete when it is sent again, and in the end one transmission is: at the expected moment, so long after it was sent again.
fn renewal_vector(rt: &impl Print, line: &[u8], again: u64, expected: u64) {
    let mut store = [0u16; Hub::COUNTS];
    let started = sending::sent(Hub::fresh(), &mut store, line);
    let waited = started.wait(Micros(again));
    let before = waited.completions;
    let renewed = sending::sent(waited.hub, &mut store, line);
    let done = renewed.wait(Micros(Hub::MOST_WAIT));
    let behind = done.completions;
    let first = behind.items[0];
    say::text(rt, b"sent again ");
    say::number(rt, again);
    say::text(rt, b" after ");
    say::text(rt, line);
    say::text(rt, b": expected complete at ");
    say::number(rt, expected);
    say::text(rt, b", got ");
    say::number(rt, again);
    say::text(rt, b" + ");
    say::number(rt, first.moment.0);
    say::verdict(
        rt,
        before.count == 0
            && behind.count == 1
            && expected.checked_sub(again) == Some(first.moment.0),
    );
}

// The first copy ends at 26,650 µs and each further one lasts 24,600: in the first copy nothing is added, at its end one copy is.
pub fn vectors(rt: &impl Print) {
    let line = b"sendir,1:1,7,40000,2,3,34,48,24,960";
    for (again, expected) in [(1, 51250), (26649, 51250), (26650, 75850)] {
        renewal_vector(rt, line, again, expected);
    }
}
