// The carriers of a fresh hub some microseconds after a sendir to connector 1.
use crate::{say, sending};
use hub::Hub;
use pace::Micros;

fn say_carrier(rt: &impl Print, on: bool) {
    if on {
        say::text(rt, b"on");
    } else {
        say::text(rt, b"off");
    }
}

// Connector 1's carrier is as expected; the others transmit nothing.
fn carrier_vector(rt: &impl Print, line: &[u8], micros: u64, expected: bool) {
    let mut store = [0u16; Hub::COUNTS];
    let started = sending::sent(Hub::fresh(), &mut store, line);
    let waited = started.wait(Micros(micros));
    let carriers = waited.hub.carriers(&store);
    let got = carriers[0];
    say::text(rt, b"carrier ");
    say::number(rt, micros);
    say::text(rt, b" after ");
    say::text(rt, line);
    say::text(rt, b": expected ");
    say_carrier(rt, expected);
    say::text(rt, b", got ");
    say_carrier(rt, got);
    say::verdict(rt, got == expected && !carriers[1..].contains(&true));
}

// At 40,000 Hz a period lasts 25 µs: on for 34, off for 48, on for 24, off for 960 periods, and the second copy from the third count on.
fn whole_periods(rt: &impl Print) {
    let line = b"sendir,1:1,7,40000,2,3,34,48,24,960";
    let cases = [
        (0, true),
        (849, true),
        (850, false),
        (2049, false),
        (2050, true),
        (2649, true),
        (2650, false),
        (26649, false),
        (26650, true),
        (27249, true),
        (27250, false),
        (51250, false),
    ];
    for (micros, expected) in cases {
        carrier_vector(rt, line, micros, expected);
    }
}

// At 38,000 Hz four periods last 105 5/19 µs: the edges lie at 105.26, 210.53, 315.79 and 421.05 µs.
fn broken_periods(rt: &impl Print) {
    let line = b"sendir,1:1,7,38000,2,1,4,4";
    let cases = [
        (105, true),
        (106, false),
        (210, false),
        (211, true),
        (315, true),
        (316, false),
        (421, false),
        (422, false),
    ];
    for (micros, expected) in cases {
        carrier_vector(rt, line, micros, expected);
    }
}

pub fn vectors(rt: &impl Print) {
    whole_periods(rt);
    broken_periods(rt);
    // nothing is transmitted
    carrier_vector(rt, b"getversion", 0, false);
}
