// The lamp of connector 1 of a hub some microseconds after a line.
ghost use Rattle.hub.specs.Record.{SoundHub};

use crate::{say, sending};
use hub::Hub;
use pace::Micros;

// The hub some microseconds after a line; a lamp keeps nothing in the store.
fn later(hub: Hub, line: &[u8], micros: u64) -> Hub
    requires { SoundHub hub }
    ensures { SoundHub result }
{
    let mut store = [0u16; Hub::COUNTS];
    let told = sending::sent(hub, &mut store, line);
    told.wait(Micros(micros)).hub
}

// A fresh hub whose connector 1 is a lamp: it is dark.
fn dark() -> Hub
    ensures { SoundHub result }
{
    later(Hub::fresh(), b"set_IR,1:1,LED_LIGHTING", 0)
}

// The level and the reply of the lamp are as expected; the other connectors have none.
fn lamp_vector(rt: &impl Print, hub: Hub, line: &[u8], micros: u64, level: u64, reply: &[u8])
    requires { SoundHub hub }
{
    let later = later(hub, line, micros);
    let levels = later.levels();
    say::text(rt, b"lamp ");
    say::number(rt, micros);
    say::text(rt, b" after ");
    say::text(rt, line);
    say::text(rt, b": expected level ");
    say::number(rt, level);
    say::text(rt, b", got ");
    say::number(rt, levels[0]);
    say::text(rt, b"; ");
    let replied = sending::replies(rt, later, b"get_LED_LIGHTING,1:1", reply);
    say::verdict(rt, replied && levels == [level, 0, 0]);
}

// Ramp 3 moves 3 percent in each 100,000 µs, exactly: 4 percent lie at 133,333 1/3 µs, and 100 at 3,333,333 1/3.
fn rising(rt: &impl Print, dark: Hub, line: &[u8])
    requires { SoundHub dark }
{
    let cases: [(u64, u64, &[u8]); 6] = [
        (0, 0, b"LED_LIGHTING,1:1,0,100"),
        (100000, 3, b"LED_LIGHTING,1:1,3,100"),
        (133333, 3, b"LED_LIGHTING,1:1,3,100"),
        (133334, 4, b"LED_LIGHTING,1:1,4,100"),
        (3333333, 99, b"LED_LIGHTING,1:1,99,100"),
        (3333334, 100, b"LED_LIGHTING,1:1,100,100"),
    ];
    for (micros, level, reply) in cases {
        lamp_vector(rt, dark, line, micros, level, reply);
    }
}

// A falling level is rounded down too, and a new target starts from the exact level, 3.99999 percent.
pub fn vectors(rt: &impl Print) {
    let up = b"set_LED_LIGHTING,1:1,100,3";
    let dark = dark();
    rising(rt, dark, up);
    let full = later(dark, b"set_LED_LIGHTING,1:1,100,0", 0);
    let down = b"set_LED_LIGHTING,1:1,1,10";
    lamp_vector(rt, full, down, 1, 99, b"LED_LIGHTING,1:1,99,1");
    lamp_vector(rt, full, down, 990000, 1, b"LED_LIGHTING,1:1,1,1");
    let begun = later(dark, up, 133333);
    let turned = b"set_LED_LIGHTING,1:1,1,1";
    lamp_vector(rt, begun, turned, 99999, 3, b"LED_LIGHTING,1:1,3,1");
    lamp_vector(rt, begun, turned, 100000, 2, b"LED_LIGHTING,1:1,2,1");
}
