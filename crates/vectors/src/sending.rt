// A hub that hears lines of connection 0.
ghost use Rattle.hub.specs.Record.{SoundHub};

use crate::say;
use hub::Hub;
use reply::Reply;

pub fn sent(hub: Hub, store: &mut [u16; Hub::COUNTS], line: &[u8]) -> Hub
    requires { SoundHub hub }
    ensures { SoundHub result }
{
    let mut reply = [0u8; Reply::ROOM];
    let answered = hub.line(store, 0, line, &mut reply);
    hub.applied(answered.change)
}

// What it replies to a line, without its CR, is printed beside what was expected: nothing where the line is only taken. Whether it is that.
pub fn replies(rt: &impl Print, hub: Hub, line: &[u8], expected: &[u8]) -> bool
    requires { SoundHub hub }
{
    let mut store = [0u16; Hub::COUNTS];
    let mut reply = [0u8; Reply::ROOM];
    let answered = hub.line(&mut store, 0, line, &mut reply);
    let got = &reply[..answered.size.saturating_sub(1).min(Reply::ROOM)];
    say::text(rt, b"expected <");
    say::text(rt, expected);
    say::text(rt, b">, got <");
    say::text(rt, got);
    say::text(rt, b">");
    got == expected
}
