// A reply line read: a first reading of it, which is the answer if a hub can write that reply and this is its line.
ghost use Rattle.std.specs.Prelude.{◌≡◌, true};
ghost use Rattle.laws.specs.Lists.{same};
ghost use Rattle.reply.specs.Reply.{reply_text};
ghost use Rattle.logger.specs.Heard.{writable, device_line, line_of, Hears};
ghost use Rattle.hearing.specs.Guess.{without_cr};

use logger::{Device, Heard};
use reply::Reply;

// Whether a line is the word w.
fn is_word(s: &[u8], w: &[u8]) -> bool
    ensures { result ≡ same w.now s.now }
{
    s == w
}

// Whether a line, with a CR behind it, is what the hub writes for a reply.
fn is_reply(line: &[u8], reply: Reply) -> bool
    ensures { result ≡ same (without_cr (reply_text reply)) line.now }
{
    let mut buf = [0; Reply::ROOM];
    let n = reply::put_reply(&mut buf, reply);
    let end = n - 1;
    is_word(line, &buf[..end])
}

fn is_device(line: &[u8], device: Device) -> bool
    ensures { result ≡ same (device_line device) line.now }
{
    match device {
        Device::Ethernet => is_word(line, b"device,0,0 ETHERNET"),
        Device::Infrared => is_word(line, b"device,1,3 IR"),
        Device::Relays => is_word(line, b"device,2,3 RELAY"),
        Device::End => is_word(line, b"endlistdevices"),
    }
}

// Whether a line is that of a reply.
fn is_line(line: &[u8], h: Heard) -> bool
    requires { writable h ≡ true }
    ensures { result ≡ same (line_of h) line.now }
{
    match h {
        Heard::NotReply => false,
        Heard::State(place, state) => is_reply(line, Reply::State { place, state }),
        Heard::Complete(place, id) => is_reply(line, Reply::Complete { place, id }),
        Heard::Busy(place, id) => is_reply(line, Reply::Busy { place, id }),
        Heard::Stop(place) => is_reply(line, Reply::Stopped { place }),
        Heard::Mode(place, mode) => is_reply(line, Reply::Mode { place, mode }),
        Heard::Error(number, place) => is_reply(line, Reply::Error { number, place }),
        Heard::Version => is_word(line, b"LH-01"),
        Heard::Listed(device) => is_device(line, device),
        Heard::Lamp(place, level, target) => is_reply(
            line,
            Reply::Lamp {
                place,
                level,
                target,
            },
        ),
    }
}

// What a line is that came without its CR, as the assembler hands it on.
pub fn read_reply(line: &[u8]) -> Heard
    ensures { Hears line.now result }
{
    let h = crate::guess::guessed(line);
    if logger::table::writable(h) && is_line(line, h) {
        h
    } else {
        Heard::NotReply
    }
}
