// The replies of the hub and the bytes of each, ended by CR.
#![tactic(auto)]

ghost use Rattle.std.specs.Prelude.{◌≡◌, ◌++◌, ◌+◌, ◌≤◌, length};
ghost use Rattle.laws.specs.Put.{Put};
ghost use Rattle.laws.specs.Bytes.{bytes};
ghost use Rattle.words.specs.Decimal.{decimal, three_digits};
ghost use Rattle.request.specs.Mode.{mode_word};
ghost use Rattle.text.specs.Write.{Room, Appended};
ghost use Rattle.reply.specs.Reply.{address_text, fixed_text, reply_text};

use request::mode::Mode;
use request::{Fixed, Place};
use text::write::Out;

#[derive(Clone, Copy)]
pub enum Reply {
    Fixed(Fixed),
    // ERR_m:p,nnn
    Error {
        number: u64,
        place: Place,
    },
    // IR,m:p,mode
    Mode {
        place: Place,
        mode: Mode,
    },
    // state,m:p,s
    State {
        place: Place,
        state: u64,
    },
    // completeir,m:p,id
    Complete {
        place: Place,
        id: u64,
    },
    // busyIR,m:p,id
    Busy {
        place: Place,
        id: u64,
    },
    // stopir,m:p
    Stopped {
        place: Place,
    },
    // LED_LIGHTING,m:p,level,target
    Lamp {
        place: Place,
        level: u64,
        target: u64,
    },
}

impl Reply {
    // The least room that a reply is written into.
    pub const ROOM: usize = 128;
}

// A word, and then m:p.
pub fn put_address(out: &mut Out<'_>, w: &[u8], place: Place)
    requires { Room out.old (length w.now + 41) }
    ensures { Appended out.old out.new (address_text w.now place) × (out.new.at ≤ out.old.at + (length w.now + 41)) }
{
    out.word(w);
    out.number(place.m);
    out.byte(b':');
    out.number(place.port)
}

// A comma, a number and the CR.
pub fn put_last(out: &mut Out<'_>, n: u64)
    requires { Room out.old 22 }
    ensures { Appended out.old out.new (bytes "," ++ decimal n ++ bytes "\r") }
{
    out.byte(b',');
    out.number(n);
    out.byte(b'\r')
}

// Two numbers, each behind a comma, and the CR.
pub fn put_two(out: &mut Out<'_>, n: u64, last: u64)
    requires { Room out.old 43 }
    ensures { Appended out.old out.new (bytes "," ++ (decimal n ++ bytes "," ++ decimal last) ++ bytes "\r") }
{
    out.byte(b',');
    out.number(n);
    out.byte(b',');
    out.number(last);
    out.byte(b'\r')
}

// A comma, three digits and the CR.
fn put_error_number(out: &mut Out<'_>, n: u64)
    requires { Room out.old 5 }
    ensures { Appended out.old out.new (bytes "," ++ three_digits n ++ bytes "\r") }
{
    out.byte(b',');
    out.byte(b'0' + (n / 100 % 10) as u8);
    out.byte(b'0' + (n / 10 % 10) as u8);
    out.byte(b'0' + (n % 10) as u8);
    out.byte(b'\r')
}

pub fn put_mode(out: &mut Out<'_>, mode: Mode)
    requires { Room out.old 14 }
    ensures { Appended out.old out.new (bytes "," ++ mode_word mode ++ bytes "\r") }
{
    match mode {
        Mode::Ir => out.word(b",IR\r"),
        Mode::Sensor => out.word(b",SENSOR\r"),
        Mode::IrBlaster => out.word(b",IR_BLASTER\r"),
        Mode::LedLighting => out.word(b",LED_LIGHTING\r"),
    }
}

// The whole reply of a request without an address.
fn put_fixed(out: &mut Out<'_>, fixed: Fixed)
    requires { Room out.old 66 }
    ensures { Appended out.old out.new (fixed_text fixed) }
{
    match fixed {
        Fixed::Devices => out.word(
            b"device,0,0 ETHERNET\rdevice,1,3 IR\rdevice,2,3 RELAY\rendlistdevices\r",
        ),
        Fixed::Version => out.word(b"LH-01\r"),
    }
}

// The bytes of a reply. Any numbers have room.
fn put(out: &mut Out<'_>, reply: Reply)
    requires { Room out.old 128 }
    ensures { Appended out.old out.new (reply_text reply) }
{
    match reply {
        Reply::Fixed(fixed) => put_fixed(out, fixed),
        Reply::Error { number, place } => {
            put_address(out, b"ERR_", place);
            put_error_number(out, number)
        }
        Reply::Mode { place, mode } => {
            put_address(out, b"IR,", place);
            put_mode(out, mode)
        }
        Reply::State { place, state } => {
            put_address(out, b"state,", place);
            put_last(out, state)
        }
        Reply::Complete { place, id } => {
            put_address(out, b"completeir,", place);
            put_last(out, id)
        }
        Reply::Busy { place, id } => {
            put_address(out, b"busyIR,", place);
            put_last(out, id)
        }
        Reply::Stopped { place } => {
            put_address(out, b"stopir,", place);
            out.byte(b'\r')
        }
        Reply::Lamp {
            place,
            level,
            target,
        } => {
            put_address(out, b"LED_LIGHTING,", place);
            put_two(out, level, target)
        }
    }
}

// The bytes of a reply at the start of a buffer; gives their number.
pub fn put_reply(buf: &mut [u8], reply: Reply) -> usize
    requires { 128 ≤ length buf.old }
    ensures { Put buf.old 0 (reply_text reply) buf.new result }
{
    let mut out = Out { buf, at: 0 };
    put(&mut out, reply);
    out.at
}
