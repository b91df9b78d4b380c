// A request's line.
ghost use Rattle.std.specs.Prelude.{◌≡◌, ◌++◌, ◌≤◌, length};
ghost use Rattle.laws.specs.Bytes.{bytes};
ghost use Rattle.text.specs.Write.{Room, Appended};
ghost use Rattle.request.specs.Name.{fixed_word};
ghost use Rattle.composer.specs.Fault.{judged};
ghost use Rattle.composer.specs.Compose.{wish_text, room_fault, wish_outcome, sendir_outcome, Composes};

use crate::{ROOM, Wish};
use command::given::Command;
use reply::put_address;
use request::Fixed;
use text::write::Out;
use writer::Form;

fn put_fixed(out: &mut Out<'_>, fixed: Fixed)
    requires { Room out.old 128 }
    ensures { Appended out.old out.new (fixed_word fixed ++ bytes "\r") }
{
    match fixed {
        Fixed::Devices => out.word(b"getdevices\r"),
        Fixed::Version => out.word(b"getversion\r"),
    }
}

// The bytes of a request and its CR.
fn put_wish(out: &mut Out<'_>, wish: Wish)
    requires { Room out.old 128 }
    ensures { Appended out.old out.new (wish_text wish ++ bytes "\r") }
{
    match wish {
        Wish::Fixed(fixed) => put_fixed(out, fixed),
        Wish::SetMode(place, mode) => {
            put_address(out, b"set_IR,", place);
            reply::put_mode(out, mode)
        }
        Wish::GetMode(place) => {
            put_address(out, b"get_IR,", place);
            out.byte(b'\r')
        }
        Wish::SetState(place, state) => {
            put_address(out, b"setstate,", place);
            reply::put_last(out, state)
        }
        Wish::GetState(place) => {
            put_address(out, b"getstate,", place);
            out.byte(b'\r')
        }
        Wish::Stop(place) => {
            put_address(out, b"stopir,", place);
            out.byte(b'\r')
        }
        Wish::SetLamp(place, target, ramp) => {
            put_address(out, b"set_LED_LIGHTING,", place);
            reply::put_two(out, target, ramp)
        }
        Wish::GetLamp(place) => {
            put_address(out, b"get_LED_LIGHTING,", place);
            out.byte(b'\r')
        }
    }
}

// 101 for too little room.
fn room_fault(room: usize) -> Result<(), u64>
    ensures { result ≡ judged (room_fault room) }
{
    if room < ROOM {
        return Err(101);
    }
    Ok(())
}

// The line of a request: its length with its CR, or the number that the hub would answer it, then 101, and nothing written.
pub fn compose(line: &mut [u8], wish: Wish) -> Result<usize, u64>
    ensures { Composes (wish_outcome (length line.old) wish) line.old result line.new }
{
    crate::fault::wish_fault(wish).and(room_fault(line.len()))?;
    let mut out = Out { buf: line, at: 0 };
    put_wish(&mut out, wish);
    Ok(out.at)
}

// The same of a sendir, in either form.
pub fn compose_sendir(
    line: &mut [u8],
    form: Form,
    command: Command,
    counts: &[u64],
) -> Result<usize, u64>
    ensures { Composes (sendir_outcome (length line.old) form command counts.now) line.old result line.new }
{
    crate::fault::sendir_fault(command, counts).and(room_fault(line.len()))?;
    let at = writer::sendir::write_sendir(line, form, command, counts)?;
    let mut out = Out { buf: line, at };
    out.byte(b'\r');
    Ok(out.at)
}
