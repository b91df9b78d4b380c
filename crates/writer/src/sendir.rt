// A sendir line, without its CR.
ghost use Rattle.std.specs.Prelude.{◌+◌, ◌≤◌, ◌<◌, length};
ghost use Rattle.text.specs.Write.{Room, Appended};
ghost use Rattle.writer.specs.Sendir.{Small, field_text, sendir_head, Wrote};

use crate::Form;
use code::Code;
use command::given::Command;
use text::write::Out;
use words::Fields;

// The least room that the writer takes.
pub const ROOM: usize = 4096;

// A number and its comma.
fn put_field(out: &mut Out<'_>, n: u64)
    requires { (n < 1000000) × Room out.old 7 }
    ensures field { Appended out.old out.new (field_text n) }
    ensures within { out.new.at ≤ out.old.at + 7 }
{
    out.number(n);
    out.byte(b',')
}

// All that stands before the code.
fn put_head(out: &mut Out<'_>, port: u64, f: Fields)
    requires { Small port f × Room out.old 44 }
    ensures head { Appended out.old out.new (sendir_head port f) }
    ensures within { out.new.at ≤ out.old.at + 44 }
{
    out.word(b"sendir,1:");
    put_field(out, port);
    put_field(out, f.id as u64);
    put_field(out, f.freq as u64);
    put_field(out, f.repeat as u64);
    put_field(out, f.offset as u64)
}

// The line of a command in either form: its length, or 105, then 106, and nothing written.
pub fn write_sendir(
    buf: &mut [u8],
    form: Form,
    command: Command,
    given: &[u64],
) -> Result<usize, u64>
    ensures { Wrote buf.old form command given.now buf.new result }
{
    if buf.len() < ROOM {
        return Err(105);
    }
    let mut counts = [0u16; Code::MOST_COUNTS];
    let (f, count) = command::given::command_given(command, given, &mut counts)?;
    let mut out = Out { buf, at: 0 };
    put_head(&mut out, command.place.port, f);
    crate::codetext::put_code(&mut out, form, count, &counts);
    Ok(out.at)
}
