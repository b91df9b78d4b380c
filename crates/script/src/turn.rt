// One line of the script done: what is printed behind what there is, and what becomes of the hub.
ghost use Rattle.std.specs.Prelude.{◌≡◌, ◌++◌, ◌+◌, ◌≤◌, length};
ghost use Rattle.laws.specs.Put.{over, Put};
ghost use Rattle.words.specs.Decimal.{decimal};
ghost use Rattle.reply.specs.Reply.{reply_text};
ghost use Rattle.hub.specs.Record.{SoundHub};
ghost use Rattle.hub.specs.Line.{Answers, bytes_of};
ghost use Rattle.script.specs.Output.{printed_reply, printed_also, printed_answer, printed_call, printed_other, is_one_line};
ghost use Rattle.script.specs.Turn.{line_outcome, reading_made, closing_made, waiting_made, Changes, Makes, ForOne};

use crate::output;
use connector::Owner;
use hub::{Answer, Answered, Hub, HubChange, Store};
use pace::Micros;
use reply::Reply;
use request::Fixed;

// How many bytes are to be written, and what changes of the hub.
#[derive(Clone, Copy)]
pub struct Changed {
    pub used: usize,
    pub change: HubChange,
}

// The same with the whole hub.
#[derive(Clone, Copy)]
pub struct Passed {
    pub used: usize,
    pub hub: Hub,
}

// All that a turn can print has room in so many bytes.
pub const ROOM: usize = 1024;

fn is_one_line(reply: Reply) -> bool
    ensures { result ≡ is_one_line reply }
{
    !matches!(reply, Reply::Fixed(Fixed::Devices))
}

// A reply of several lines: its bytes are written aside, and each line is put for the asker.
fn put_alone(out: &mut [u8], used: usize, connection: u8, reply: Reply) -> usize
    requires { used + 1024 ≤ length out.old }
    ensures { Put out.old used (printed_reply (decimal connection) (reply_text reply)) out.new result }
{
    let mut text = [0u8; Reply::ROOM];
    let size = reply::put_reply(&mut text, reply);
    output::put_lines(out, used, Owner::Connection(connection), &text[..size])
}

// The same for one connection, and then for another.
fn put_both(out: &mut [u8], used: usize, connection: u8, other: u8, reply: Reply) -> usize
    requires { used + 1024 ≤ length out.old }
    ensures { Put out.old used
        (printed_reply (decimal connection) (reply_text reply) ++ printed_reply (decimal other) (reply_text reply)) out.new result }
{
    let mut text = [0u8; Reply::ROOM];
    let size = reply::put_reply(&mut text, reply);
    let o = output::put_lines(out, used, Owner::Connection(connection), &text[..size]);
    output::put_lines(out, o, Owner::Connection(other), &text[..size])
}

// A reply as lines, the asker's before the owner's; its bytes stand behind room for the asker's number.
fn put_reply(
    out: &mut [u8],
    used: usize,
    connection: u8,
    reply: Reply,
    also: Owner,
    size: usize,
) -> usize
    requires { (used + 1024 ≤ length out.old) × (connection ≤ 7) × (size ≡ length (reply_text reply))
        × (out.old ≡ over out.old (used + 2) (reply_text reply)) }
    ensures { Put out.old used (printed_reply (decimal connection) (reply_text reply) ++ printed_also also (reply_text reply))
        out.new result }
{
    match also {
        Owner::Connection(owner) => put_both(out, used, connection, owner, reply),
        Owner::Nobody => {
            if is_one_line(reply) {
                return output::put_around(out, used, connection, size);
            }
            put_alone(out, used, connection, reply)
        }
    }
}

// The answer to a line, whose reply stands behind room for the asker's number.
fn put_answer(out: &mut [u8], used: usize, connection: u64, answer: Answer, size: usize) -> usize
    requires { (used + 1024 ≤ length out.old) × ForOne connection answer × (size ≡ length (bytes_of answer))
        × (out.old ≡ over out.old (used + 2) (bytes_of answer)) }
    ensures { Put out.old used (printed_answer connection answer) out.new result }
{
    match answer {
        Answer::Refused(number) => output::put_refusal(out, used, number),
        Answer::Taken => used,
        Answer::Reply { reply, also } => {
            put_reply(out, used, connection as u8, reply, also, size)
        }
    }
}

// The answer to a call that has no reply.
fn put_call(out: &mut [u8], used: usize, answer: Answer) -> usize
    requires { used + 22 ≤ length out.old }
    ensures { Put out.old used (printed_call answer) out.new result × (result ≤ used + 22) }
{
    match answer {
        Answer::Refused(number) => output::put_refusal(out, used, number),
        _ => used,
    }
}

// What a request is answered; where only its first bytes were kept, it is overlong.
fn answered(
    hub: Hub,
    store: &mut Store,
    connection: u64,
    request: &[u8],
    more: bool,
    reply: &mut [u8],
) -> Answered
    requires { SoundHub hub × (128 ≤ length reply.old) }
    ensures { Answers (line_outcome hub store.old connection request.now more)
        reply.old result store.new reply.new }
{
    if more {
        return Hub::overlong_line(connection, reply);
    }
    hub.line(store, connection, request, reply)
}

// A request from a connection; the reply is written where it is to stand, behind room for a digit and a space.
pub fn line(
    hub: Hub,
    store: &mut Store,
    connection: u64,
    request: &[u8],
    more: bool,
    out: &mut [u8],
    used: usize,
) -> Changed
    requires { SoundHub hub × (used + 1024 ≤ length out.old) }
    ensures { Changes connection (line_outcome hub store.old connection request.now more)
        out.old used result store.new out.new }
{
    let from = used + 2;
    let answered = answered(hub, store, connection, request, more, &mut out[from..]);
    Changed {
        used: put_answer(out, used, connection, answered.answer, answered.size),
        change: answered.change,
    }
}

// A contact reading.
pub fn reading(hub: Hub, port: u64, value: u64, out: &mut [u8], used: usize) -> Passed
    requires { used + 1024 ≤ length out.old }
    ensures { Makes (reading_made hub port value) out.old used result out.new }
{
    let decided = hub.reading(port, value);
    Passed {
        used: put_call(out, used, decided.answer),
        hub: hub.applied(decided.change),
    }
}

// A closed connection.
pub fn closing(hub: Hub, connection: u64, out: &mut [u8], used: usize) -> Passed
    requires { used + 1024 ≤ length out.old }
    ensures { Makes (closing_made hub connection) out.old used result out.new }
{
    let moved = hub.closed(connection);
    Passed {
        used: put_call(out, used, moved.answer),
        hub: moved.hub,
    }
}

// A wait.
pub fn waiting(hub: Hub, micros: u64, out: &mut [u8], used: usize) -> Passed
    requires { SoundHub hub × (used + 1024 ≤ length out.old) }
    ensures { Makes (waiting_made hub micros) out.old used result out.new }
{
    let waited = hub.wait(Micros(micros));
    let o = put_call(out, used, waited.answer);
    Passed {
        used: output::put_completions(out, o, waited.completions),
        hub: waited.hub,
    }
}

// A line of another form.
pub fn other(out: &mut [u8], used: usize) -> usize
    requires { used + 1024 ≤ length out.old }
    ensures { Put out.old used printed_other out.new result }
{
    text::write::put_word(out, used, b"!\n")
}
