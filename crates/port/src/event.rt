// An event answered: its frames are laid into `out` from a place on. The server is lent, and not taken and given back: most events leave it as
// it is.
ghost use Rattle.std.specs.Prelude.{◌+◌, ◌≤◌, length};
ghost use Rattle.laws.specs.Put.{Put};
ghost use Rattle.server.specs.Record.{SoundServer};
ghost use Rattle.server.specs.Calls.{due_of};
ghost use Rattle.port.specs.Event.{due_frames, closed_of, reading_of, wait_of, event_of, Does};

use frames::Event;
use hub::Store;
use output::{
    put_answer, put_carriers, put_completions, put_due, put_levels, put_not_due, put_refusal,
};
use pace::Micros;
use server::Server;

fn closed(server: &mut Server, connection: u8, out: &mut [u8], at: usize) -> usize
    requires { at + 512 ≤ length out.old }
    ensures { Does (closed_of server.old connection) out.old at result server.new out.new }
{
    let served = server.closed(connection as u64);
    *server = served.server;
    put_answer(out, at, connection, served.answer, b"")
}

fn reading(server: &mut Server, port: u8, value: u8, out: &mut [u8], at: usize) -> usize
    requires { at + 512 ≤ length out.old }
    ensures { Does (reading_of server.old port value) out.old at result server.new out.new }
{
    let served = server.reading(port as u64, value as u64);
    *server = served.server;
    put_answer(out, at, port, served.answer, b"")
}

fn waited(server: &mut Server, connection: u8, n: Micros, out: &mut [u8], at: usize) -> usize
    requires { SoundServer server.old × (at + 512 ≤ length out.old) }
    ensures { Does (wait_of server.old connection n.0) out.old at result server.new out.new }
{
    let served = server.wait(n);
    *server = served.server;
    let a = put_answer(out, at, connection, served.answer, b"");
    put_completions(out, a, served.completions)
}

// When the next completion is due.
fn put_next(server: &Server, out: &mut [u8], at: usize) -> usize
    requires { SoundServer server.now × (at + 512 ≤ length out.old) }
    ensures { Put out.old at (due_frames (due_of server.now)) out.new result }
{
    match server.due() {
        None => put_not_due(out, at),
        Some(n) => put_due(out, at, n),
    }
}

// Where nothing is complete, nothing is answered.
#[tactic(auto, unfolding(crate::specs::Event::event_of))]
pub fn answered(
    server: &mut Server,
    store: &Store,
    event: Option<Event>,
    out: &mut [u8],
    at: usize,
) -> usize
    requires { SoundServer server.old × (at + 512 ≤ length out.old) }
    ensures { Does (event_of server.old store.now event) out.old at result server.new out.new }
{
    let Some(event) = event else {
        return at;
    };
    match event {
        Event::Closed(connection) => closed(server, connection, out, at),
        Event::Reading { port, value } => reading(server, port, value, out, at),
        Event::Wait { connection, micros } => waited(server, connection, micros, out, at),
        Event::Carriers => put_carriers(out, at, server.carriers(store)),
        Event::Levels => put_levels(out, at, server.levels()),
        Event::Due => put_next(server, out, at),
        Event::Refused { connection, number } => put_refusal(out, at, connection, number),
    }
}
