// A piece of a connection's stream: the assembler takes of it what ends a line, and the hub answers the line.
ghost use Rattle.std.specs.Prelude.{◌≡◌, ◌+◌, ◌*◌, ◌≤◌, length, take, drop};
ghost use Rattle.lines.specs.Take.{SoundAssembler, joined_step};
ghost use Rattle.hub.specs.Record.{SoundHub};
ghost use Rattle.server.specs.Record.{SoundServer};
ghost use Rattle.server.specs.Piece.{refused_piece, served_step, Serves, Joins, FoundAnswers, Fits};

use crate::{PieceServed, Server};
use hub::{Answer, Answered, Hub, HubChange, Store};
use lines::{Assembler, Found};

// Nothing is used, and nothing changes.
pub fn refused(server: Server, number: u64) -> PieceServed
    ensures { result ≡ refused_piece server number }
{
    PieceServed {
        server,
        used: 0,
        answer: Answer::Refused(number),
        change: HubChange::Nothing,
        size: 0,
    }
}

// The assembler on its part of the buffers, which begins at a place and has the size that no assembler refuses.
fn joined(assembler: Assembler, buffers: &mut [u8], from: usize, piece: &[u8]) -> lines::Taken
    requires { SoundAssembler assembler × (from + 4096 ≤ length buffers.old) }
    ensures { Joins (joined_step assembler (take 4096 (drop from buffers.old)) piece.now)
        buffers.old from result buffers.new }
{
    let to = from + Assembler::ROOM;
    assembler.take(&mut buffers[from..to], piece).unwrap()
}

// The hub's answer to what the assembler has found; the bytes of a whole line stand in the buffers from a place on.
fn answered(
    hub: Hub,
    store: &mut Store,
    buffers: &[u8],
    from: usize,
    connection: usize,
    found: Found,
    reply: &mut [u8],
) -> Answered
    requires { SoundHub hub × Fits found (length buffers.now) from × (connection ≤ 7) × (128 ≤ length reply.old) }
    ensures { FoundAnswers hub store.old connection (drop from buffers.now) found reply.old result
        store.new reply.new }
{
    match found {
        Found::Nothing => Answered {
            answer: Answer::Taken,
            change: HubChange::Nothing,
            size: 0,
        },
        Found::Line(size) => {
            let to = from + size;
            hub.line(store, connection as u64, &buffers[from..to], reply)
        }
        Found::Overlong => Hub::overlong_line(connection as u64, reply),
    }
}

// A piece of one of the eight connections.
pub fn served(
    server: Server,
    store: &mut Store,
    buffers: &mut [u8],
    connection: usize,
    piece: &[u8],
    reply: &mut [u8],
) -> PieceServed
    requires { SoundServer server × (connection ≤ 7) × (length buffers.old ≡ 32768) × (128 ≤ length reply.old) }
    ensures { Serves (served_step server store.old buffers.old connection piece.now (length reply.old))
        reply.old result store.new buffers.new reply.new }
{
    let from = connection * Assembler::ROOM;
    let taken = joined(server.assemblers[connection], buffers, from, piece);
    let found = taken.found;
    let hub = server.hub;
    let answered = answered(hub, store, buffers, from, connection, found, reply);
    let mut assemblers = server.assemblers;
    assemblers[connection] = taken.assembler;
    let next = hub.applied(answered.change);
    PieceServed {
        server: Server {
            hub: next,
            assemblers,
        },
        used: taken.used,
        answer: answered.answer,
        change: answered.change,
        size: answered.size,
    }
}
