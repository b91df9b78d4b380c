// A turn: the next bytes of a block, as many as belong together, and the frames that answer them, laid into `out` from a place on. The state is
// lent: taken and given back, the whole of it would be moved at every turn.
ghost use Rattle.std.specs.Prelude.{◌≡◌, ◌+◌, ◌≤◌, length, take};
ghost use Rattle.server.specs.Record.{SoundServer};
ghost use Rattle.port.specs.Turn.{fresh_state, SoundState, whole, head_move, piece_turn, over_move, turn_of, Moves, Turns};

use crate::event;
use frames::{Frame, Part};
use hub::Store;
use output::{put_answer, put_change};
use reply::Reply;
use server::Server;

#[derive(Clone, Copy)]
pub struct State {
    pub server: Server,
    pub frame: Frame,
}

impl State {
    pub fn fresh() -> Self
        ensures { result ≡ fresh_state }
    {
        State {
            server: Server::fresh(),
            frame: Frame::Between,
        }
    }
}

// How many bytes a turn used, and the place behind its frames.
#[derive(Clone, Copy)]
pub struct Turned {
    pub used: usize,
    pub end: usize,
}

// The first bytes of a block, or all where there are fewer.
fn front(block: &[u8], size: usize) -> &[u8]
    ensures { result.now ≡ take size block.now }
{
    block.get(..size).unwrap_or(block)
}

// Bytes of heads and numbers, and the event that they complete.
fn heads(state: &mut State, store: &Store, block: &[u8], out: &mut [u8], at: usize) -> Turned
    requires { SoundState state.old × (at + 512 ≤ length out.old) }
    ensures { Moves (head_move state.old.server state.old.frame store.now block.now)
        out.old at result state.new out.new }
{
    let read = state.frame.read(block);
    state.frame = read.frame;
    let end = event::answered(&mut state.server, store, read.event, out, at);
    Turned {
        used: read.used,
        end,
    }
}

// Bytes of a piece, of which so many are left.
fn piece(
    state: &mut State,
    store: &mut Store,
    buffers: &mut [u8],
    connection: u8,
    left: usize,
    block: &[u8],
    out: &mut [u8],
    at: usize,
) -> Turned
    requires { SoundServer state.old.server × (at + 512 ≤ length out.old) }
    ensures { Turns (piece_turn state.old.server store.old buffers.old connection left block.now)
        out.old at result state.new store.new buffers.new out.new }
{
    let mut reply = [0u8; Reply::ROOM];
    let served = state.server.piece(
        store,
        buffers,
        connection as u64,
        front(block, left),
        &mut reply,
    );
    state.server = served.server;
    let answer = served.answer;
    let change = served.change;
    let size = served.size;
    let a = put_answer(out, at, connection, answer, &reply[..size]);
    let end = put_change(out, a, connection, change);
    let used = served.used;
    state.frame = Frame::piece_of(connection, left - used);
    Turned { used, end }
}

// Bytes that are passed over, of which so many are left.
fn over(state: &mut State, left: usize, block: &[u8], at: usize) -> Turned
    ensures { (state.new ≡ (over_move state.old.server left block.now).state) × (result.used ≡ (over_move state.old.server left block.now).used) × (result.end ≡ at) }
{
    let used = front(block, left).len();
    state.frame = Frame::passing(left - used);
    Turned { used, end: at }
}

pub fn turn(
    state: &mut State,
    store: &mut Store,
    buffers: &mut [u8],
    block: &[u8],
    out: &mut [u8],
    at: usize,
) -> Turned
    requires { SoundState state.old × (at + 512 ≤ length out.old) }
    ensures { Turns (turn_of (whole state.old store.old buffers.old) block.now)
        out.old at result state.new store.new buffers.new out.new }
{
    match state.frame.part() {
        Part::Head => heads(state, store, block, out, at),
        Part::Piece { connection, left } => {
            piece(state, store, buffers, connection, left, block, out, at)
        }
        Part::Over(left) => over(state, left, block, at),
    }
}
