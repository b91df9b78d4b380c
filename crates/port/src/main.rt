// The port's program: a server on standard input and output, in frames (docs/PORT-OTHER.md). It reads what there is, in blocks, and
// writes every answer to that before it reads again.
#![tactic(auto)]

ghost use Rattle.std.specs.Prelude.{◌≡◌, ◌≤◌, length};
ghost use Rattle.server.specs.Record.{all_buffers};
ghost use Rattle.port.specs.Turn.{SoundState, whole};
ghost use Rattle.port.specs.Run.{turn_room, Feeds};

use crate::turn::State;
use hub::{Hub, Store};
use server::Server;
use std::io;
use std::io::Read;

mod event;
mod turn;

// The most that a turn writes.
const TURN_ROOM: usize = 512;

// The state after some turns, the place of the block where they stopped, and how many bytes are to be written.
#[derive(Clone, Copy)]
pub struct Progress {
    pub state: State,
    pub used: usize,
    pub end: usize,
}

// The bytes of a block from a place on: turns, while there are bytes and there is room for another. The loop counts by hand, as a turn uses as many
// bytes as it can, and says how many.
fn fed(
    state: State,
    store: &mut Store,
    buffers: &mut [u8],
    block: &[u8],
    from: usize,
    out: &mut [u8],
) -> Progress
    requires { SoundState state × (length buffers.old ≡ all_buffers) }
    ensures { Feeds block.now from (whole state store.old buffers.old) out.old result
        store.new buffers.new out.new }
{
    let mut next = state;
    let mut i = from;
    let mut o = 0;
    while i < block.len() {
        if out.len() - o < TURN_ROOM {
            return Progress {
                state: next,
                used: i,
                end: o,
            };
        }
        let turned = turn::turn(&mut next, store, buffers, &block[i..], out, o);
        i += turned.used;
        o = turned.end;
    }
    Progress {
        state: next,
        used: i,
        end: o,
    }
}

// All of a block: what was laid is written out until nothing of the block is left. What cannot be written is let go, as where it went
// nobody reads.
fn served(
    rt: &impl Print,
    state: State,
    store: &mut Store,
    buffers: &mut [u8],
    block: &[u8],
    out: &mut [u8],
) -> State
    requires { SoundState state × (length buffers.old ≡ all_buffers) × (turn_room ≤ length out.old) }
    ensures { SoundState result }
{
    let mut next = state;
    let mut i = 0;
    while i < block.len() {
        let fed = fed(next, store, buffers, block, i, out);
        let end = fed.end;
        let _ = rt.write_all(&out[..end]);
        next = fed.state;
        i = fed.used;
    }
    next
}

// Reads and serves until the input ends. A proved loop has to end, and nothing says that an input does: so it counts its turns up
// to a number that no run reaches.
fn run(rt: &(impl Input + Print)) -> io::Result<()> {
    let mut input = rt.reader();
    let mut store = [0u16; Hub::COUNTS];
    let mut buffers = [0u8; Server::ROOM];
    let mut out = [0u8; 65536];
    let mut block = [0u8; 65536];
    let mut state = State::fresh();
    for _ in 0..u64::MAX {
        let count = input.read(&mut block)?;
        if count == 0 {
            break;
        }
        state = served(
            rt,
            state,
            &mut store,
            &mut buffers,
            &block[..count],
            &mut out,
        );
    }
    Ok(())
}

fn main(rt: HostRuntime) -> io::Result<()> {
    run(&rt)
}
