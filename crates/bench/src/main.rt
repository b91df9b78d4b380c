// The bench: a hub on standard input and output. It reads what there is, in blocks, and writes every answer to that before it reads
// again, so that whoever is at the other end sees each reply at once, and a long script needs no more memory than a short one.
#![tactic(auto)]

ghost use Rattle.std.specs.Prelude.{◌≤◌, length};
ghost use Rattle.hub.specs.Record.{SoundHub};

use crate::state::{Begun, State};
use hub::{Hub, HubChange, Store};
use script::input::Input;
use script::turn;
use std::io;
use std::io::Read;

mod output;
mod scan;
mod state;

fn flushed(rt: &impl Print, state: State, out: &[u8]) -> State
    requires { SoundHub state.hub }
    ensures { SoundHub result.hub }
{
    output::flush(rt, out, state.used);
    State { used: 0, ..state }
}

// Puts bytes behind the line so far, as far as there is room; gives the length of what there is then.
fn append(line: &mut [u8], size: usize, part: &[u8]) -> usize
    ensures { size ≤ result }
{
    if line.len() <= size {
        return size;
    }
    let end = size + part.len().min(line.len() - size);
    line[size..end].copy_from_slice(&part[..end - size]);
    end
}

// More of a line that is not ended.
fn taken(begun: Begun, line: &mut [u8], part: &[u8]) -> Begun {
    let size = append(line, begun.size, part);
    Begun {
        size,
        over: begun.over || size - begun.size < part.len(),
    }
}

// The rest of a line, which an LF ends. One that came whole is not copied.
fn ended(begun: Begun, line: &mut [u8], part: &[u8]) -> Begun {
    if begun.size == 0 && part.len() <= Begun::MOST_BYTES {
        return begun;
    }
    taken(begun, line, part)
}

// The line: what came, or what was put together.
fn line_of<'a>(begun: Begun, part: &'a [u8], line: &'a [u8]) -> &'a [u8] {
    if begun.size == 0 {
        return part;
    }
    scan::front(line, begun.size)
}

// The bytes of a block. The hub is changed in its place, and not copied for a line. The loop stays one from LF to LF: `split` would also
// give the rest that no LF ends, which is kept and not answered.
fn fed(
    rt: &impl Print,
    state: State,
    store: &mut Store,
    line: &mut [u8],
    out: &mut [u8],
    block: &[u8],
) -> State
    requires { SoundHub state.hub × (1024 ≤ length out.old) }
    ensures { SoundHub result.hub }
{
    let mut hub = state.hub;
    let mut begun = state.begun;
    let mut used = state.used;
    let mut i = 0;
    while i < block.len() {
        let end = scan::line_end(block, i);
        let part = &block[i..end];
        if end == block.len() {
            begun = taken(begun, line, part);
            return State { hub, begun, used };
        }
        let next = end + 1;
        let all = ended(begun, line, part);
        let text = line_of(all, part, line);
        let from = output::with_room(rt, out, used);
        begun = Begun::nothing();
        match script::input::input_of(text) {
            Input::Other => {
                used = turn::other(out, from);
                i = next;
            }
            Input::Line(connection, at) => {
                let request = scan::behind(text, at);
                let changed = turn::line(hub, store, connection, request, all.over, out, from);
                used = changed.used;
                let change = changed.change;
                match change {
                    HubChange::Nothing => {
                        i = next;
                    }
                    HubChange::Connector { slot, connector } => {
                        hub.connectors[slot] = connector;
                        i = next;
                    }
                    HubChange::Relay { slot, state } => {
                        hub.relays[slot] = state;
                        i = next;
                    }
                }
            }
            Input::Reading(port, value) => {
                let passed = turn::reading(hub, port, value, out, from);
                used = passed.used;
                hub = passed.hub;
                i = next;
            }
            Input::Closing(connection) => {
                let passed = turn::closing(hub, connection, out, from);
                used = passed.used;
                hub = passed.hub;
                i = next;
            }
            Input::Waiting(micros) => {
                let passed = turn::waiting(hub, micros, out, from);
                used = passed.used;
                hub = passed.hub;
                i = next;
            }
        }
    }
    State { hub, begun, used }
}

// Bytes after the last LF are a line of another form.
fn end(rt: &impl Print, state: State) {
    if state.begun.size != 0 {
        let _ = rt.write_all(b"!\n");
    }
}

// Reads and answers until the input ends. A proved loop has to end, and nothing says that an input does: so it counts its turns
// up to a number that no run reaches.
fn run(rt: &(impl io::Input + Print)) -> io::Result<()> {
    let mut input = rt.reader();
    let mut store = [0u16; Hub::COUNTS];
    let mut line = [0u8; Begun::MOST_BYTES];
    let mut out = [0u8; 65536];
    let mut block = [0u8; 65536];
    let mut state = State::fresh();
    for _ in 0..u64::MAX {
        let count = input.read(&mut block)?;
        if count == 0 {
            end(rt, state);
            break;
        }
        let next = fed(
            rt,
            state,
            &mut store,
            &mut line,
            &mut out,
            scan::front(&block, count),
        );
        state = flushed(rt, next, &out);
    }
    Ok(())
}

fn main(rt: HostRuntime) -> io::Result<()> {
    run(&rt)
}
