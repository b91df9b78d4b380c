// A sendir to one connector.
ghost use Rattle.std.specs.Prelude.{◌≡◌, ◌*◌, ◌≤◌, ◌<◌, length};
ghost use Rattle.code.specs.Limits.{most_pairs, most_counts};
ghost use Rattle.words.specs.Pairs.{pairs_of, counts_in};
ghost use Rattle.connector.specs.Record.{SoundConnector};
ghost use Rattle.steps.specs.Send.{verdict_of, run_of};
ghost use Rattle.steps.specs.Step.{Makes, command_step, send_step};

use crate::answers::{fails, says};
use code::Code;
use connector::{Answer, Connector, Owner, Run, Stepped};
use pace::Pace;
use reply::Reply;
use request::Place;
use words::Fields;

// What becomes of a sendir that has no fault.
#[derive(Clone, Copy)]
pub enum Verdict {
    Start,
    Renew,
    Busy,
}

fn verdict_of(
    c: Connector,
    kept: &[u16],
    connection: u8,
    f: Fields,
    counts: &[u16; Code::MOST_COUNTS],
    count: usize,
) -> Verdict
    requires { (length kept.now ≡ most_counts) × (count ≤ most_pairs) }
    ensures { result ≡ verdict_of c kept.now connection f (pairs_of (counts_in counts.now count)) }
{
    let Some(run) = c.sending else {
        return Verdict::Start;
    };
    if !connector::records::owns(c.owner, connection) {
        return Verdict::Busy;
    }
    if run.fields != f {
        return Verdict::Start;
    }
    if run.count != count {
        return Verdict::Start;
    }
    if store::same(kept, counts, count) {
        Verdict::Renew
    } else {
        Verdict::Start
    }
}

// The start of a transmission: the pairs before the offset, and those from it on in each copy.
fn run_of(f: Fields, counts: &[u16; Code::MOST_COUNTS], count: usize) -> Run
    requires { (count ≤ most_pairs) × (f.offset < 2 * count) }
    ensures { result ≡ run_of f (pairs_of (counts_in counts.now count)) }
{
    let before = (f.offset / 2) as usize;
    let lead = pace::periods_of(counts, 0, before);
    let tail = pace::periods_of(counts, before, count);
    Run {
        fields: f,
        count,
        pace: Pace::started(lead, tail, f.repeat),
    }
}

// A command to a connector that may transmit.
fn commanded(
    c: Connector,
    kept: &mut [u16],
    connection: u8,
    place: Place,
    f: Fields,
    counts: &[u16; Code::MOST_COUNTS],
    count: usize,
) -> Stepped
    requires { SoundConnector c × (length kept.old ≡ most_counts) × (count ≤ most_pairs) × (f.offset < 2 * count) }
    ensures { Makes (command_step c kept.old connection place f (pairs_of (counts_in counts.now count))) result kept.new }
{
    match verdict_of(c, kept, connection, f, counts, count) {
        Verdict::Start => {
            let run = run_of(f, counts, count);
            store::keep(kept, counts, count);
            let owner = Owner::Connection(connection);
            Stepped {
                answer: Answer::Taken,
                change: Some(connector::records::with_sending(c, owner, Some(run))),
            }
        }
        Verdict::Renew => Stepped {
            answer: Answer::Taken,
            change: Some(connector::records::renewed(c)),
        },
        Verdict::Busy => says(Reply::Busy {
            place,
            id: u64::from(f.id),
        }),
    }
}

// A sendir whose fields begin at a place of a line: 013 in SENSOR and on a lamp, its command's first fault, and then the command.
pub fn send(
    c: Connector,
    kept: &mut [u16],
    connection: u8,
    text: &[u8],
    place: Place,
    at: usize,
) -> Stepped
    requires { SoundConnector c × (length kept.old ≡ most_counts) }
    ensures { Makes (send_step c kept.old connection text.now place at) result kept.new }
{
    if request::mode::is_silent(c.mode) {
        return fails(13, place);
    }
    let mut counts = [0u16; Code::MOST_COUNTS];
    match command::read::command_at(text, at, &mut counts) {
        Err(number) => fails(number, place),
        Ok((f, count)) => commanded(c, kept, connection, place, f, &counts, count),
    }
}
