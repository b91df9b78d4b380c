// A command as a caller gives it: numbers of any size, counts in a slice of any length.
ghost use Rattle.std.specs.Prelude.{◌≡◌, true, ◌≤◌, length};
ghost use Rattle.std.proofs.lemmas.List.Edits.{sets};
ghost use Rattle.command.specs.Read.{CommandInto};
ghost use Rattle.command.specs.Given.{place_within, given_within, counts_within, taken_as, EachFits, command_given};

use code::Code;
use request::{Name, Place};
use words::Fields;

// The fields of a command as they are given.
#[derive(Clone, Copy)]
pub struct Given {
    pub id: u64,
    pub freq: u64,
    pub repeat: u64,
    pub offset: u64,
}

// Where a command goes, and its fields.
#[derive(Clone, Copy)]
pub struct Command {
    pub place: Place,
    pub fields: Given,
}

// Whether a place is a connector's.
#[tactic(auto, unfolding(crate::specs::Given::place_within, request::specs::Address::address_fault))]
fn place_within(place: Place) -> bool
    ensures { result ≡ place_within place }
{
    request::address_fault(Name::SendIr, place).is_ok()
}

// Whether every field is within its limits.
// It stays beside the composer's fields_fault, no plainer from there: 004 to 007 would stand below the writer, which knows 106 (command_given).
#[tactic(auto, unfolding(crate::specs::Given::given_within))]
fn given_within(f: Given) -> bool
    ensures { result ≡ given_within f }
{
    f.id <= Code::MOST_ID
        && Code::LEAST_FREQ <= f.freq
        && f.freq <= Code::MOST_FREQ
        && 1 <= f.repeat
        && f.repeat <= Code::MOST_REPEAT
        && f.offset <= Code::MOST_OFFSET
        && f.offset % 2 != 0
}

// Whether counts are 1 to 260 pairs, each count legal.
// It stays beside the composer's counts_fault, no plainer from there: 009, 010 and 020 would stand below the writer (command_given).
fn counts_within(freq: u64, given: &[u64]) -> bool
    ensures { result ≡ counts_within freq given.now }
{
    let count = given.len();
    if count < 2 {
        return false;
    }
    if Code::MOST_COUNTS < count {
        return false;
    }
    if count % 2 != 0 {
        return false;
    }
    given.iter().all(|&n| code::limits::is_legal(freq, n))
}

// Stores counts in front.
fn put_counts(given: &[u64], counts: &mut [u16])
    requires { (length given.now ≤ length counts.old) × EachFits given.now }
    ensures { counts.new ≡ sets counts.old 0 given.now }
{
    for i in 0..given.len() {
        counts[i] = given[i] as u16;
    }
}

// The fields as they are taken.
// It stays a function, no plainer as TryFrom, which would judge again what given_within has judged: taken requires that it has.
fn taken(f: Given) -> Fields
    requires { given_within f ≡ true }
    ensures { result ≡ taken_as f }
{
    let id = f.id as u32;
    let freq = f.freq as u32;
    let repeat = crate::fields::capped(f.repeat) as u32;
    let offset = f.offset as u32;
    Fields {
        id,
        freq,
        repeat,
        offset,
    }
}

// The fields as they are taken and the number of pairs of the command that is given, or 106 and nothing stored.
pub fn command_given(
    command: Command,
    given: &[u64],
    counts: &mut [u16; Code::MOST_COUNTS],
) -> Result<(Fields, usize), u64>
    ensures { CommandInto (command_given command given.now) counts.old result counts.new }
{
    let place = command.place;
    if !place_within(place) {
        return Err(106);
    }
    let f = command.fields;
    if !given_within(f) {
        return Err(106);
    }
    if !counts_within(f.freq, given) {
        return Err(106);
    }
    let count = given.len();
    if count as u64 <= f.offset {
        return Err(106);
    }
    put_counts(given, counts);
    Ok((taken(f), count / 2))
}
