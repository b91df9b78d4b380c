// What is wrong with a request: the number that the hub would answer, in document 01's order.
ghost use Rattle.std.specs.Prelude.{◌≡◌};
ghost use Rattle.composer.specs.Fault.{judged, fields_fault, counts_fault, sendir_fault, lamp_fault, wish_fault};

use crate::Wish;
use code::Code;
use command::given::{Command, Given};
use request::{Ask, Name, address_fault};

// 004 to 007
#[tactic(auto, unfolding(crate::specs::Fault::fields_fault))]
fn fields_fault(f: Given) -> Result<(), u64>
    ensures { result ≡ judged (fields_fault f) }
{
    if Code::MOST_ID < f.id {
        return Err(4);
    }
    if f.freq < Code::LEAST_FREQ || Code::MOST_FREQ < f.freq {
        return Err(5);
    }
    if f.repeat < 1 || Code::MOST_REPEAT < f.repeat {
        return Err(6);
    }
    if Code::MOST_OFFSET < f.offset || f.offset % 2 == 0 {
        return Err(7);
    }
    Ok(())
}

// 009, 010 and 020, the first from the left
fn counts_fault(freq: u64, counts: &[u64]) -> Result<(), u64>
    ensures { result ≡ judged (counts_fault freq counts.now) }
{
    if counts.is_empty() {
        return Err(9);
    }
    let legal = counts
        .iter()
        .take(Code::MOST_COUNTS)
        .all(|&count| code::limits::is_legal(freq, count));
    if !legal {
        return Err(9);
    }
    if Code::MOST_COUNTS < counts.len() {
        return Err(20);
    }
    if counts.len() % 2 != 0 {
        return Err(10);
    }
    Ok(())
}

pub fn sendir_fault(command: Command, counts: &[u64]) -> Result<(), u64>
    ensures { result ≡ judged (sendir_fault command counts.now) }
{
    address_fault(Name::SendIr, command.place)?;
    let f = command.fields;
    fields_fault(f)?;
    counts_fault(f.freq, counts)?;
    if counts.len() as u64 <= f.offset {
        return Err(7);
    }
    Ok(())
}

// 023 for a lamp's target or ramp.
#[tactic(auto, unfolding(crate::specs::Fault::lamp_fault))]
fn lamp_fault(target: u64, ramp: u64) -> Result<(), u64>
    ensures { result ≡ judged (lamp_fault target ramp) }
{
    if target < 1 || Ask::MOST_TARGET < target || Ask::MOST_RAMP < ramp {
        return Err(23);
    }
    Ok(())
}

pub fn wish_fault(wish: Wish) -> Result<(), u64>
    ensures { result ≡ judged (wish_fault wish) }
{
    match wish {
        Wish::Fixed(_) => Ok(()),
        Wish::SetMode(place, mode) => {
            address_fault(Name::SetIr, place)?;
            if request::mode::may_have(place.port, mode) {
                return Ok(());
            }
            Err(14)
        }
        Wish::GetMode(place) => address_fault(Name::GetIr, place),
        Wish::SetState(place, state) => {
            address_fault(Name::SetState, place)?;
            if 1 < state {
                return Err(23);
            }
            Ok(())
        }
        Wish::GetState(place) => address_fault(Name::GetState, place),
        Wish::Stop(place) => address_fault(Name::StopIr, place),
        Wish::SetLamp(place, target, ramp) => {
            address_fault(Name::SetLamp, place)?;
            lamp_fault(target, ramp)
        }
        Wish::GetLamp(place) => address_fault(Name::GetLamp, place),
    }
}
