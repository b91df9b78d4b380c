// What a sendir says behind its address, read whole: its fields and its code.
ghost use Rattle.command.specs.Read.{code_at, command_at, CommandInto};

use code::Code;
use words::Fields;

// The code behind good fields: its faults, and 007 for an offset beyond it.
fn code_at(
    f: Fields,
    s: &[u8],
    at: usize,
    counts: &mut [u16; Code::MOST_COUNTS],
) -> Result<(Fields, usize), u64>
    ensures { CommandInto (code_at f s.now at) counts.old result counts.new }
{
    match decoder::read::read_code(f.freq as u64, s, at, counts) {
        Code::Fault(number) => Err(number),
        Code::Pairs(count) => {
            if 2 * count <= f.offset as usize {
                return Err(7);
            }
            Ok((f, count))
        }
    }
}

// The command whose fields begin at a place: its fields and the number of its pairs, whose counts stand in an array beside, or its first fault.
pub fn command_at(
    s: &[u8],
    at: usize,
    counts: &mut [u16; Code::MOST_COUNTS],
) -> Result<(Fields, usize), u64>
    ensures { CommandInto (command_at s.now at) counts.old result counts.new }
{
    let (f, next) = crate::fields::fields_at(s, at)?;
    code_at(f, s, next, counts)
}
