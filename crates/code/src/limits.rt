// The limits of a count.
ghost use Rattle.std.specs.Prelude.{◌+◌, ◌*◌, ◌≤◌, ◌≡◌, cond, ltb};
ghost use Rattle.code.specs.Limits.{legal, SmallestCount};

use crate::Code;

// Whether a count of carrier periods is within the limits.
#[tactic(auto, unfolding(crate::specs::Limits::legal))]
pub fn is_legal(freq: u64, count: u64) -> bool
    ensures { result ≡ legal freq count }
{
    Code::LEAST_COUNT <= count && count <= Code::MOST_COUNT && freq <= Code::COUNTS_IN_FREQ * count
}

// The count itself; or, where it and so many more behind it are all too short for the frequency, the next one behind them.
fn past(freq: u64, count: u64, more: u64) -> u64
    requires { count + more ≤ 50000 }
    ensures { result ≡ cond (ltb (12500 * (count + more)) freq) (count + more + 1) count }
{
    let last = count + more;
    if Code::COUNTS_IN_FREQ * last < freq {
        return last + 1;
    }
    count
}

// The smallest legal count for a frequency, or a refusal. For a controller that cannot divide: multiplication, addition and comparison only. It is
// at most 40, so one of the 64 counts from the least on; each look tells in which half of those that are left. The six calls stay: a loop that
// counts up would be shorter, but a compiler makes a division of it (document 02, request [4]).
pub fn smallest_count(freq: u64) -> Result<u64, u64>
    ensures { SmallestCount freq result }
{
    if freq < Code::LEAST_FREQ {
        return Err(5);
    }
    if Code::MOST_FREQ < freq {
        return Err(5);
    }
    let mut count = Code::LEAST_COUNT;
    count = past(freq, count, 31);
    count = past(freq, count, 15);
    count = past(freq, count, 7);
    count = past(freq, count, 3);
    count = past(freq, count, 1);
    count = past(freq, count, 0);
    Ok(count)
}
