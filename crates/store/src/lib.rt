// The pairs that a connector transmits, in lent memory of its own, on and off counts in turn. What stands behind the pairs that are being
// sent, or in the memory of an idle connector, means nothing.
#![tactic(auto)]

ghost use Rattle.std.specs.Prelude.{◌≡◌, true, ◌*◌, ◌≤◌, length};
ghost use Rattle.code.specs.Limits.{most_pairs, most_counts};
ghost use Rattle.laws.specs.Put.{stored_in};
ghost use Rattle.words.specs.Pairs.{counts_in};
ghost use Rattle.meaning.specs.Time.{on_at};
ghost use Rattle.store.specs.Store.{alike};

use code::Code;

// Keeps the first count pairs.
pub fn keep(kept: &mut [u16], counts: &[u16; Code::MOST_COUNTS], count: usize)
    requires { (length kept.old ≡ most_counts) × (count ≤ most_pairs) }
    ensures { kept.new ≡ stored_in kept.old 0 (counts_in counts.now count) }
{
    let end = 2 * count;
    kept[..end].copy_from_slice(&counts[..end]);
}

// Whether the first count pairs kept are these.
pub fn same(kept: &[u16], counts: &[u16; Code::MOST_COUNTS], count: usize) -> bool
    requires { (length kept.now ≡ most_counts) × (count ≤ most_pairs) }
    ensures { result ≡ alike (counts_in kept.now count) (counts_in counts.now count) }
{
    let end = 2 * count;
    kept[..end] == counts[..end]
}

// A count of carrier periods in ticks.
fn ticks(count: u16) -> u64
    ensures { result ≡ count * 1000000 }
{
    u64::from(count) * 1000000
}

// Whether the carrier is on at a place, in ticks, of the first count pairs kept.
pub fn carrier(kept: &[u16], count: usize, place: u64) -> bool
    requires { (length kept.now ≡ most_counts) × (count ≤ most_pairs) }
    ensures { result ≡ on_at true (counts_in kept.now count) place }
{
    let mut left = place;
    let mut on = true;
    for i in 0..2 * count {
        let length = ticks(kept[i]);
        if left < length {
            return on;
        }
        left -= length;
        on = !on;
    }
    false
}
