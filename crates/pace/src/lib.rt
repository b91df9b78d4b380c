// Time on a connector: how far a transmission is and when it ends, exactly. A tick is a millionth of a carrier period: in one
// microsecond as many ticks pass as the frequency has hertz, so that nothing is ever rounded.
#![tactic(auto)]

ghost use Rattle.std.specs.Prelude.{◌≡◌, ◌-◌, ◌*◌, ◌≤◌};
ghost use Rattle.laws.specs.Lists.{numbers};
ghost use Rattle.code.specs.Limits.{most_pairs};
ghost use Rattle.meaning.specs.Time.{lasts};
ghost use Rattle.pace.specs.Pace.{SoundPace, WideCount, periods, ticks, started, end_of, finished, renewed, place_of, passed};

use code::Code;

// A number of carrier periods.
#[derive(Clone, Copy)]
pub struct Periods(pub u32);

// A number of microseconds.
#[derive(Clone, Copy)]
pub struct Micros(pub u64);

// A number of millionths of a carrier period.
#[derive(Clone, Copy)]
pub struct Ticks(pub u64);

// A transmission of a number of copies in all: the pairs before the offset, and then, for each copy, those from it on. How far it
// is counts from its start, less the copies that a renewal has taken off.
#[derive(Clone, Copy)]
pub struct Pace {
    pub lead: Periods,
    pub tail: Periods,
    pub copies: u32,
    pub at: Ticks,
}

// What a wait makes of a transmission: it runs on, or it is complete at a moment from the wait's start. It stays an enum of its own: neither
// outcome is an absence or a failure of the other, and as an Option or a Result it would say so.
#[derive(Clone, Copy)]
pub enum Passed {
    Running(Pace),
    Complete(Micros),
}

// A count as a number of periods.
fn wide(count: u16) -> u32
    ensures { WideCount count result }
{
    u32::from(count)
}

// What the pairs from one to before another last.
pub fn periods_of(counts: &[u16; Code::MOST_COUNTS], from: usize, to: usize) -> Periods
    requires { (from ≤ to) × (to ≤ most_pairs) }
    ensures { result ≡ periods (lasts (numbers counts.now (2 * from) (2 * (to - from)))) }
{
    let mut sum = 0;
    for i in 2 * from..2 * to {
        sum += wide(counts[i]);
    }
    Periods(sum)
}

impl Pace {
    pub fn started(lead: Periods, tail: Periods, copies: u32) -> Self
        ensures { result ≡ started lead tail copies }
    {
        Pace {
            lead,
            tail,
            copies,
            at: Ticks(0),
        }
    }

    // Where it is complete.
    #[tactic(auto, using(crate::proofs::Bounds::copies_high), unfolding(crate::specs::Pace::end_of))]
    pub fn end(self) -> Ticks
        requires { SoundPace self }
        ensures { result ≡ ticks (end_of self) }
    {
        Ticks((u64::from(self.lead.0) + u64::from(self.copies) * u64::from(self.tail.0)) * 1000000)
    }

    // The copies that are finished; at an exact boundary the one just ended is. The test stays, where `saturating_sub` would do: before the offset
    // nothing is divided (docs/EMBEDDING.md).
    #[tactic(auto, using(crate::proofs::Bounds::finished_none), unfolding(crate::specs::Pace::finished))]
    pub fn finished(self) -> u64
        requires { SoundPace self }
        ensures { result ≡ finished self }
    {
        let lead = u64::from(self.lead.0) * 1000000;
        if self.at.0 < lead {
            return 0;
        }
        (self.at.0 - lead) / (u64::from(self.tail.0) * 1000000)
    }

    // The copies finished and so many more; those that are finished are taken off both sides.
    #[tactic(auto, using(crate::proofs::Bounds::finished_within, crate::proofs::Bounds::end_high), unfolding(crate::specs::Pace::renewed))]
    pub fn renewed(self, repeat: u32) -> Pace
        requires { SoundPace self }
        ensures { result ≡ renewed self repeat }
    {
        let behind = self.finished() * (u64::from(self.tail.0) * 1000000);
        Pace {
            copies: repeat,
            at: Ticks(self.at.0 - behind),
            ..self
        }
    }

    // The place in the pairs, in ticks.
    #[tactic(auto, using(crate::proofs::Bounds::within_high), unfolding(crate::specs::Pace::place_of))]
    pub fn place(self) -> Ticks
        requires { SoundPace self }
        ensures { result ≡ ticks (place_of self) }
    {
        let lead = u64::from(self.lead.0) * 1000000;
        if self.at.0 < lead {
            return self.at;
        }
        Ticks(lead + (self.at.0 - lead) % (u64::from(self.tail.0) * 1000000))
    }

    // A wait at a frequency.
    #[tactic(auto, using(crate::proofs::Bounds::wait_high, crate::proofs::Bounds::end_high), unfolding(crate::specs::Pace::passed, meaning::specs::Time::first_micro))]
    pub fn passed(self, freq: u64, wait: Micros) -> Passed
        requires { SoundPace self × (1 ≤ freq) × (freq ≤ 500000) × (wait.0 ≤ 1000000000) }
        ensures { result ≡ passed self freq wait.0 }
    {
        let end = self.end();
        let after = self.at.0 + wait.0 * freq;
        if end.0 <= after {
            let left = end.0 - self.at.0;
            return Passed::Complete(Micros((left + (freq - 1)) / freq));
        }
        Passed::Running(Pace {
            at: Ticks(after),
            ..self
        })
    }
}
