// A dimmable lamp: how bright it is, exactly, and where it goes. A level is counted in hundred-thousandths of a percent: ramp r moves r of
// them in each microsecond, so that nothing is ever rounded.
#![tactic(auto)]

ghost use Rattle.std.specs.Prelude.{◌≡◌, ◌-◌, ◌≤◌};
ghost use Rattle.meaning.specs.Lamp.{exactly};
ghost use Rattle.lamp.specs.Lamp.{SoundLamp, points, dark, level_of, percent_of, apart, turned, passed};

use pace::Micros;

// A number of hundred-thousandths of a percent.
#[derive(Clone, Copy)]
pub struct Points(pub u32);

impl Points {
    // A percent.
    const PERCENT: u32 = 100000;
}

// A lamp on its way: how far its target is away still and whether it lies above, the target in percent, and the ramp to it. The flag stays beside
// the gap: a number with a sign would be taken apart again wherever it is used. That a lamp is sound stays a clause and is no invariant of the type:
// `connector::records::with_lamp` takes any lamp, and would ask for more.
#[derive(Clone, Copy)]
pub struct Lamp {
    pub gap: Points,
    pub target: u8,
    pub ramp: u8,
    pub rises: bool,
}

// How far two levels are apart.
#[tactic(auto, unfolding(crate::specs::Lamp::apart))]
fn apart(a: Points, b: Points) -> Points
    ensures { result ≡ points (apart a.0 b.0) }
{
    Points(a.0.abs_diff(b.0))
}

// What is left of a gap by some way more, down to nothing.
fn remaining(gap: Points, way: u64) -> Points
    ensures { result ≡ points (gap.0 - way) }
{
    Points(u64::from(gap.0).saturating_sub(way) as u32)
}

// A level in percent.
fn exactly(percent: u8) -> Points
    ensures { result ≡ points (exactly percent) }
{
    Points(u32::from(percent) * Points::PERCENT)
}

impl Lamp {
    // At 0 with target 0.
    pub fn dark() -> Self
        ensures { result ≡ dark }
    {
        Lamp {
            gap: Points(0),
            target: 0,
            ramp: 0,
            rises: false,
        }
    }

    // Its exact level.
    #[tactic(auto, unfolding(crate::specs::Lamp::level_of))]
    fn level(self) -> Points
        requires { SoundLamp self }
        ensures { result ≡ points (level_of self) }
    {
        let goal = exactly(self.target);
        if self.rises {
            return Points(goal.0 - self.gap.0);
        }
        Points(goal.0 + self.gap.0)
    }

    // Its level in percent, rounded down.
    #[tactic(auto, unfolding(crate::specs::Lamp::percent_of))]
    pub fn percent(self) -> u64
        requires { SoundLamp self }
        ensures { result ≡ percent_of self }
    {
        u64::from(self.level().0 / Points::PERCENT)
    }

    // Another target, from the exact level on; with ramp 0 it is there at once.
    #[tactic(auto, unfolding(crate::specs::Lamp::turned))]
    pub fn turned(self, target: u8, ramp: u8) -> Lamp
        requires { SoundLamp self }
        ensures { result ≡ turned self target ramp }
    {
        let level = self.level();
        let goal = exactly(target);
        let gap = if ramp == 0 {
            Points(0)
        } else {
            apart(level, goal)
        };
        Lamp {
            gap,
            target,
            ramp,
            rises: level.0 < goal.0,
        }
    }

    // Some microseconds later: nearer to its target, and there it stops.
    #[tactic(auto, unfolding(crate::specs::Lamp::passed))]
    pub fn passed(self, wait: Micros) -> Lamp
        requires { SoundLamp self × (wait.0 ≤ 1000000000) }
        ensures { result ≡ passed self wait.0 }
    {
        let way = u64::from(self.ramp) * wait.0;
        Lamp {
            gap: remaining(self.gap, way),
            ..self
        }
    }
}
