// The speed reading's arithmetic: average and margin of a stretch of positions, and the ratio of average and room.
#![tactic(auto)]

ghost use Rattle.std.specs.Prelude.{◌≡◌, ◌+◌, ◌≤◌, ◌<◌, pos, ◌-ℤ◌};
ghost use Rattle.rules.specs.Numbers.{longest_time};
ghost use Rattle.rules.specs.Speed.{quotient, reading_by, at_most_one};
ghost use Rattle.speed_stretch.specs.Answer.{gives, reading_of};
ghost use Rattle.speed_stretch.specs.Stretch.{NoStretch, Lengthens, SmallStretch};

use rules::Fault;

#[derive(Clone, Copy)]
pub enum Reading {
    Ratio(f64),
    Spent,
    Refused(Fault),
}

// Of some positions in a row, at one level: the sum of their averages, the sum of their worst times at level 0, and their margin.
#[derive(Clone, Copy)]
pub struct Stretch {
    pub average: u32,
    pub worst0: u32,
    pub margin: u32,
}

// No positions yet.
pub fn nothing() -> Stretch
    ensures { NoStretch result }
{
    Stretch {
        average: 0,
        worst0: 0,
        margin: 0,
    }
}

// One position more, in front of the others: its average and its worst time at the level, and its worst time at level 0.
pub fn longer(s: Stretch, average: u32, worst: u32, worst0: u32) -> Stretch
    requires { SmallStretch s × (average ≤ longest_time) × (worst ≤ longest_time) × (worst0 ≤ longest_time) }
    ensures { Lengthens s average worst worst0 result }
{
    let sum = average + s.average;
    let safe = worst + s.worst0;
    let rest = worst0 + s.worst0;
    let margin = safe.saturating_sub(sum).max(s.margin);
    Stretch {
        average: sum,
        worst0: rest,
        margin,
    }
}

// One 64-bit float division.
pub fn quotient(average: u32, room: u32) -> f64
    ensures { result ≡ quotient average room }
{
    f64::from(average) / f64::from(room)
}

// The reading with room deadline - margin - t: the sum of the two last is compared with the first, so that no number has a sign.
pub fn read(average: u32, deadline: u32, margin: u32, t: u32) -> Reading
    requires { margin + t < 4294967296 }
    ensures { reading_of result ≡ gives (reading_by average (pos deadline -ℤ pos margin -ℤ pos t)) }
{
    if margin + t < deadline {
        Reading::Ratio(quotient(average, deadline - (margin + t)))
    } else {
        Reading::Spent
    }
}

// Whether a ratio is at most 1. Of a ratio that the reading gives, it is so exactly if t is at most deadline - mixed.
pub fn at_most_one(x: f64) -> bool
    ensures { result ≡ at_most_one x }
{
    x <= 1.0
}
