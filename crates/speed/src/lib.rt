// The speed reading of an image: how fast positions in a row must run at a level to end in time.
#![tactic(auto)]

ghost use Rattle.std.specs.Prelude.{◌≡◌, true, ◌↔◌};
ghost use Rattle.rules.specs.Reasons.{number};
ghost use Rattle.rules.specs.Refusals.{First};
ghost use Rattle.speed_stretch.specs.Stretch.{StretchOf, SmallStretch};
ghost use Rattle.speed.specs.Speed.{ReadsSpeed, answered, Tells, Absent, own_checks, listed, Readable};

use image_check::whole;
use image_fields::read;
use rules::{Blame, Fault, Reason};
use speed_stretch::{Reading, Stretch};

// The first position is above the last one, or a position or the level is absent.
fn is_absent(n: usize, levels: usize, first: usize, last: usize, level: usize) -> bool
    ensures { (result ≡ true) ↔ Absent n levels first last level }
{
    last < first || n <= last || levels <= level
}

// 18 for the positions and the level, then 13 for the clock.
fn own_refusal(
    n: usize,
    levels: usize,
    first: usize,
    last: usize,
    level: usize,
    t: u32,
) -> Result<(), Reason>
    ensures { First (own_checks n levels first last level t) (number result) }
{
    if is_absent(n, levels, first, last, level) {
        return Err(Reason::Reading);
    }
    if rules::LAST_CLOCK < t {
        return Err(Reason::Clock);
    }
    Ok(())
}

// Average and margin of the positions, from the last one back.
fn stretch(
    image: &[u8],
    levels: usize,
    actions: &[u8; rules::MOST_ACTIONS],
    first: usize,
    last: usize,
    level: usize,
) -> Stretch
    requires { Readable image.now levels actions.now first last level }
    ensures { StretchOf (listed image.now actions.now) first last level result × SmallStretch result }
{
    let mut s = speed_stretch::nothing();
    for j in (first..last + 1).rev() {
        let a = usize::from(actions[j]);
        let average = read::average_at(image, levels, a, level);
        let worst = read::worst_at(image, levels, a, level);
        let worst0 = read::worst_at(image, levels, a, 0);
        s = speed_stretch::longer(s, average, worst, worst0);
    }
    s
}

// The speed reading, or why there is none.
fn read_speed(
    image: &[u8],
    first: usize,
    last: usize,
    level: usize,
    t: u32,
) -> Result<Reading, Blame>
    ensures { ReadsSpeed image.now first last level t (answered result) }
{
    let checked = whole::checked(image)?;
    let levels = checked.levels;
    own_refusal(checked.n, levels, first, last, level, t)?;
    let actions = checked.order;
    let s = stretch(image, levels, &actions, first, last, level);
    let deadline = read::due_at(image, levels, usize::from(actions[last]), checked.cycle);
    Ok(speed_stretch::read(s.average, deadline, s.margin, t))
}

// The reading of positions `first` to `last` at the level and time t, any values.
pub fn speed_reading(image: &[u8], first: usize, last: usize, level: usize, t: u32) -> Reading
    ensures { ReadsSpeed image.now first last level t result }
{
    match read_speed(image, first, last, level, t) {
        Ok(reading) => reading,
        Err(blame) => Reading::Refused(Fault::from(blame)),
    }
}

// Whether the reading is a ratio of at most 1: the positions, begun at t, end in time at the level.
pub fn on_time(image: &[u8], first: usize, last: usize, level: usize, t: u32) -> bool
    ensures { Tells image.now first last level t result }
{
    match speed_reading(image, first, last, level, t) {
        Reading::Ratio(x) => speed_stretch::at_most_one(x),
        Reading::Spent => false,
        Reading::Refused(_) => false,
    }
}
