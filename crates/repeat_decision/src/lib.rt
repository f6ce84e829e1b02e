// A decision of a body repeated, read of the lent summaries, whoever wrote them: the level given, the coast granted, and whether it is late. A
// position is told by its place in its body and by the whole bodies after that one.
#![tactic(auto)]

ghost use Rattle.std.specs.Prelude.{◌≡◌, [], ℕ, suc, ◌+◌, ◌-◌, ◌*◌, ◌≤◌, ◌<◌, min};
ghost use Rattle.rules.specs.Numbers.{most_actions, most_levels, most_repeats, longest_coast};
ghost use Rattle.rules.specs.Run.{left_granted};
ghost use Rattle.rules.specs.Repeat.{stretch_at, lent_each, lent_plan};
ghost use Rattle.repeat_laws.specs.Standing.{Standing};
ghost use Rattle.repeat_limits.specs.Limits.{later_of, room_left, Near, narrowed_by};
ghost use Rattle.repeat_decision.specs.Decision.{last_start, most_cells, Summarised, Fits, MayRise, onward_by, MayTurn, Turns, MayStop, stops_there, MayWalk, Walks, MayGrant, MayChoose, Chooses};

use repeat_limits::{Room, has_room, last_reach, room_before, room_nearer, taken};
use rules::Body;

// What a decision takes: the level, what it leaves to coast, and whether no level fits; level 0 is given then.
#[derive(Clone, Copy)]
pub struct Choice {
    pub level: u32,
    pub left: u8,
    pub late: bool,
}

// ---- the level

// A level that fits at a time, with the room at it.
#[derive(Clone, Copy)]
struct Fit {
    level: usize,
    own: Room,
}

// The greatest that does, if there is one.
fn fitting(body: Body, summaries: &[u32], place: usize, after: u32, t: u64) -> Option<Fit>
    requires { Summarised body summaries.now place after × (t ≤ last_start) }
    ensures { Fits body summaries.now place after t result }
{
    let levels = body.levels as usize;
    let row = place * levels;
    for level in (0..levels).rev() {
        let own = room_before(body.policy, summaries, level, after as u64, body.cycle, t);
        if has_room(summaries, row + level, own) {
            return Some(Fit { level, own });
        }
    }
    None
}

// The room at the level above one, if there is such a level. It is worked out for the level given alone: of the levels that do not fit, the averages
// mostly tell, and the rest of their room is never needed. Where there is none no test reads it, so that a coast carries a room and not an option.
fn room_above(body: Body, summaries: &[u32], level: usize, after: u32, t: u64) -> Room
    requires { MayRise body summaries.now level after t }
    ensures { suc level < body.levels → result ≡ room_left body.cycle t (later_of body.policy (stretch_at summaries.now (suc level)) after) }
{
    if level + 1 == body.levels as usize {
        return Room { mix: 0, average: 0 };
    }
    room_before(
        body.policy,
        summaries,
        level + 1,
        after as u64,
        body.cycle,
        t,
    )
}

// ---- the coast

// Where a coast has got to: the entry of its level that it looks at, how many of the longest coast are still to be looked at, the bodies after this
// one, and the room: of the level from the time on at which the position begins at the latest, and of the level above, if there is one, from the
// decision on.
#[derive(Clone, Copy)]
struct Reached {
    entry: usize,
    rest: usize,
    after: u64,
    own: Room,
    above: Room,
}

// The room for what begins later by a worst time.
fn narrowed(room: Room, worst: u32) -> Room
    requires { Near (narrowed_by room worst) }
    ensures { result ≡ narrowed_by room worst }
{
    Room {
        mix: taken(room.mix, worst as u64),
        average: taken(room.average, worst as u64),
    }
}

// One place on in the same body, after a worst time: the bodies after it stay.
fn onward(levels: usize, here: Reached, worst: u32) -> Reached
    requires { (levels ≤ most_levels) × (here.entry < most_cells) × (0 < here.rest) × Near (narrowed_by here.own worst) }
    ensures { result ≡ onward_by levels worst here }
{
    let own = here.own;
    let above = here.above;
    Reached {
        entry: here.entry + levels,
        rest: here.rest - 1,
        after: here.after,
        own: narrowed(own, worst),
        above,
    }
}

// Past the last place of a body it is the first one of the next.
fn in_body(body: Body, summaries: &[u32], here: Reached, level: usize) -> Reached
    requires { MayTurn body summaries.now here level }
    ensures { Turns body summaries.now here level result }
{
    let levels = body.levels as usize;
    let cells = body.n as usize * levels;
    if here.entry < cells {
        return here;
    }
    let after = here.after;
    let own = room_nearer(body.policy, summaries, level, after, here.own);
    let mut above = here.above;
    if level + 1 < levels {
        above = room_nearer(body.policy, summaries, level + 1, after, above);
    }
    Reached {
        entry: level,
        rest: here.rest,
        after: after - 1,
        own,
        above,
    }
}

// Whether a coast stops before the position looked at: the level does not fit there, or the level above does.
fn stops(body: Body, summaries: &[u32], here: Reached, level: usize) -> bool
    requires { MayStop body summaries.now here level }
    ensures { result ≡ stops_there body summaries.now here level }
{
    let entry = here.entry;
    let own = here.own;
    if has_room(summaries, entry, own) {
        if level + 1 < body.levels as usize {
            let above = here.above;
            return has_room(summaries, entry + 1, above);
        }
        return false;
    }
    true
}

// Along the places of one body, up to the entry at which the body or the longest coast ends, or to the first before which the coast stops.
fn along(
    body: Body,
    summaries: &[u32],
    worst: &[u32],
    from: Reached,
    stop: usize,
    level: usize,
) -> Reached
    requires { MayWalk body summaries.now worst.now from stop level }
    ensures { Walks body summaries.now worst.now from stop level result }
{
    let levels = body.levels as usize;
    let mut here = from;
    while here.entry < stop {
        if stops(body, summaries, here, level) {
            return here;
        }
        let at = here.entry;
        here = onward(levels, here, worst[at]);
    }
    here
}

// The lesser of the longest coast and what is left of the frame: `own` of this body, and the bodies after it.
fn most(n: usize, own: usize, after: u32) -> usize
    requires { (n ≤ most_actions) × (own ≤ most_actions) × (after < most_repeats) }
    ensures { result ≡ min longest_coast (after * n + own) }
{
    rules::LONGEST_COAST.min(after as usize * n + own)
}

// What a decision leaves to coast for the level given, read at each position: one less than the greatest r that qualifies. It is found from below, body
// by body, up to the first position at which the level above fits, or at which the level does not if each before it took its worst time: no longer
// coast qualifies. `longest` is the longest that there may be.
fn left_walked(
    body: Body,
    summaries: &[u32],
    worst: &[u32],
    place: usize,
    after: u32,
    fit: Fit,
    longest: usize,
    t: u64,
) -> u8
    requires { MayGrant body (record { order = []; summaries = summaries.now; worst = worst.now }) place after fit t
        × (longest ≡ min longest_coast (after * body.n + (body.n - place))) }
    ensures { (x : ℕ) → Standing body x place after
        → result ≡ left_granted longest_coast
        (lent_each body (record { order = []; summaries = summaries.now; worst = worst.now })) t x fit.level }
{
    let levels = body.levels as usize;
    let level = fit.level;
    let cells = body.n as usize * levels;
    let end = longest - 1;
    let first = place * levels + level;
    let own = fit.own;
    let above = room_above(body, summaries, level, after, t);
    let mut here = onward(
        levels,
        Reached {
            entry: first,
            rest: end + 1,
            after: after as u64,
            own,
            above,
        },
        worst[first],
    );
    while 0 < here.rest {
        here = in_body(body, summaries, here, level);
        let stop = (here.entry + here.rest * levels).min(cells + level);
        here = along(body, summaries, worst, here, stop, level);
        if here.entry < stop {
            return (end - here.rest) as u8;
        }
    }
    end as u8
}

// What a decision leaves to coast for the level given, where that fits. At the top level the longest coast that there may be is tried first, by its
// ends: where time is ample, that is all.
fn left_granted(
    body: Body,
    summaries: &[u32],
    worst: &[u32],
    place: usize,
    after: u32,
    fit: Fit,
    t: u64,
) -> u8
    requires { MayGrant body (record { order = []; summaries = summaries.now; worst = worst.now }) place after fit t }
    ensures { (x : ℕ) → Standing body x place after
        → result ≡ left_granted longest_coast
        (lent_plan body (record { order = []; summaries = summaries.now; worst = worst.now })) t x fit.level }
{
    let n = body.n as usize;
    let longest = most(n, n - place, after);
    if fit.level + 1 == body.levels as usize {
        let last = last_reach(body, summaries, place, after, fit.level, longest);
        if t + last <= body.cycle as u64 {
            return (longest - 1) as u8;
        }
    }
    left_walked(body, summaries, worst, place, after, fit, longest, t)
}

// ---- both

// The decision at a place and a time: the greatest level that fits and its coast; if there is none, level 0 for one action, late.
pub fn choose(
    body: Body,
    summaries: &[u32],
    worst: &[u32],
    place: usize,
    after: u32,
    t: u64,
) -> Choice
    requires { MayChoose body (record { order = []; summaries = summaries.now; worst = worst.now }) place after t }
    ensures { (x : ℕ) → Standing body x place after
        → Chooses (lent_plan body (record { order = []; summaries = summaries.now; worst = worst.now })) t x result }
{
    let Some(fit) = fitting(body, summaries, place, after, t) else {
        return Choice {
            level: 0,
            left: 0,
            late: true,
        };
    };
    let left = left_granted(body, summaries, worst, place, after, fit, t);
    Choice {
        level: fit.level as u32,
        left,
        late: false,
    }
}
