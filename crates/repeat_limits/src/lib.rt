// Limits and coast bounds of a body repeated, worked out one at a time from the summaries of the rest of the body, whoever wrote these: a limit
// costs the same at every position, however often the body is repeated.
#![tactic(auto)]

ghost use Rattle.std.specs.Prelude.{◌≡◌, [], ◌≢◌, ℕ, suc, ◌+◌, ◌-◌, ◌*◌, ◌≤◌, ◌<◌, max, min, eqb, pos, ◌+ℤ◌, ◌-ℤ◌, length, get_or};
ghost use Rattle.std.specs.Int.Signed.{mag};
ghost use Rattle.rules.specs.Numbers.{most_repeats, longest_coast, summary_numbers};
ghost use Rattle.rules.specs.Refusals.{first};
ghost use Rattle.rules.specs.Reasons.{number};
ghost use Rattle.rules.specs.Repeat.{needed, last_mix, stretch_at, rest_lent, positions, lent_each, lent_plan, body_tests, known_tests, body_limit_refusal, body_bound_refusal};
ghost use Rattle.repeat_laws.specs.Standing.{Standing};
ghost use Rattle.repeat_limits.specs.Limits.{limited, signed_above, most_entry, greatest_mix, greatest_reach, CountsIn, Stands, Summed, later_of, BodiesAfter, Before, mix_before, LeavesRoom, Nears, room_left, fits_in, MoreAfter, Spans, Coasts, Passes, LimitAnswers, BoundAnswers};

use rules::{Body, Reason, Refusal};

// What C is answered of a limit or a coast bound; with a refusal it is 0.
#[repr(C)]
#[derive(Clone, Copy)]
pub struct Limited {
    pub refusal: Refusal,
    pub limit: i64,
}

impl From<Result<i64, Reason>> for Limited {
    ghost from_gives = { λ answer flat. flat ≡ limited answer };

    fn from(answer: Result<i64, Reason>) -> Self {
        match answer {
            Ok(limit) => Limited {
                refusal: Refusal { number: 0 },
                limit,
            },
            Err(reason) => Limited {
                refusal: Refusal::from(reason),
                limit: 0,
            },
        }
    }
}

// ---- the sums

// One number less another, whichever is the greater.
fn less(a: u64, b: u64) -> i64
    requires { (a < signed_above) × (b < signed_above) }
    ensures { result ≡ pos a -ℤ pos b }
{
    a as i64 - b as i64
}

// Number k of entry x: 0 is A, 1 is W, 2 is M, 3 is V.
fn number_at(summaries: &[u32], x: usize, k: usize) -> u64
    requires { (x * summary_numbers + summary_numbers ≤ length summaries.now) × (k < summary_numbers) }
    ensures is { result ≡ get_or summaries.now (x * summary_numbers + k) 0 }
    ensures small { result ≤ most_entry }
{
    u64::from(summaries[x * rules::SUMMARY_NUMBERS + k])
}

// The whole bodies after one at a level, summed up: W and M of them all, in 2005 their averages for M; and whether the averages of the rest before them
// count, which in 2008 they do where there is a body.
#[derive(Clone, Copy)]
struct Later {
    counts: bool,
    lowest: u64,
    mix: u64,
}

// So many bodies, each summed up in entry q.
fn bodies_after(policy: u32, summaries: &[u32], q: usize, after: u64) -> Later
    requires { (q * summary_numbers + summary_numbers ≤ length summaries.now) × (after < most_repeats) }
    ensures { BodiesAfter policy summaries.now q after result }
{
    if policy == rules::POLICY_2005 {
        return Later {
            counts: true,
            lowest: after * number_at(summaries, q, 1),
            mix: after * number_at(summaries, q, 0),
        };
    }
    if after == 0 {
        return Later {
            counts: false,
            lowest: 0,
            mix: 0,
        };
    }
    let average = number_at(summaries, q, 0);
    let lowest = number_at(summaries, q, 1);
    let mix = number_at(summaries, q, 2) + (after - 1) * average.max(lowest);
    let all = after * lowest;
    Later {
        counts: true,
        lowest: all,
        mix,
    }
}

// What the limit takes off the cycle for the rest of a body, summed up in entry x, with these bodies after it.
fn mix_before(summaries: &[u32], x: usize, later: Later) -> u64
    requires { Before summaries.now x later }
    ensures mixed { result ≡ mix_before (stretch_at summaries.now x) later }
    ensures small { result ≤ greatest_mix }
{
    let mix = number_at(summaries, x, 2);
    if later.counts {
        return (mix + later.lowest).max(number_at(summaries, x, 0) + later.mix);
    }
    mix
}

// The same, with so many bodies after it, each summed up in entry q.
fn mix_from(policy: u32, summaries: &[u32], x: usize, q: usize, after: u32) -> u64
    requires { Summed summaries.now x q after }
    ensures mixed { result ≡ needed policy (stretch_at summaries.now x) (stretch_at summaries.now q) after }
    ensures small { result ≤ greatest_mix }
{
    let later = bodies_after(policy, summaries, q, u64::from(after));
    mix_before(summaries, x, later)
}

// ---- whether a level fits, by the room that the bodies after a place leave

// More than any time and any average that is looked at: 2 to the 62nd.
const AMPLE: u64 = 4_611_686_018_427_387_904;

// What the rest of a body may come to: M (in 2005 the safe sum) at most `mix`, and the averages at most `average`, which is ample where they do not
// count.
#[derive(Clone, Copy)]
pub struct Room {
    pub mix: i64,
    pub average: i64,
}

// What is left of a room of which so much is taken.
pub fn taken(room: i64, much: u64) -> i64
    requires { (much < signed_above) × (mag (room -ℤ pos much) < signed_above) }
    ensures { result ≡ room -ℤ pos much }
{
    room - much as i64
}

// What a room comes to that so much is given back to.
fn given(room: i64, much: u64) -> i64
    requires { (much < signed_above) × (mag (room +ℤ pos much) < signed_above) }
    ensures { result ≡ room +ℤ pos much }
{
    room + much as i64
}

// What is left of the cycle for the rest of a body that begins at a time, before so many bodies, each summed up in entry q.
pub fn room_before(
    policy: u32,
    summaries: &[u32],
    q: usize,
    after: u64,
    cycle: u32,
    begins: u64,
) -> Room
    requires { LeavesRoom summaries.now q after begins }
    ensures { result ≡ room_left cycle begins (later_of policy (stretch_at summaries.now q) after) }
{
    let later = bodies_after(policy, summaries, q, after);
    let left = less(cycle as u64, begins);
    let mix = taken(left, later.lowest);
    if later.counts {
        let average = taken(left, later.mix);
        return Room { mix, average };
    }
    let average = less(cycle as u64 + AMPLE, begins);
    Room { mix, average }
}

// The same before one body fewer, without a multiplication: it gives back what it took.
pub fn room_nearer(policy: u32, summaries: &[u32], q: usize, after: u64, room: Room) -> Room
    requires { Nears policy summaries.now q after room }
    ensures { (cycle begins : ℕ) → room ≡ room_left cycle begins (later_of policy (stretch_at summaries.now q) after)
        → result ≡ room_left cycle begins (later_of policy (stretch_at summaries.now q) (after - 1)) }
{
    let lowest = number_at(summaries, q, 1);
    let mix = given(room.mix, lowest);
    if policy == rules::POLICY_2005 {
        let average = given(room.average, number_at(summaries, q, 0));
        return Room { mix, average };
    }
    if after == 1 {
        let average = given(mix, AMPLE);
        return Room { mix, average };
    }
    let most = number_at(summaries, q, 0).max(lowest);
    let average = given(room.average, most);
    Room { mix, average }
}

// Whether the rest of a body, summed up in entry x, has room. The averages are looked at first: where a level does not fit, they mostly tell.
pub fn has_room(summaries: &[u32], x: usize, room: Room) -> bool
    requires { x * summary_numbers + summary_numbers ≤ length summaries.now }
    ensures { result ≡ fits_in (stretch_at summaries.now x) room }
{
    if number_at(summaries, x, 0) as i64 <= room.average {
        return number_at(summaries, x, 2) as i64 <= room.mix;
    }
    false
}

// ---- walking along the positions

// Where a position stands: its place in its body, and the whole bodies after that one.
#[derive(Clone, Copy)]
pub struct Spot {
    pub place: usize,
    pub after: u32,
}

pub fn spot_of(body: Body, position: usize) -> Spot
    requires { CountsIn body × (position < positions body) }
    ensures { Standing body position result.place result.after }
{
    let n = body.n as usize;
    Spot {
        place: position % n,
        after: body.repeats - 1 - (position / n) as u32,
    }
}

// Where the next position stands: in the next place, and after the last place in the first of the next body.
fn next_spot(body: Body, place: usize, after: u32) -> Spot
    requires { MoreAfter body place after }
    ensures stands { (x : ℕ) → Standing body x place after → suc x < positions body → Standing body (suc x) result.place result.after }
    ensures within { result.place ≢ 0 → result.after ≡ after }
{
    let next = place + 1;
    if next == body.n as usize {
        Spot {
            place: 0,
            after: after - 1,
        }
    } else {
        Spot { place: next, after }
    }
}

// The bodies after a position, each summed up in entry q, where `before` were those after the position before it: they are the same while the body
// lasts.
fn bodies_still(policy: u32, summaries: &[u32], q: usize, spot: Spot, before: Later) -> Later
    requires summary_numbers_in_bounds { (q * summary_numbers + summary_numbers ≤ length summaries.now) × (spot.after < most_repeats) }
    requires bodies_after { spot.place ≢ 0 → BodiesAfter policy summaries.now q spot.after before }
    ensures { BodiesAfter policy summaries.now q spot.after result }
{
    if spot.place == 0 {
        return bodies_after(policy, summaries, q, u64::from(spot.after));
    }
    before
}

// The greatest, over the positions of a coast, of the worst times before one and what the limit takes off the cycle there: what the cycle must have
// room for.
fn reach(
    body: Body,
    summaries: &[u32],
    worst: &[u32],
    place: usize,
    after: u32,
    level: usize,
    length: usize,
) -> u64
    requires { Coasts body (record { order = []; summaries = summaries.now; worst = worst.now }) place after level length }
    ensures small { result ≤ greatest_reach }
    ensures is { (i : ℕ) → Standing body i place after → pos body.cycle -ℤ pos result
        ≡ (lent_each body (record { order = []; summaries = summaries.now; worst = worst.now })).bound i level length }
{
    let levels = body.levels as usize;
    let mut later = bodies_after(body.policy, summaries, level, after as u64);
    let mut most = mix_before(summaries, place * levels + level, later);
    let mut spent: u64 = 0;
    let mut spot = Spot { place, after };
    for _k in 1..length {
        spent += worst[spot.place * levels + level] as u64;
        spot = next_spot(body, spot.place, spot.after);
        later = bodies_still(body.policy, summaries, level, spot, later);
        let here = mix_before(summaries, spot.place * levels + level, later);
        most = most.max(spent + here);
    }
    most
}

// ---- a coast by its ends

// The worst times from entry x up to entry y, which is so many bodies on, each summed up in entry q; 0 where those from y on are more.
fn spent_before(summaries: &[u32], x: usize, y: usize, q: usize, passed: u32) -> u64
    requires { Passes summaries.now x y q passed }
    ensures is { result ≡ (stretch_at summaries.now x).worst + passed * (stretch_at summaries.now q).worst
        - (stretch_at summaries.now y).worst }
    ensures small { result ≤ longest_coast * most_entry }
{
    let all = number_at(summaries, x, 3) + u64::from(passed) * number_at(summaries, q, 3);
    let rest = number_at(summaries, y, 3);
    if all < rest { 0 } else { all - rest }
}

// The worst times of a coast before its last position, and what the limit takes off the cycle there: what the cycle must have room for.
pub fn last_reach(
    body: Body,
    summaries: &[u32],
    place: usize,
    after: u32,
    level: usize,
    length: usize,
) -> u64
    requires { Spans body summaries.now place after level length }
    ensures small { result ≤ greatest_reach }
    ensures is { (i : ℕ) → Standing body i place after → result
        ≡ last_mix body (rest_lent body (record { order = []; summaries = summaries.now; worst = [] })) i level length }
{
    let levels = body.levels as usize;
    let ahead = (place + length - 1) as u32;
    let passed = ahead / body.n;
    let y = (ahead % body.n) as usize * levels + level;
    let spent = spent_before(summaries, place * levels + level, y, level, passed);
    spent + mix_from(body.policy, summaries, y, level, after - passed)
}

// What the cycle must have room for over a coast: at each of its positions, or by its ends where these may tell, whichever is less.
fn least_reach(
    body: Body,
    summaries: &[u32],
    worst: &[u32],
    place: usize,
    after: u32,
    level: usize,
    length: usize,
) -> u64
    requires { Coasts body (record { order = []; summaries = summaries.now; worst = worst.now }) place after level length }
    ensures small { result ≤ greatest_reach }
    ensures is { (i : ℕ) → Standing body i place after → pos body.cycle -ℤ pos result
        ≡ (lent_plan body (record { order = []; summaries = summaries.now; worst = worst.now })).bound i level length }
{
    let each = reach(body, summaries, worst, place, after, level, length);
    let n = body.n as usize;
    let levels = body.levels as usize;
    let left = after as usize * n + (n - place);
    if (level + 1 < levels) | ((length < rules::LONGEST_COAST) & (length < left)) {
        return each;
    }
    let first = mix_from(body.policy, summaries, place * levels + level, level, after);
    let last = last_reach(body, summaries, place, after, level, length);
    each.min(first.max(last))
}

// ---- refusals

// Whether neither 3 nor 19 is given: the four counts are judged at once, since nearly always all are in range.
fn body_in(body: Body) -> bool
    ensures { result ≡ eqb (first (body_tests body)) 0 }
{
    let n = body.n;
    let levels = body.levels;
    let cycle = body.cycle;
    let repeats = body.repeats;
    !((n < 1)
        | (rules::MOST_ACTIONS < n as usize)
        | (levels < 1)
        | (rules::MOST_LEVELS < levels as usize)
        | (cycle < 1)
        | (rules::LAST_CLOCK < cycle)
        | (repeats < 1)
        | (rules::MOST_REPEATS < repeats))
}

// 3 and 19.
pub fn body_refusal(body: Body) -> Result<(), Reason>
    ensures { number result ≡ first (body_tests body) }
{
    let n = body.n;
    let levels = body.levels;
    let cycle = body.cycle;
    if (n < 1)
        | (rules::MOST_ACTIONS < n as usize)
        | (levels < 1)
        | (rules::MOST_LEVELS < levels as usize)
        | (cycle < 1)
        | (rules::LAST_CLOCK < cycle)
    {
        return Err(Reason::Count);
    }
    let repeats = body.repeats;
    if (repeats < 1) | (rules::MOST_REPEATS < repeats) {
        return Err(Reason::Repeats);
    }
    Ok(())
}

// And 20.
pub fn known_refusal(body: Body) -> Result<(), Reason>
    ensures { number result ≡ first (known_tests body) }
{
    if !body_in(body) {
        return body_refusal(body);
    }
    let policy = body.policy;
    if (policy != rules::POLICY_2008) & (policy != rules::POLICY_2005) {
        return Err(Reason::Policy);
    }
    Ok(())
}

// Those of the body, 17, then 18.
fn limit_refusal(body: Body, summaries: &[u32], position: usize, level: usize) -> Result<(), Reason>
    ensures { number result ≡ body_limit_refusal body summaries.now position level }
{
    known_refusal(body)?;
    let n = body.n as usize;
    let levels = body.levels as usize;
    if summaries.len() < n * levels * rules::SUMMARY_NUMBERS {
        return Err(Reason::Room);
    }
    if (body.repeats as usize * n <= position) | (levels <= level) {
        return Err(Reason::Reading);
    }
    Ok(())
}

// Those of the limit with the room of the worst times, and a length outside 1 to 16 is 18 too.
fn bound_refusal(
    body: Body,
    summaries: &[u32],
    worst: &[u32],
    position: usize,
    level: usize,
    length: usize,
) -> Result<(), Reason>
    ensures { number result ≡ body_bound_refusal body (record { order = []; summaries = summaries.now; worst = worst.now })
        position level length }
{
    known_refusal(body)?;
    let n = body.n as usize;
    let levels = body.levels as usize;
    let cells = n * levels;
    if (summaries.len() < cells * rules::SUMMARY_NUMBERS) | (worst.len() < cells) {
        return Err(Reason::Room);
    }
    if (body.repeats as usize * n <= position)
        | (levels <= level)
        | (length < 1)
        | (rules::LONGEST_COAST < length)
    {
        return Err(Reason::Reading);
    }
    Ok(())
}

// ---- the calls

// The limit at a position and level that are there.
fn limit_at(body: Body, summaries: &[u32], position: usize, level: usize) -> i64
    requires { Stands body summaries.now position level }
    ensures small { mag result ≤ greatest_mix }
    ensures is { result ≡ (lent_plan body (record { order = []; summaries = summaries.now; worst = [] })).limit position level }
{
    let spot = spot_of(body, position);
    let x = spot.place * body.levels as usize + level;
    less(
        u64::from(body.cycle),
        mix_from(body.policy, summaries, x, level, spot.after),
    )
}

// The limit at an unrolled position and a level, any values.
pub fn limit(body: Body, summaries: &[u32], position: usize, level: usize) -> Result<i64, Reason>
    ensures { LimitAnswers body summaries.now position level (limited result) }
{
    limit_refusal(body, summaries, position, level)?;
    Ok(limit_at(body, summaries, position, level))
}

// The coast bound at an unrolled position, a level and a length, any values; absent, as the number that C is handed, where the coast would go past
// the last position.
pub fn bound(
    body: Body,
    summaries: &[u32],
    worst: &[u32],
    position: usize,
    level: usize,
    length: usize,
) -> Result<i64, Reason>
    ensures { BoundAnswers body (record { order = []; summaries = summaries.now; worst = worst.now })
        position level length (limited result) }
{
    bound_refusal(body, summaries, worst, position, level, length)?;
    if body.repeats as usize * body.n as usize - position < length {
        return Ok(rules::ABSENT_LONG);
    }
    let spot = spot_of(body, position);
    let most = least_reach(
        body, summaries, worst, spot.place, spot.after, level, length,
    );
    Ok(less(u64::from(body.cycle), most))
}
