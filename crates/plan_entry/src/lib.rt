// A limit from the limits after it, and coast bounds from those after them.
#![tactic(auto)]

ghost use Rattle.std.specs.Prelude.{◌≡◌, cond, ℕ, ◌+◌, ◌-◌, ◌*◌, ◌≤◌, ◌<◌, pos, ◌-ℤ◌, length, get_or};
ghost use Rattle.std.specs.Int.Signed.{mag, lt_z};
ghost use Rattle.rules.specs.Numbers.{most_levels, last_clock, longest_coast};
ghost use Rattle.rules.specs.Words.{minZ};
ghost use Rattle.rules.specs.Limits.{absent};
ghost use Rattle.fields.specs.Fields.{splice};
ghost use Rattle.plan_entry.specs.Rows.{latest_start, Held, limit_of, carried_of, after_last, SmallStart};
ghost use Rattle.plan_entry.specs.Bounds.{bound_by, bounds_by, bound_in, signed_end, Spares};

// The latest start of what takes `time` and ends by `limit`.
pub fn minus(limit: i32, time: u32) -> i32
    requires { mag limit + time < signed_end }
    ensures { result ≡ limit -ℤ pos time }
{
    limit - (time as i32)
}

// ---- limits

// The latest start of an action that takes `time` and ends by its deadline and by `after`.
fn latest_start(deadline: u32, after: i32, time: u32) -> i32
    requires { SmallStart deadline after time }
    ensures { result ≡ latest_start deadline after time }
{
    minus((deadline as i32).min(after), time)
}

// What the row after it carries, held to a deadline: in 2005 the averages are tested against that too. In 2008 the safe test is enough, so that
// its rows are spared the comparison.
pub fn held_to(
    policy: u32,
    deadline: u32,
    next: [i32; rules::MOST_LEVELS],
) -> [i32; rules::MOST_LEVELS]
    requires { deadline ≤ last_clock }
    ensures { Held policy deadline next result }
{
    if policy != rules::POLICY_2005 {
        return next;
    }
    let mut held = [0i32; rules::MOST_LEVELS];
    for q in 0..rules::MOST_LEVELS {
        held[q] = (deadline as i32).min(next[q]);
    }
    held
}

// A limit by the limit of level 0 after it, `first`, and by `room`, the latest start at the average.
pub fn limit_of(deadline: u32, first: i32, worst: u32, room: i32) -> i32
    requires { SmallStart deadline first worst }
    ensures { result ≡ limit_of deadline first worst room }
{
    let safe = latest_start(deadline, first, worst);
    room.min(safe)
}

// What a row carries on to the position before it: the limit, but in 2005 the averages alone. The worst times are met at level 0, where it is
// the limit of either policy.
pub fn carried(policy: u32, level: usize, limit: i32, room: i32) -> i32
    ensures { result ≡ carried_of policy level limit room }
{
    if policy != rules::POLICY_2005 {
        return limit;
    }
    if level == 0 { limit } else { room }
}

// The row after the last position. It is never the lesser, so that the last row is worked as any other.
pub fn after_last() -> [i32; rules::MOST_LEVELS]
    ensures { result ≡ after_last }
{
    [rules::LAST_CLOCK as i32; rules::MOST_LEVELS]
}

// ---- coast bounds

// What is taken off the bound of the position after it: nothing where that is absent, so that it stays so. Chosen before the subtraction it is a mask,
// and the result need not be chosen.
fn spent_before(worst: u32, after: i32) -> u32
    ensures { result ≡ cond (lt_z absent after) worst 0 }
{
    if rules::ABSENT < after { worst } else { 0 }
}

// A bound from that of the position after it at one action less, and absent where that is: no bound is below ABSENT.
fn bound_of(limit: i32, worst: u32, after: i32) -> i32
    requires { Spares worst after }
    ensures { result ≡ bound_by limit worst after }
{
    limit.min(minus(after, spent_before(worst, after)))
}

// The sixteen of an entry from those of the position after it, which are one action less.
fn bounds_by(limit: i32, worst: u32, after: [i32; rules::LONGEST_COAST], out: &mut [i32], at: usize)
    requires { ((k : ℕ) → k < longest_coast - 1 → Spares worst (get_or after k (pos 0))) × (at + longest_coast ≤ length out.old) }
    ensures { out.new ≡ splice out.old at (bounds_by limit worst (λ k. get_or after k (pos 0))) }
{
    out[at] = limit;
    for k in 0..rules::LONGEST_COAST - 1 {
        out[at + 1 + k] = bound_of(limit, worst, after[k]);
    }
}

// The sixteen that stand from `at` on, one by one: by the library's copy they go through memory once more, and planning takes a fifth more time.
fn sixteen(bounds: &[i32], at: usize) -> [i32; rules::LONGEST_COAST]
    requires { at + longest_coast ≤ length bounds.now }
    ensures { (k : ℕ) → k < longest_coast → get_or result k (pos 0) ≡ get_or bounds.now (at + k) (pos 0) }
{
    let mut row = [0i32; rules::LONGEST_COAST];
    for k in 0..rules::LONGEST_COAST {
        row[k] = bounds[at + k];
    }
    row
}

// The sixteen of entry x, from those of the same level at the position after it, `levels` entries on; past the last entry all are absent.
pub fn bounds_of(limit: i32, worst: u32, x: usize, levels: usize, entries: usize, out: &mut [i32])
    requires x_lt_entries { (x < entries) × (levels ≤ most_levels) × (entries * longest_coast ≤ length out.old) }
    requires by_index { (k : ℕ) → k < longest_coast - 1 → Spares worst (bound_in out.old entries (x + levels) k) }
    ensures { out.new ≡ splice out.old (x * longest_coast)
        (bounds_by limit worst (bound_in out.old entries (x + levels))) }
{
    let at = x * rules::LONGEST_COAST;
    let next = x + levels;
    if entries <= next {
        bounds_by(limit, worst, [rules::ABSENT; rules::LONGEST_COAST], out, at);
        return;
    }
    let after = sixteen(out, next * rules::LONGEST_COAST);
    bounds_by(limit, worst, after, out, at);
}
