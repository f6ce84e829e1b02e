// What a decision reads of the lent tables, whoever wrote them: the level given and the coast granted.
#![tactic(auto)]

ghost use Rattle.std.specs.Prelude.{◌≡◌, false, [], suc, ◌+◌, ◌*◌, ◌<◌, ◌≤◌, pos, length, get_or};
ghost use Rattle.std.specs.Int.Signed.{le_z};
ghost use Rattle.rules.specs.Numbers.{longest_coast};
ghost use Rattle.rules.specs.Words.{last_passing};
ghost use Rattle.rules.specs.Run.{lent, left_granted};
ghost use Rattle.run_decision.specs.Decision.{Cell};

// Whether t is at most the entry, a limit or a coast bound.
pub fn within(table: &[i32], at: usize, t: u32) -> bool
    requires { at < length table.now }
    ensures { result ≡ le_z (pos t) (get_or table.now at (pos 0)) }
{
    i64::from(t) <= i64::from(table[at])
}

// The last of the `many` entries from `from` on that t is at most; if there is none, 0. So of a position's limits the greatest level that fits.
pub fn last_within(table: &[i32], from: usize, many: usize, t: u32) -> usize
    requires { from + many ≤ length table.now }
    ensures { result ≡ last_passing (λ k. le_z (pos t) (get_or table.now (from + k) (pos 0))) many }
{
    for k in (0..many).rev() {
        if within(table, from + k, t) {
            return k;
        }
    }
    0
}

// What a decision at a position and time for the level given leaves to coast: one less than the greatest r that qualifies. At the top level that
// is the last bound that t is at most. Below it, once the level above fits at a position, no longer coast qualifies; here it does not fit. The
// bounds are anyone's, so that a longer coast may qualify where a shorter one does not.
pub fn left_granted(
    limits: &[i32],
    bounds: &[i32],
    n: usize,
    levels: usize,
    position: usize,
    level: usize,
    t: u32,
) -> u32
    requires cell { Cell n levels (record { order = []; limits = limits.now; worst = []; bounds = bounds.now }) position level }
    requires pos_value { suc level < levels → le_z (pos t) (get_or limits.now (position * levels + suc level) (pos 0)) ≡ false }
    ensures { result ≡ left_granted longest_coast
        (lent n levels (record { order = []; limits = limits.now; worst = []; bounds = bounds.now })) t position level }
{
    let end = rules::LONGEST_COAST.min(n - position);
    let from = (position * levels + level) * rules::LONGEST_COAST;
    let above = level + 1;
    if above == levels {
        return last_within(bounds, from, end, t) as u32;
    }
    let mut left = 0;
    for x in 1..end {
        if within(limits, (position + x) * levels + above, t) {
            return left;
        }
        if within(bounds, from + x, t) {
            left = x as u32;
        }
    }
    left
}
