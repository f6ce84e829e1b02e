// Planning: the order, the limits, the worst times by position and the coast bounds of an image, written to lent tables.
#![tactic(auto)]

ghost use Rattle.std.specs.Prelude.{◌≡◌, [], ◌∷◌, ◌≤◌};
ghost use Rattle.rules.specs.Numbers.{most_actions, most_levels, refused_room, refused_policy};
ghost use Rattle.rules.specs.Reasons.{number};
ghost use Rattle.rules.specs.Refusals.{◌when◌, First, Tight, UnknownPolicy};
ghost use Rattle.planner.specs.Planning.{plan_rooms, planned, Plans};

use image_check::whole;
use rules::{Blame, Counts, Fault, Reason};

// The answer of planning, laid flat for C: with a refusal all else is 0; without one what the header says.
#[repr(C)]
#[derive(Clone, Copy)]
pub struct Planned {
    pub refusal: Fault,
    pub n: usize,
    pub levels: usize,
    pub cycle: u32,
}

impl From<Result<Counts, Blame>> for Planned {
    ghost from_gives = { λ outcome flat. flat ≡ planned outcome };

    fn from(outcome: Result<Counts, Blame>) -> Self {
        match outcome {
            Ok(counts) => Planned {
                refusal: Fault::of(Ok(())),
                n: counts.n,
                levels: counts.levels,
                cycle: counts.cycle,
            },
            Err(blame) => Planned {
                refusal: Fault::from(blame),
                n: 0,
                levels: 0,
                cycle: 0,
            },
        }
    }
}

// 20 for a policy other than those of 2008 and 2005.
pub fn policy_refusal(policy: u32) -> Result<(), Reason>
    ensures { First (refused_policy when UnknownPolicy policy ∷ []) (number result) }
{
    if (policy != rules::POLICY_2008) && (policy != rules::POLICY_2005) {
        return Err(Reason::Policy);
    }
    Ok(())
}

// 17 where a lent table is shorter than needed.
fn tight(
    n: usize,
    levels: usize,
    order: &[u8],
    limits: &[i32],
    worst: &[u32],
    bounds: &[i32],
) -> Result<(), Reason>
    requires { (n ≤ most_actions) × (levels ≤ most_levels) }
    ensures { First
        (refused_room when Tight (plan_rooms n levels
        (record { order = order.now; limits = limits.now; worst = worst.now; bounds = bounds.now })) ∷ [])
        (number result) }
{
    let entries = n * levels;
    if (order.len() < n)
        || (limits.len() < entries)
        || (worst.len() < entries)
        || (bounds.len() < entries * rules::LONGEST_COAST)
    {
        return Err(Reason::Room);
    }
    Ok(())
}

// Plans an image by the policy of 2008 or of 2005. A refusal leaves the tables untouched, and what they have beyond what is needed stays.
pub fn plan(
    image: &[u8],
    policy: u32,
    order: &mut [u8],
    limits: &mut [i32],
    worst: &mut [u32],
    bounds: &mut [i32],
) -> Result<Counts, Blame>
    ensures { Plans image.now policy
        (record { order = order.old; limits = limits.old; worst = worst.old; bounds = bounds.old })
        (record { order = order.new; limits = limits.new; worst = worst.new; bounds = bounds.new }) (planned result) }
{
    let checked = whole::checked(image)?;
    policy_refusal(policy)?;
    let n = checked.n;
    let levels = checked.levels;
    let cycle = checked.cycle;
    tight(n, levels, order, limits, worst, bounds)?;
    let actions = checked.order;
    plan_tables::fill(
        image, n, levels, cycle, policy, &actions, order, limits, worst, bounds,
    );
    Ok(Counts { n, levels, cycle })
}
