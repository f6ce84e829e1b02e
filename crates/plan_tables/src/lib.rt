// The tables of an accepted image: the order, the limits, the worst times by position and the coast bounds, written to lent slices.
#![tactic(auto)]

ghost use Rattle.std.specs.Prelude.{◌*◌, ◌≤◌, [], length};
ghost use Rattle.rules.specs.Image.{profile};
ghost use Rattle.rules.specs.Order.{Order};
ghost use Rattle.plan_tables.specs.Filling.{PlanInput, SomePlanInput, EntriesFit, CanWork, Works, RowsFilled, AllFilled};

use image_fields::read;

// The limits at the position from entry `from` on, for action a, from the row after it, `held` to the deadline, with the worst times and the coast
// bounds, to the lent tables; and what this row carries on.
fn work_row(
    image: &[u8],
    levels: usize,
    policy: u32,
    a: usize,
    due: u32,
    held: [i32; rules::MOST_LEVELS],
    from: usize,
    entries: usize,
    limits: &mut [i32],
    worst: &mut [u32],
    bounds: &mut [i32],
) -> [i32; rules::MOST_LEVELS]
    requires { CanWork image.now levels a due held from entries
        (record { order = []; limits = limits.old; worst = worst.old; bounds = bounds.old }) }
    ensures { Works image.now levels policy a due held from entries
        (record { order = []; limits = limits.old; worst = worst.old; bounds = bounds.old })
        (record { order = []; limits = limits.new; worst = worst.new; bounds = bounds.new }) result }
{
    let first = held[0];
    let mut here = [0i32; rules::MOST_LEVELS];
    for q in 0..levels {
        let average = read::average_at(image, levels, a, q);
        let longest = read::worst_at(image, levels, a, q);
        let after = held[q];
        let room = plan_entry::minus(after, average);
        let limit = plan_entry::limit_of(due, first, longest, room);
        here[q] = plan_entry::carried(policy, q, limit, room);
        limits[from + q] = limit;
        worst[from + q] = longest;
        plan_entry::bounds_of(limit, longest, from + q, levels, entries, bounds);
    }
    here
}

// The limits, the worst times and the coast bounds, from the last position back: the row at a position takes the place of the row after it.
fn work(
    image: &[u8],
    n: usize,
    levels: usize,
    cycle: u32,
    policy: u32,
    actions: &[u8; rules::MOST_ACTIONS],
    limits: &mut [i32],
    worst: &mut [u32],
    bounds: &mut [i32],
)
    requires some_plan_input { SomePlanInput image.now n levels cycle actions.now }
    requires entries_fit { EntriesFit (n * levels) (record { order = []; limits = limits.old; worst = worst.old; bounds = bounds.old }) }
    ensures { (o : Order (profile image.now).n) → PlanInput image.now n levels cycle actions.now o
        → RowsFilled image.now policy n levels
        (record { order = []; limits = limits.old; worst = worst.old; bounds = bounds.old })
        (record { order = []; limits = limits.new; worst = worst.new; bounds = bounds.new }) o }
{
    let entries = n * levels;
    let mut next = plan_entry::after_last();
    for i in (0..n).rev() {
        let a = actions[i] as usize;
        let from = i * levels;
        let due = read::due_at(image, levels, a, cycle);
        let held = plan_entry::held_to(policy, due, next);
        let here = work_row(
            image, levels, policy, a, due, held, from, entries, limits, worst, bounds,
        );
        next = here;
    }
}

// The order and the three tables.
pub fn fill(
    image: &[u8],
    n: usize,
    levels: usize,
    cycle: u32,
    policy: u32,
    actions: &[u8; rules::MOST_ACTIONS],
    order: &mut [u8],
    limits: &mut [i32],
    worst: &mut [u32],
    bounds: &mut [i32],
)
    requires some_plan_input { SomePlanInput image.now n levels cycle actions.now }
    requires n_in_bounds { (n ≤ length order.old)
        × EntriesFit (n * levels) (record { order = order.old; limits = limits.old; worst = worst.old; bounds = bounds.old }) }
    ensures { (o : Order (profile image.now).n) → PlanInput image.now n levels cycle actions.now o
        → AllFilled image.now policy
        (record { order = order.old; limits = limits.old; worst = worst.old; bounds = bounds.old })
        (record { order = order.new; limits = limits.new; worst = worst.new; bounds = bounds.new }) o }
{
    fields::copy_front(actions, n, order);
    work(
        image, n, levels, cycle, policy, actions, limits, worst, bounds,
    );
}
