// The order of actions on lent slices: the masks and deadlines by action, the level 0 worst time of action a at a * stride.
// A deadline of 0 stands for the cycle.
#![tactic(auto)]

ghost use Rattle.std.specs.Prelude.{◌≡◌, true, ◌↔◌, List, [], ℕ, ◌≤◌, ◌<◌, length, get_or, is_none, unwrap_or, replicate, IfErr};
ghost use Rattle.rules.specs.Numbers.{most_actions};
ghost use Rattle.rules.specs.Order.{Loop};
ghost use Rattle.sets.specs.Sets.{Below, comes_before};
ghost use Rattle.order.specs.Lent.{lent_profile, Masked, Timed};
ghost use Rattle.order.specs.Arranged.{Parted, Placed};
ghost use Rattle.order.specs.Judged.{ByNumber, Ordered, TellsFit, verdict, judged_order, Verdict};

use order_line::{lower_alone, number};
use order_loops::first_looped;
use order_urgency::{due, next, one_deadline, urgencies};
use rules::{Blame, Reason};
use sets::{above_lowest, all_below, count, end, lowest, subset, with, without};

// ---- order

// The ready actions: `free`, and those of `from` that are ready. Each other one of `from` waits with one of its predecessors that are
// not done, and is looked at again when that one is done. It is at first the highest, as the higher numbers tend to be done later. Where
// others are left after it the numbers may run against the order, so that it is then the lowest.
fn release(masks: &[u64], from: u64, done: u64, free: u64, waiting: &mut [u64; 64]) -> u64
    requires { Below from (length masks.now) }
    ensures { (n : ℕ) → Masked n masks.now → Parted n masks.now done free from waiting.old
        → Parted n masks.now done result 0 waiting.new }
{
    let mut r = free;
    let mut t = from;
    while t != 0 {
        let a = lowest(t);
        let mask = masks[a];
        if subset(mask, done) {
            r = with(r, a);
        } else {
            let b = end(mask & !done, done == 0);
            waiting[b] = with(waiting[b], a);
        }
        t = above_lowest(t);
    }
    r
}

// The actions in order by urgency, and then 0. There is no loop, so that one is ready as long as one is left.
fn arrange(masks: &[u64], urgency: &[u32; 64], n: usize) -> [u8; 64]
    requires { Masked n masks.now × (Loop n (comes_before masks.now) → ⊥) }
    ensures { Placed n masks.now urgency.now result }
{
    let mut order = [0u8; 64];
    let mut waiting = [0u64; 64];
    let mut done: u64 = 0;
    let mut free = release(masks, all_below(n), 0, 0, &mut waiting);
    // As many as are done have their place: the set is counted.
    let mut k: usize = 0;
    while k < n {
        let a = next(urgency, free);
        order[k] = a as u8;
        done = with(done, a);
        free = release(masks, waiting[a], done, without(free, a), &mut waiting);
        k = count(done) as usize;
    }
    order
}

// ---- order of the numbers

// Whether all deadlines are one and each mask names lower numbers alone. Then the order is that of the numbers.
fn by_number(masks: &[u64], deadlines: &[u32], cycle: u32, n: usize) -> bool
    requires { (n ≤ most_actions) × (n ≤ length masks.now) × (n ≤ length deadlines.now) }
    ensures { (result ≡ true) ↔ ByNumber (lent_profile n cycle masks.now deadlines.now [] 0) }
{
    if one_deadline(deadlines, cycle, n) {
        return lower_alone(masks, n);
    }
    false
}

// The actions in order and then 0; none where the masks contain a loop, which is told by the pass that finds the urgencies, and looked for nowhere
// else.
fn ordered(masks: &[u64], deadlines: &[u32], cycle: u32, n: usize) -> Option<[u8; 64]>
    requires { Masked n masks.now × (n ≤ length deadlines.now) }
    ensures { Ordered (lent_profile n cycle masks.now deadlines.now [] 0) (is_none result) (unwrap_or result (replicate most_actions 0)) }
{
    if by_number(masks, deadlines, cycle, n) {
        let mut order = [0u8; 64];
        number(n, &mut order);
        return Some(order);
    }
    let mut urgency = [0u32; 64];
    if urgencies(masks, deadlines, cycle, n, &mut urgency) {
        return None;
    }
    Some(arrange(masks, &urgency, n))
}

// ---- refusals 8 and 9

// Whether every deadline is met at level 0 worst times, the actions one after another as `order` says.
pub fn fit(
    order: &[u8; 64],
    deadlines: &[u32],
    cycle: u32,
    worst: &[u32],
    stride: usize,
    n: usize,
) -> bool
    requires { (n ≤ most_actions) × Timed n deadlines.now worst.now stride × ((k : ℕ) → k < n → get_or order.now k 0 < n) }
    ensures { (masks : List ℕ) → TellsFit
        (lent_profile n cycle masks deadlines.now worst.now stride) order.now result }
{
    let mut end: u32 = 0;
    for k in 0..n {
        let a = order[k] as usize;
        end += worst[a * stride];
        if due(deadlines[a], cycle) < end {
            return false;
        }
    }
    true
}

// Of masks without a loop: the actions in order, then 0, and whether no permitted order meets all deadlines at level 0 worst times.
#[derive(Clone, Copy)]
pub struct Judgement {
    pub order: [u8; 64],
    pub unfit: bool,
}

// 8 where the masks contain a loop, with the lowest action on one. Whether 9 is to be given is told beside the order.
pub fn judge(
    masks: &[u64],
    deadlines: &[u32],
    cycle: u32,
    worst: &[u32],
    stride: usize,
    n: usize,
) -> Result<Judgement, Blame>
    requires { Masked n masks.now × Timed n deadlines.now worst.now stride }
    ensures verdict { Verdict
        (lent_profile n cycle masks.now deadlines.now worst.now stride) (verdict result) (judged_order result) }
    ensures looped { IfErr result (λ b. b.reason ≡ Reason.Loop) }
{
    let Some(order) = ordered(masks, deadlines, cycle, n) else {
        let a = first_looped(masks, n).unwrap();
        return Err(Blame::on(Reason::Loop, a));
    };
    let unfit = !fit(&order, deadlines, cycle, worst, stride, n);
    Ok(Judgement { order, unfit })
}
