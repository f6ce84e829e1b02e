// The actions on a loop of lent masks, from the sets of all that comes before each action.
#![tactic(auto)]

ghost use Rattle.std.specs.Prelude.{◌≡◌, true, ◌↔◌, List, ℕ, ◌+◌, ◌≤◌, ◌<◌, length, get_or};
ghost use Rattle.rules.specs.Numbers.{most_actions};
ghost use Rattle.rules.specs.Image.{has};
ghost use Rattle.rules.specs.Order.{OnLoop};
ghost use Rattle.rules.specs.Refusals.{Lowest};
ghost use Rattle.sets.specs.Sets.{comes_before};
ghost use Rattle.order_loops.specs.Looped.{Rows};

use sets::{lowest, member, with};

// The masks of the n actions.
fn copied(masks: &[u64], n: usize) -> [u64; 64]
    requires { (n ≤ most_actions) × (n ≤ length masks.now) }
    ensures long { length result ≡ most_actions }
    ensures each { (a : ℕ) → a < n → get_or result a 0 ≡ get_or masks.now a 0 }
{
    let mut all = [0u64; 64];
    all[..n].copy_from_slice(&masks[..n]);
    all
}

// Where k comes before an action, so does all that comes before k.
fn through(all: &mut [u64; 64], n: usize, k: usize)
    requires { (n ≤ most_actions) × (k < n) }
    ensures { (masks : List ℕ) → Rows masks n k all.old → Rows masks n (k + 1) all.new }
{
    let far = all[k];
    for b in 0..n {
        let near = all[b];
        if member(near, k) {
            all[b] = near | far;
        }
    }
}

// For each action the set of those that it must follow.
fn closed(masks: &[u64], n: usize) -> [u64; 64]
    requires { (n ≤ most_actions) × (n ≤ length masks.now) }
    ensures { Rows masks.now n n result }
{
    let mut all = copied(masks, n);
    for k in 0..n {
        through(&mut all, n, k);
    }
    all
}

// The actions that must follow themselves.
fn looped(masks: &[u64], n: usize) -> u64
    requires { (n ≤ most_actions) × (n ≤ length masks.now) }
    ensures { (a : ℕ) → (has result a ≡ true) ↔ ((a < n) × OnLoop n (comes_before masks.now) a) }
{
    let all = closed(masks, n);
    let mut set: u64 = 0;
    for a in 0..n {
        if member(all[a], a) {
            set = with(set, a);
        }
    }
    set
}

// The lowest action on a loop, if there is one.
pub fn first_looped(masks: &[u64], n: usize) -> Option<usize>
    requires { (n ≤ most_actions) × (n ≤ length masks.now) }
    ensures { Lowest (OnLoop n (comes_before masks.now)) n result }
{
    let set = looped(masks, n);
    if set == 0 {
        return None;
    }
    Some(lowest(set))
}
