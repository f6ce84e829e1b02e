// The actions in a line in which each comes after its predecessors, from lent masks. Where no such line can be, the masks contain a loop.
#![tactic(auto)]

ghost use Rattle.std.specs.Prelude.{◌≡◌, true, ◌↔◌, ℕ, ◌≤◌, ◌<◌, length, get_or};
ghost use Rattle.rules.specs.Numbers.{most_actions};
ghost use Rattle.order_line.specs.Line.{LowerAlone, Lined};

use sets::{all_below, lowest, without};

// ---- by their numbers

// Whether each mask names lower numbers alone.
pub fn lower_alone(masks: &[u64], n: usize) -> bool
    requires { (n ≤ most_actions) × (n ≤ length masks.now) }
    ensures { (result ≡ true) ↔ LowerAlone n masks.now }
{
    let mut higher: u64 = 0;
    for a in 0..n {
        higher = higher | (masks[a] >> a);
    }
    higher == 0
}

// Puts the numbers below n in order, and keeps what comes after them.
pub fn number(n: usize, at: &mut [u8; 64])
    requires { (n ≤ most_actions) × (length at.old ≡ most_actions) }
    ensures by_index { (k : ℕ) → k < n → get_or at.new k 0 ≡ k }
    ensures rest { (k : ℕ) → n ≤ k → get_or at.new k 0 ≡ get_or at.old k 0 }
{
    for k in 0..n {
        at[k] = k as u8;
    }
}

// ---- by walks back

// A walk goes back, from an action to one of its predecessors that has no place yet. Where all have one, the action takes the next place
// and the walk returns to where it came from; back at its beginning, the next walk begins at the lowest action that is left. So each
// action is come to once. A walk of more than n actions comes twice to one of them, and goes round a loop. Answers whether one does.
fn walk_back(masks: &[u64], n: usize, at: &mut [u8; 64]) -> bool
    requires { (n ≤ most_actions) × (n ≤ length masks.now) × (length at.old ≡ most_actions) }
    ensures { Lined n masks.now result at.new }
{
    let mut path = [0u8; 64];
    let mut left = all_below(n);
    let mut depth: usize = 0;
    let mut k: usize = 0;
    let mut a: usize = 0;
    while left != 0 {
        let before = masks[a] & left;
        if before != 0 {
            a = lowest(before);
            depth += 1;
            if depth == n {
                return true;
            }
            path[depth] = a as u8;
        } else {
            left = without(left, a);
            at[k] = a as u8;
            k += 1;
            if 0 < depth {
                depth -= 1;
                a = path[depth] as usize;
            } else {
                if left != 0 {
                    a = lowest(left);
                    path[0] = a as u8;
                }
            }
        }
    }
    false
}

// The action at each place of the line, and whether there is a loop; then what stands there is of no use. Where each mask names lower
// numbers alone no walk goes back, and the line is that of the numbers.
pub fn line_up(masks: &[u64], n: usize, at: &mut [u8; 64]) -> bool
    requires { (n ≤ most_actions) × (n ≤ length masks.now) × (length at.old ≡ most_actions) }
    ensures { Lined n masks.now result at.new }
{
    if lower_alone(masks, n) {
        number(n, at);
        return false;
    }
    walk_back(masks, n, at)
}
