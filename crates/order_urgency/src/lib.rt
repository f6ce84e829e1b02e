// The urgency of each action, from lent masks and deadlines by action, in one pass from the last action to the first: at its turn an
// action has got the urgencies of all that must follow it, and hands its own on to its predecessors. A deadline of 0 stands for the cycle.
#![tactic(auto)]

ghost use Rattle.std.specs.Prelude.{◌≡◌, cond, true, ◌↔◌, [], ℕ, ◌≤◌, ◌<◌, eqb, length, get_or};
ghost use Rattle.rules.specs.Numbers.{most_actions};
ghost use Rattle.rules.specs.Image.{has, due};
ghost use Rattle.rules.specs.Order.{Loop};
ghost use Rattle.sets.specs.Sets.{Below, comes_before};
ghost use Rattle.order_line.specs.Line.{InLine};
ghost use Rattle.order_urgency.specs.Lent.{lent_profile};
ghost use Rattle.order_urgency.specs.Spread.{OneDeadline, HandedEach, Given, HandedOn, NextIn, Foremost, Spread, Urgent};

use order_line::line_up;
use sets::{above_lowest, all_below, end, lowest, without};

// A deadline as it counts.
pub fn due(deadline: u32, cycle: u32) -> u32
    ensures { result ≡ cond (eqb deadline 0) cycle deadline }
{
    if deadline == 0 { cycle } else { deadline }
}

// The deadline of each action.
fn dues(deadlines: &[u32], cycle: u32, n: usize, u: &mut [u32; 64])
    requires { (n ≤ most_actions) × (n ≤ length deadlines.now) × (length u.old ≡ most_actions) }
    ensures long { length u.new ≡ most_actions }
    ensures each { (a : ℕ) → a < n → get_or u.new a 0 ≡ due (lent_profile n cycle [] deadlines.now [] 0) a }
{
    for a in 0..n {
        u[a] = due(deadlines[a], cycle);
    }
}

// Whether all deadlines are one.
pub fn one_deadline(deadlines: &[u32], cycle: u32, n: usize) -> bool
    requires { (n ≤ most_actions) × (n ≤ length deadlines.now) }
    ensures { (result ≡ true) ↔ OneDeadline (lent_profile n cycle [] deadlines.now [] 0) }
{
    if n == 0 {
        return true;
    }
    let first = due(deadlines[0], cycle);
    let mut other: u32 = 0;
    for a in 0..n {
        other = other | (due(deadlines[a], cycle) ^ first);
    }
    other == 0
}

// ---- handing on

// Makes each member of a set at least as urgent as x.
fn hand_each(to: u64, x: u32, u: &mut [u32; 64])
    requires { length u.old ≡ most_actions }
    ensures { HandedEach (has to) x u.old u.new }
{
    let mut t = to;
    while t != 0 {
        let b = lowest(t);
        u[b] = x.min(u[b]);
        t = above_lowest(t);
    }
}

// Makes b at least as urgent as x. Answers the others of t that do not come before it.
fn give(masks: &[u64], t: u64, b: usize, x: u32, u: &mut [u32; 64]) -> u64
    requires { (b < most_actions) × (b < length masks.now) × (length u.old ≡ most_actions) }
    ensures { Given masks.now t b x u.old u.new result }
{
    u[b] = x.min(u[b]);
    without(t & !masks[b], b)
}

// Passes over what comes before one that has got x: that one hands it on at its turn. Where numbers run with the order the highest comes
// last, where they run against it the lowest, and all others may come before it.
fn hand_apart(masks: &[u64], to: u64, x: u32, u: &mut [u32; 64])
    requires { Below to (length masks.now) × (length u.old ≡ most_actions) }
    ensures { HandedOn masks.now to x u.old u.new }
{
    let mut t = to;
    let mut high = true;
    while t != 0 {
        t = give(masks, t, end(t, high), x, u);
        high = !high;
    }
}

// Hands x on to a set. To pass over members costs more than to give each of a few its due, so that it is done where four numbers in a row
// are members: then there are many.
fn hand_on(masks: &[u64], to: u64, x: u32, u: &mut [u32; 64])
    requires { Below to (length masks.now) × (length u.old ≡ most_actions) }
    ensures { HandedOn masks.now to x u.old u.new }
{
    let pairs = to & (to >> 1);
    if pairs & (pairs >> 2) == 0 {
        hand_each(to, x, u);
    } else {
        hand_apart(masks, to, x, u);
    }
}

// ---- turns

// The member of least urgency, the lowest of several.
pub fn next(urgency: &[u32; 64], among: u64) -> usize
    requires { 0 < among }
    ensures { NextIn urgency.now among result }
{
    let mut best = lowest(among);
    let mut t = above_lowest(among);
    while t != 0 {
        let a = lowest(t);
        if urgency[a] < urgency[best] {
            best = a;
        }
        t = above_lowest(t);
    }
    best
}

// From the last action of a permitted order to the first.
fn last_first(masks: &[u64], order: &[u8; 64], n: usize, u: &mut [u32; 64])
    requires { (n ≤ most_actions) × (n ≤ length masks.now) × InLine n masks.now order.now × (length u.old ≡ most_actions) }
    ensures { Spread n masks.now u.old u.new }
{
    let all = all_below(n);
    for k in (0..n).rev() {
        let a = order[k] as usize;
        let x = u[a];
        hand_on(masks, masks[a] & all, x, u);
    }
}

// Of those that are left one of least urgency: one of `front`, which has such ones alone, or else the one that is next.
fn foremost(u: &[u32; 64], left: u64, front: u64) -> usize
    requires { 0 < left }
    ensures { ((a : ℕ) → has front a ≡ true → Foremost u.now left a) → Foremost u.now left result }
{
    if front == 0 {
        return next(u, left);
    }
    lowest(front)
}

// Round a loop none is last. There the turn is that of the least urgent: what is left can make it no more urgent. It makes those before it
// that are left as urgent, so that they are among the least urgent too.
fn least_first(masks: &[u64], n: usize, u: &mut [u32; 64])
    requires { (n ≤ most_actions) × (n ≤ length masks.now) × (length u.old ≡ most_actions) }
    ensures { Spread n masks.now u.old u.new }
{
    let mut left = all_below(n);
    let mut front: u64 = 0;
    while left != 0 {
        let a = foremost(&*u, left, front);
        let x = u[a];
        let mask = masks[a];
        left = without(left, a);
        hand_each(mask & left, x, u);
        front = (front | mask) & left;
    }
}

// The urgency of each action, and whether the masks contain a loop. Each action has its turn once, unless all deadlines are one: then that
// is the urgency of all.
pub fn urgencies(masks: &[u64], deadlines: &[u32], cycle: u32, n: usize, u: &mut [u32; 64]) -> bool
    requires { (n ≤ most_actions) × (n ≤ length masks.now) × (n ≤ length deadlines.now) × (length u.old ≡ most_actions) }
    ensures looped { (result ≡ true) ↔ Loop n (comes_before masks.now) }
    ensures urgent { Urgent (lent_profile n cycle masks.now deadlines.now [] 0) u.new }
{
    dues(deadlines, cycle, n, u);
    let mut at = [0u8; 64];
    let looped = line_up(masks, n, &mut at);
    if one_deadline(deadlines, cycle, n) {
        return looped;
    }
    if looped {
        least_first(masks, n, u);
    } else {
        last_first(masks, &at, n, u);
    }
    looped
}
