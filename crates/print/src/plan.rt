// What the plan program prints.
ghost use Rattle.std.specs.Prelude.{◌+◌, ◌*◌, ◌≤◌, ◌<◌, ◌∷◌, pos, length, get_or};
ghost use Rattle.io.specs.Counts.{IsPrefixLen};
ghost use Rattle.rules.specs.Numbers.{most_actions, most_levels};
ghost use Rattle.rules.specs.Words.{cat};
ghost use Rattle.text.specs.Digits.{space, signed};
ghost use Rattle.text.specs.Put.{Puts};
ghost use Rattle.print.specs.Plan.{counts_line, position_line, TellsPlan};

use print_lines::{put_fault, put_field};
use rules::{Counts, Fault};
use text::{put_byte, put_number, put_signed};

// Actions, levels, cycle.
fn put_counts(out: &mut [u8], counts: Counts) -> usize
    requires { (counts.n ≤ most_actions) × (counts.levels ≤ most_levels) }
    ensures { Puts out.old 0 (counts_line counts.n counts.levels counts.cycle) out.new result }
{
    let second = put_field(&mut *out, 0, counts.n as u32, b' ');
    let third = put_field(&mut *out, second, counts.levels as u32, b' ');
    put_field(out, third, counts.cycle, b'\n')
}

// The limits of a position, each after a space.
fn put_limits(out: &mut [u8], at: usize, limits: &[i32]) -> usize
    requires { IsPrefixLen at out.old }
    ensures { Puts out.old at
        (cat (λ q. space ∷ signed (get_or limits.now q (pos 0))) (length limits.now)) out.new result }
{
    let mut to = at;
    for limit in limits {
        let next = put_byte(&mut *out, to, b' ');
        to = put_signed(&mut *out, next, *limit);
    }
    to
}

// Position, action and limits by level.
fn put_position(
    out: &mut [u8],
    at: usize,
    i: usize,
    action: u8,
    limits: &[i32],
    levels: usize,
) -> usize
    requires { IsPrefixLen at out.old × (i < most_actions) × (levels ≤ most_levels) × (i * levels + levels ≤ length limits.now) }
    ensures { Puts out.old at
        (position_line i action (λ q. get_or limits.now (i * levels + q) (pos 0)) levels) out.new result }
{
    let row = i * levels;
    let second = put_field(&mut *out, at, i as u32, b' ');
    let third = put_number(&mut *out, second, action as u32);
    let end = put_limits(&mut *out, third, &limits[row..row + levels]);
    put_byte(out, end, b'\n')
}

// That line for each position.
fn put_positions(
    out: &mut [u8],
    at: usize,
    order: &[u8],
    limits: &[i32],
    n: usize,
    levels: usize,
) -> usize
    requires { IsPrefixLen at out.old × (n ≤ most_actions) × (levels ≤ most_levels) × (n ≤ length order.now) × (n * levels ≤ length limits.now) }
    ensures { Puts out.old at
        (cat (λ i. position_line i (get_or order.now i 0) (λ q. get_or limits.now (i * levels + q) (pos 0)) levels) n)
        out.new result }
{
    let mut to = at;
    for i in 0..n {
        to = put_position(&mut *out, to, i, order[i], limits, levels);
    }
    to
}

// Actions, levels, cycle; then position, action and the limits of the policy by level.
pub fn plan_text(image: &[u8], policy: u32, out: &mut [u8]) -> usize
    ensures { TellsPlan image.now policy out.old out.new result }
{
    let mut order = [0u8; 64];
    let mut limits = [0i32; 512];
    let mut worst = [0u32; 512];
    let mut bounds = [0i32; 8192];
    let planned = planner::plan(
        image,
        policy,
        &mut order,
        &mut limits,
        &mut worst,
        &mut bounds,
    );
    match planned {
        Ok(counts) => {
            let at = put_counts(&mut *out, counts);
            put_positions(out, at, &order, &limits, counts.n, counts.levels)
        }
        Err(blame) => put_fault(out, 0, Fault::from(blame)),
    }
}
