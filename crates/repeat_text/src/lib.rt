// A body repeated as text: what the repeat_plan program does. Each line is worked out as it is put, and the text leaves whenever the lent buffer has
// no room for a line, so that nothing grows with the repeats.
#![tactic(auto)]

ghost use Rattle.std.specs.Prelude.{◌≡◌, ◌+◌, ◌≤◌, ◌<◌, [], ◌∷◌, length, IfOk, OnErr};
ghost use Rattle.std.specs.Io.{ReadsAtMost};
ghost use Rattle.io.specs.Counts.{IsPrefixLen};
ghost use Rattle.rules.specs.Numbers.{most_positions};
ghost use Rattle.rules.specs.Words.{cat};
ghost use Rattle.rules.specs.Refusals.{UnknownPolicy};
ghost use Rattle.rules.specs.Repeat.{positions, lent_plan, action_at};
ghost use Rattle.text.specs.Digits.{space, signed};
ghost use Rattle.text.specs.Put.{Puts};
ghost use Rattle.repeat_limits.specs.Limits.{Stands};
ghost use Rattle.repeat_text.specs.Text.{longest_line, lent_line, Lent, TellsLines, TellsFirst};

use print_lines::{put_fault, put_field, put_four};
use repeat_planner::BodyPlanned;
use rules::Body;
use std::io;
use std::io::Write;
use text::{put_byte, put_number, put_signed_long};

// No line is longer: two numbers of up to 20 digits each, eight limits with a sign and a space before each, the space between and the newline.
const LONGEST_LINE: usize = 218;

// ---- a line

// The limits of a position by level, each after a space.
fn put_limits(out: &mut [u8], at: usize, body: Body, summaries: &[u32], position: usize) -> usize
    requires { IsPrefixLen at out.old × Stands body summaries.now position 0 × (UnknownPolicy body.policy → ⊥) }
    ensures { Puts out.old at
        (cat (λ q. space ∷ signed ((lent_plan body (record { order = []; summaries = summaries.now; worst = [] })).limit position q)) body.levels)
        out.new result }
{
    let mut to = at;
    for q in 0..body.levels as usize {
        let next = put_byte(&mut *out, to, b' ');
        let limit = repeat_limits::limit(body, summaries, position, q).unwrap();
        to = put_signed_long(&mut *out, next, limit);
    }
    to
}

// The action at a position, by its number in the unrolled system.
fn action_at(n: usize, order: &[u8], position: usize) -> usize
    requires { (0 < n) × (n ≤ length order.now) × (position < most_positions) }
    ensures { (result ≡ action_at n order.now position) × (result < most_positions + 256) }
{
    position / n * n + order[position % n] as usize
}

// Position, action by its number in the unrolled system, and limits by level.
pub fn put_position(
    out: &mut [u8],
    at: usize,
    body: Body,
    order: &[u8],
    summaries: &[u32],
    position: usize,
) -> usize
    requires { IsPrefixLen at out.old × Lent body order.now summaries.now × (position < positions body) }
    ensures { Puts out.old at (lent_line body order.now summaries.now position) out.new result }
{
    let action = action_at(body.n as usize, order, position);
    let second = put_field(&mut *out, at, position as u32, b' ');
    let third = put_number(&mut *out, second, action as u32);
    let end = put_limits(&mut *out, third, body, summaries, position);
    put_byte(out, end, b'\n')
}

// Up to which position there are lines, and where in the buffer they end.
#[derive(Clone, Copy)]
struct Told {
    next: usize,
    at: usize,
}

// The lines from a position on, as many as there is room for.
fn put_lines(
    out: &mut [u8],
    at: usize,
    body: Body,
    order: &[u8],
    summaries: &[u32],
    from: usize,
) -> Told
    requires { (at + longest_line ≤ length out.old) × Lent body order.now summaries.now × (from < positions body) }
    ensures { TellsLines body order.now summaries.now out.old at from out.new result }
{
    let last = body.repeats as usize * body.n as usize;
    let mut to = at;
    for next in from..last {
        if out.len() - to < LONGEST_LINE {
            return Told { next, at: to };
        }
        to = put_position(&mut *out, to, body, order, summaries, next);
    }
    Told { next: last, at: to }
}

// ---- the text

// What planning answers, and where in the buffer the first line ends.
#[derive(Clone, Copy)]
pub struct Begun {
    pub planned: BodyPlanned,
    pub at: usize,
}

// Plans an image as a body done `repeats` times by a policy, and puts the first line: n, L, the cycle and N, or the refusal.
pub fn begin(
    image: &[u8],
    repeats: u32,
    policy: u32,
    order: &mut [u8],
    summaries: &mut [u32],
    worst: &mut [u32],
    out: &mut [u8],
) -> Begun
    ensures { TellsFirst image.now repeats policy
        (record { order = order.old; summaries = summaries.old; worst = worst.old })
        (record { order = order.new; summaries = summaries.new; worst = worst.new })
        out.old out.new result }
{
    let planned = BodyPlanned::from(repeat_planner::plan(
        image, repeats, policy, order, summaries, worst,
    ));
    if planned.refusal.number != 0 {
        let at = put_fault(out, 0, planned.refusal);
        return Begun { planned, at };
    }
    let body = planned.body;
    let at = put_four(out, 0, body.n, body.levels, body.cycle, body.repeats);
    Begun { planned, at }
}

// Where a line can begin: where `out` has no room left for the longest one, what is in it is written to `to`, and it is begun anew.
fn line_at<W: Write>(out: &[u8], at: usize, to: &mut W) -> io::Result<usize>
    requires { IsPrefixLen at out.now × (longest_line ≤ length out.now) }
    ensures { IfOk result (λ start. start + longest_line ≤ length out.now) }
{
    if LONGEST_LINE <= out.len() - at {
        return Ok(at);
    }
    to.write_all(&out[..at])?;
    Ok(0)
}

// A line for each unrolled position after the `at` bytes of `out`. What has no room in it is written to `to`.
fn tell_positions<W: Write>(
    body: Body,
    order: &[u8],
    summaries: &[u32],
    out: &mut [u8],
    at: usize,
    to: &mut W,
) -> io::Result<usize>
    requires { IsPrefixLen at out.old × (longest_line ≤ length out.old) × Lent body order.now summaries.now }
    ensures in_bounds { ReadsAtMost result out.new }
    ensures err { OnErr result (length out.new ≡ length out.old) }
{
    let last = body.repeats as usize * body.n as usize;
    let mut end = at;
    let mut next = 0;
    while next < last {
        let start = line_at(&*out, end, to)?;
        let told = put_lines(&mut *out, start, body, order, summaries, next);
        end = told.at;
        next = told.next;
    }
    Ok(end)
}

// The text of an image done `repeats` times by a policy, any numbers: those out of their range are refused as planning does. What has no room in
// `out` is written to `to`; the answer is how much of `out` is still to be written.
pub fn plan_text<W: Write>(
    image: &[u8],
    repeats: u32,
    policy: u32,
    out: &mut [u8],
    to: &mut W,
) -> io::Result<usize>
    requires { longest_line ≤ length out.old }
    ensures in_bounds { ReadsAtMost result out.new }
    ensures err { OnErr result (length out.new ≡ length out.old) }
{
    let mut order = [0u8; 64];
    let mut summaries = [0u32; 2048];
    let mut worst = [0u32; 512];
    let begun = begin(
        image,
        repeats,
        policy,
        &mut order,
        &mut summaries,
        &mut worst,
        &mut *out,
    );
    let planned = begun.planned;
    if planned.refusal.number != 0 {
        return Ok(begun.at);
    }
    tell_positions(planned.body, &order, &summaries, out, begun.at, to)
}
