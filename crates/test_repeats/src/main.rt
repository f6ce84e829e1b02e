// Outside bodies: NNN.body is an image, NNN.repeats how often it is done, NNN.first the first line that the repeat_plan program prints for both and
// NNN.limits the lines of all positions, or of some where there are more than 200; with a refusal that line alone. NNN.bounds has coast bounds at
// some positions; NNN.durations a frame's durations and NNN.dry what its dry run comes to, where one is listed. They come with the request for
// bodies repeated.
#![tactic(auto)]

ghost use Rattle.std.specs.Prelude.{◌≡◌, ◌≤◌, ◌<◌, length};
ghost use Rattle.io.specs.Counts.{IsPrefixLen};
ghost use Rattle.rules.specs.Repeat.{positions as Repeat·positions};
ghost use Rattle.repeat_limits.specs.Limits.{CountsIn};
ghost use Rattle.repeat_text.specs.Text.{Lent};

use print_lines::{put_field, put_four};
use repeat_frame::BodyFrame;
use rules::{Body, Fault};
use std::io;
use std::rt::Files;
use test_kit::{Tally, read_case};

const CASES: usize = 35;

// Where there are no more positions all of them are listed.
const MOST_LISTED: usize = 200;

// ---- the lines

fn positions(body: Body) -> usize
    requires { CountsIn body }
    ensures { result ≡ Repeat·positions body }
{
    body.repeats as usize * body.n as usize
}

// The line of the position that it says.
fn line_agrees(line: &[u8], body: Body, order: &[u8], summaries: &[u32]) -> bool
    requires { Lent body order.now summaries.now }
{
    let position = text::words::number(line, 0) as usize;
    if positions(body) <= position {
        return false;
    }
    let mut out = [0u8; 256];
    let k = repeat_text::put_position(&mut out, 0, body, order, summaries, position);
    &out[..k] == line
}

// Whether each line agrees, and there is at least one.
fn all_agree<F: FnMut(&[u8]) -> bool>(lines: &[u8], mut agrees: F) -> bool
    requires { F.IsAlwaysCallable agrees }
{
    for line in lines.split_inclusive(|b| *b == b'\n') {
        if !agrees(line) {
            return false;
        }
    }
    !lines.is_empty()
}

// All that the program prints: the first line, then the others. It fits into a large buffer: what did not would stand on standard output.
fn text_agrees<R: Print>(
    rt: &R,
    image: &[u8],
    repeats: u32,
    first: &[u8],
    others: &[u8],
) -> io::Result<bool> {
    let mut out = [0u8; files::LARGE_BUFFER];
    let k = repeat_text::plan_text(
        image,
        repeats,
        rules::POLICY_2008,
        &mut out,
        &mut io::writer(rt),
    )?;
    let Some(rest) = out[..k].strip_prefix(first) else {
        return Ok(false);
    };
    Ok(rest == others)
}

// ---- the coast bounds

// Position, level, length and bound.
fn bound_agrees(line: &[u8], body: Body, summaries: &[u32], worst: &[u32]) -> bool {
    let position = text::words::number(line, 0);
    let level = text::words::number(line, 1);
    let length = text::words::number(line, 2);
    let answer = repeat_limits::bound(
        body,
        summaries,
        worst,
        position as usize,
        level as usize,
        length as usize,
    );
    let Ok(bound) = answer else {
        return false;
    };
    let mut out = [0u8; 64];
    let second = put_field(&mut out, 0, position, b' ');
    let third = put_field(&mut out, second, level, b' ');
    let fourth = put_field(&mut out, third, length, b' ');
    let newline = text::put_signed_long(&mut out, fourth, bound);
    let end = text::put_byte(&mut out, newline, b'\n');
    &out[..end] == line
}

fn bounds_agree<R: Files>(
    rt: &R,
    case: usize,
    body: Body,
    summaries: &[u32],
    worst: &[u32],
) -> io::Result<bool> {
    let mut buffer = [0u8; files::LARGE_BUFFER];
    let lines = read_case(rt, case, b".bounds", &mut buffer)?;
    Ok(all_agree(lines, |line| { bound_agrees(line, body, summaries, worst) }))
}

// ---- a frame run dry

// Room for the positions and the durations of every frame that is listed.
const MOST_STEPS: usize = 256;

// Position, action by its number in the unrolled system, level and decided, a line for each position.
fn put_steps(out: &mut [u8], n: usize, order: &[u8], given: &[u8], marks: &[u8]) -> usize
    requires { (0 < n) × (n ≤ length order.now) × (length given.now ≤ 256) }
    ensures { IsPrefixLen result out.new }
{
    let mut to = 0;
    for (i, (level, mark)) in given.iter().zip(marks).enumerate() {
        let action = (i / n * n) as u32 + u32::from(order[i % n]);
        let level = u32::from(*level);
        let mark = u32::from(*mark);
        to = put_four(&mut *out, to, i as u32, action, level, mark);
    }
    to
}

// Decisions, end, overrun, late.
fn put_end(out: &mut [u8], at: usize, frame: BodyFrame) -> usize
    requires { IsPrefixLen at out.old }
    ensures { IsPrefixLen result out.new }
{
    let second = put_field(&mut *out, at, frame.decisions, b' ');
    let space = text::put_long(&mut *out, second, frame.end);
    let third = text::put_byte(&mut *out, space, b' ');
    let fourth = put_field(&mut *out, third, u32::from(frame.overrun), b' ');
    put_field(&mut *out, fourth, u32::from(frame.late), b'\n')
}

// What the dry run over the durations in these bytes comes to, as the dry-run program would print it; nothing where there is no room for its steps.
fn put_dry(image: &[u8], repeats: u32, bytes: &[u8], out: &mut [u8]) -> usize
    ensures { IsPrefixLen result out.new }
{
    let mut durations = [0u32; 2048];
    let count = recording_bytes::take_durations(bytes, &mut durations);
    let mut order = [0u8; 64];
    let mut given = [0u8; MOST_STEPS];
    let mut marks = [0u8; MOST_STEPS];
    let framed = repeat_frame::dry_frame(
        image,
        repeats,
        rules::POLICY_2008,
        &durations[..count],
        &mut order,
        &mut given,
        &mut marks,
    );
    let frame = match framed {
        Ok(frame) => frame,
        Err(blame) => return print_lines::put_fault(out, 0, Fault::from(blame)),
    };
    let positions = frame.positions as usize;
    if repeats < 1 || MOST_STEPS < positions {
        return 0;
    }
    let n = positions / repeats as usize;
    if n < 1 || order.len() < n {
        return 0;
    }
    let at = put_steps(
        &mut *out,
        n,
        &order,
        &given[..positions],
        &marks[..positions],
    );
    put_end(out, at, frame)
}

// Where a frame is listed.
fn dry_agrees<R: Files>(rt: &R, case: usize, image: &[u8], repeats: u32) -> io::Result<bool> {
    let mut text = [0u8; files::LARGE_BUFFER];
    let want = read_case(rt, case, b".dry", &mut text)?;
    if want.is_empty() {
        return Ok(true);
    }
    let mut buffer = [0u8; files::LARGE_BUFFER];
    let bytes = read_case(rt, case, b".durations", &mut buffer)?;
    let mut out = [0u8; files::LARGE_BUFFER];
    let end = put_dry(image, repeats, bytes, &mut out);
    Ok(&out[..end] == want)
}

// ---- a case

// An accepted body: the whole text where all positions are listed, and each line and bound that is.
fn listed_agrees<R: Files + Print>(
    rt: &R,
    case: usize,
    image: &[u8],
    first: &[u8],
    others: &[u8],
    body: Body,
    order: &[u8],
    summaries: &[u32],
    worst: &[u32],
) -> io::Result<bool>
    requires { Lent body order.now summaries.now }
{
    if positions(body) <= MOST_LISTED {
        if !text_agrees(rt, image, body.repeats, first, others)? {
            return Ok(false);
        }
    }
    let lines = all_agree(others, |line| line_agrees(line, body, order, summaries));
    Ok(lines & bounds_agree(rt, case, body, summaries, worst)?)
}

fn plan_agrees<R: Files + Print>(
    rt: &R,
    case: usize,
    image: &[u8],
    repeats: u32,
    first: &[u8],
    others: &[u8],
) -> io::Result<bool> {
    let mut order = [0u8; 64];
    let mut summaries = [0u32; 2048];
    let mut worst = [0u32; 512];
    let mut out = [0u8; files::BUFFER];
    let begun = repeat_text::begin(
        image,
        repeats,
        rules::POLICY_2008,
        &mut order,
        &mut summaries,
        &mut worst,
        &mut out,
    );
    let at = begun.at;
    if &out[..at] != first {
        return Ok(false);
    }
    let planned = begun.planned;
    let refusal = planned.refusal;
    if refusal.number != 0 {
        return Ok(first == others);
    }
    listed_agrees(
        rt,
        case,
        image,
        first,
        others,
        planned.body,
        &order,
        &summaries,
        &worst,
    )
}

fn agrees<R: Files + Print>(rt: &R, case: usize) -> io::Result<bool> {
    let mut image = [0u8; files::BUFFER];
    let image = read_case(rt, case, b".body", &mut image)?;
    let mut word = [0u8; 16];
    let repeats = text::words::number(read_case(rt, case, b".repeats", &mut word)?, 0);
    let mut first = [0u8; 64];
    let first = read_case(rt, case, b".first", &mut first)?;
    let mut others = [0u8; files::LARGE_BUFFER];
    let others = read_case(rt, case, b".limits", &mut others)?;
    Ok(
        plan_agrees(rt, case, image, repeats, first, others)?
            & dry_agrees(rt, case, image, repeats)?,
    )
}

fn main(rt: HostRuntime) -> io::Result<()> {
    let mut bodies = Tally::new();
    for case in 0..CASES {
        bodies.tell(&rt, agrees(&rt, case)?, b"body", case)?;
    }
    bodies.sum_up(&rt, b" bodies")
}
