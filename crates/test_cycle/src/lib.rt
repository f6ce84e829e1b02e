// Whole cycles, each asked and reported action by action and by the dry run: Three, a long coast with an overrun in it, a late cycle, tables of
// others; then what the dry run refuses. A case is told again with what came of it.
#![tactic(auto)]

use run::{Answer, Run};
use std::io;
use std::rt::Files;
use test_kit::{count, part, say_number};

// What begins with none of these letters is a heading.
pub fn tell<R: Files + Print>(rt: &R, line: &[u8]) -> io::Result<()> {
    rt.write_all(line)?;
    match line {
        [b't', ..] => tell_planned(rt, line)?,
        [b'o', ..] => tell_others(rt, line)?,
        [b'd', ..] => tell_dry(rt, test_kit::numbers(line))?,
        _ => {}
    }
    rt.write_all(b"\n")
}

// ---- cases

// The file of an image, n and levels, and durations by position.
fn tell_planned<R: Files + Print>(rt: &R, line: &[u8]) -> io::Result<()> {
    let name = text::words::find(line, 0, b' ');
    let mut buffer = [0u8; files::BUFFER];
    let image = files::read_file(rt, &line[..name], &mut buffer)?;
    plan_and_tell(rt, image, test_kit::numbers(line))
}

fn plan_and_tell<R: Print>(rt: &R, image: &[u8], row: [u32; 24]) -> io::Result<()> {
    let mut order = [0u8; 64];
    let mut limits = [0i32; 512];
    let mut worst = [0u32; 512];
    let mut bounds = [0i32; 8192];
    let _ = planner::plan(
        image,
        rules::POLICY_2008,
        &mut order,
        &mut limits,
        &mut worst,
        &mut bounds,
    );
    tell_cycle(rt, row[0], row[1], &order, &limits, &worst, &bounds, row)
}

// Tables of others for 5 actions: levels, every bound but one, which one that is and what it is, and the limits.
fn tell_others<R: Print>(rt: &R, line: &[u8]) -> io::Result<()> {
    let row = test_kit::numbers(line);
    let limits = limits_of(line);
    let mut bounds = [signed(line, 2); 160];
    bounds[part(row[2], 159)] = signed(line, 4);
    let order = [4u8, 3, 2, 1, 0];
    let worst = [1u32; 10];
    tell_cycle(rt, 5, row[0], &order, &limits, &worst, &bounds, [1; 24])
}

// A cycle by both ways.
fn tell_cycle<R: Print>(
    rt: &R,
    n: u32,
    levels: u32,
    order: &[u8],
    limits: &[i32],
    worst: &[u32],
    bounds: &[i32],
    row: [u32; 24],
) -> io::Result<()> {
    rt.write_all(b"\n run:")?;
    cycle(rt, n, levels, order, limits, worst, bounds, row)?;
    rt.write_all(b"\n dry:")?;
    let durations = spread(row, levels as usize);
    dried(
        rt,
        n as usize,
        levels as usize,
        limits,
        worst,
        bounds,
        &durations,
        24,
        24,
        n,
    )
}

// n, levels, how much there is of limits, worst times, bounds, durations, levels and marks, and the entry of the durations that is not 1 and
// what it is.
fn tell_dry<R: Print>(rt: &R, row: [u32; 24]) -> io::Result<()> {
    let durations = ones_but(row[8], row[9]);
    rt.write_all(b":")?;
    tell_dry_with(rt, row, &durations[..part(row[5], 7)])
}

fn tell_dry_with<R: Print>(rt: &R, row: [u32; 24], durations: &[u32]) -> io::Result<()> {
    let limits = [100i32; 7];
    let worst = [1u32; 7];
    let bounds = [100i32; 97];
    dried(
        rt,
        count(row[0]),
        count(row[1]),
        &limits[..part(row[2], 7)],
        &worst[..part(row[3], 7)],
        &bounds[..part(row[4], 97)],
        durations,
        row[6],
        row[7],
        4,
    )
}

// ---- tables

// The word of a case as a limit or a bound. Below 0 there is only -1.
fn signed(line: &[u8], k: usize) -> i32 {
    let at = text::words::word(line, k);
    if line[at..].starts_with(b"-") {
        return -1;
    }
    text::words::number(line, k).min(1000) as i32
}

// The limits that stand at the end of a case, from its word 5 on.
fn limits_of(line: &[u8]) -> [i32; 10] {
    std::array::from_fn(|k| signed(line, k + 5))
}

fn ones_but(at: u32, duration: u32) -> [u32; 7] {
    let mut durations = [1u32; 7];
    durations[part(at, 6)] = duration;
    durations
}

// The duration of a position: a case has them after two other numbers.
fn duration(row: [u32; 24], position: usize) -> u32 {
    row[2..].get(position).copied().unwrap_or(0)
}

// The durations of a row, each as often as there are levels.
fn spread(row: [u32; 24], levels: usize) -> [u32; 64] {
    if levels == 0 {
        return [0; 64];
    }
    std::array::from_fn(|k| duration(row, k / levels))
}

// ---- asked and reported

fn cycle<R: Print>(
    rt: &R,
    n: u32,
    levels: u32,
    order: &[u8],
    limits: &[i32],
    worst: &[u32],
    bounds: &[i32],
    row: [u32; 24],
) -> io::Result<()> {
    let mut run = Run::start(n as usize, levels as usize).run;
    for k in 0..n {
        run = step(
            rt,
            run,
            order,
            limits,
            worst,
            bounds,
            duration(row, k as usize),
        )?;
    }
    say_end(rt, run.decisions, run.clock, run.overrun, run.late)
}

// An action asked for, and reported when its duration has passed.
fn step<R: Print>(
    rt: &R,
    run: Run,
    order: &[u8],
    limits: &[i32],
    worst: &[u32],
    bounds: &[i32],
    duration: u32,
) -> io::Result<Run> {
    let asked = run.ask(order, limits, bounds);
    let answer = asked.answer;
    let next = asked.run;
    say_answer(rt, answer, next.left)?;
    ended(rt, next, worst, duration)
}

fn say_answer<R: Print>(rt: &R, answer: Answer, left: u32) -> io::Result<()> {
    match answer {
        Answer::Refused(refusal) => say_number(rt, b" refused ", refusal.number)?,
        Answer::Given {
            action,
            level,
            decided,
            late,
        } => {
            test_kit::say(rt, b" _:_", &[action, level])?;
            if decided {
                say_decided(rt, left)?;
            }
            say_if(rt, late, b"l")?;
        }
    }
    Ok(())
}

fn say_decided<R: Print>(rt: &R, left: u32) -> io::Result<()> {
    rt.write_all(b"d")?;
    if 0 < left {
        say_number(rt, b"+", left)?;
    }
    Ok(())
}

fn say_if<R: Print>(rt: &R, yes: bool, words: &[u8]) -> io::Result<()> {
    if yes {
        rt.write_all(words)?;
    }
    Ok(())
}

// The end reported, and what that did to the record.
fn ended<R: Print>(rt: &R, run: Run, worst: &[u32], duration: u32) -> io::Result<Run> {
    let end = run.clock.wrapping_add(duration);
    let reported = run.report(end, worst);
    let next = reported.run;
    if reported.refusal.number != 0 {
        say_number(rt, b" refused ", reported.refusal.number)?;
    }
    say_if(rt, next.overrun & !run.overrun, b"!")?;
    say_if(rt, next.left < run.left, b"x")?;
    Ok(next)
}

fn say_end<R: Print>(
    rt: &R,
    decisions: u32,
    end: u32,
    overrun: bool,
    late: bool,
) -> io::Result<()> {
    test_kit::say(
        rt,
        b", decisions _, end _, overrun _, late _",
        &[decisions, end, u32::from(overrun), u32::from(late)],
    )
}

// ---- by the dry run

// The answer, and as many of the levels and marks as are shown, with that much room for each.
fn dried<R: Print>(
    rt: &R,
    n: usize,
    levels: usize,
    limits: &[i32],
    worst: &[u32],
    bounds: &[i32],
    durations: &[u32],
    level_room: u32,
    mark_room: u32,
    shown: u32,
) -> io::Result<()> {
    let mut given = [9u8; 24];
    let mut marks = [9u8; 24];
    let answer = run::dry::Dried::from(run::dry::dry_run(
        n,
        levels,
        limits,
        worst,
        bounds,
        durations,
        &mut given[..part(level_room, 24)],
        &mut marks[..part(mark_room, 24)],
    ));
    say_number(rt, b" refusal ", answer.refusal.number)?;
    say_bytes(rt, b", levels", given, shown)?;
    say_bytes(rt, b", marks", marks, shown)?;
    say_end(
        rt,
        answer.decisions,
        answer.end,
        answer.overrun,
        answer.late,
    )
}

fn say_bytes<R: Print>(rt: &R, words: &[u8], row: [u8; 24], shown: u32) -> io::Result<()> {
    rt.write_all(words)?;
    for b in &row[..part(shown, 24)] {
        say_number(rt, b" ", *b)?;
    }
    Ok(())
}
