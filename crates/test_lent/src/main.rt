// Runs a cycle of Three (case 1 of the worked values) over a lent record and, beside it, by value, with each refusal of the run on the way. A case
// is a line of cases.txt: `start`, n and levels; `ask`, and how much of the order is lent; `report`, the clock, and how much of the worst times is
// lent. It is told again with the answer, the number of a refusal first, and then the lent record: position, clock, running, decisions. Where the
// two differ it says so instead.
#![tactic(auto)]

use nyokazerubi::runs;
use nyokazerubi::runs::Given;
use run::Run;
use std::io;
use test_kit::{part, say_number};
use text::words;

mod bodies;
mod through;

fn main(rt: HostRuntime) -> io::Result<()> {
    let image = test_kit::samples::three();
    let mut order = [0u8; 3];
    let mut limits = [0i32; 6];
    let mut worst = [0u32; 6];
    let mut bounds = [0i32; 96];
    let _ = planner::plan(
        &image,
        rules::POLICY_2008,
        &mut order,
        &mut limits,
        &mut worst,
        &mut bounds,
    );
    let mut buffer = [0u8; files::LARGE_BUFFER];
    let cases = files::read_file(&rt, b"cases.txt", &mut buffer)?;
    tell_each(&rt, cases, order, &limits, worst, &bounds)?;
    let cases = files::read_file(&rt, b"bodies.txt", &mut buffer)?;
    bodies::tell_all(&rt, cases)
}

fn tell_each<R: Print>(
    rt: &R,
    text: &[u8],
    order: [u8; 3],
    limits: &[i32],
    worst: [u32; 6],
    bounds: &[i32],
) -> io::Result<()> {
    let mut run = Run::start(0, 0).run;
    for line in text.split(|b| *b == b'\n') {
        run = tell(rt, run, line, order, limits, worst, bounds)?;
    }
    Ok(())
}

// A case by the letter that it begins with.
fn tell<R: Print>(
    rt: &R,
    run: Run,
    line: &[u8],
    order: [u8; 3],
    limits: &[i32],
    worst: [u32; 6],
    bounds: &[i32],
) -> io::Result<Run> {
    if line.is_empty() {
        return Ok(run);
    }
    let a = words::number(line, 1);
    let b = words::number(line, 2);
    rt.write_all(line)?;
    rt.write_all(b":")?;
    match line {
        [b's', ..] => start(rt, run, a as usize, b as usize),
        [b'a', ..] => ask(rt, run, a, order, limits, bounds),
        _ => report(rt, run, a, b, worst),
    }
}

// ---- each call over the lent record and by value

fn start<R: Print>(rt: &R, run: Run, n: usize, levels: usize) -> io::Result<Run> {
    let lent = through::started(run, n, levels);
    let value = Run::start(n, levels);
    say(rt, lent.refusal.number)?;
    tell_record(rt, lent.refusal == value.refusal, lent.run, value.run)?;
    Ok(lent.run)
}

fn ask<R: Print>(
    rt: &R,
    run: Run,
    much: u32,
    order: [u8; 3],
    limits: &[i32],
    bounds: &[i32],
) -> io::Result<Run> {
    let order = &order[..part(much, 3)];
    let lent = through::asked(run, order, limits, bounds);
    let value = runs::ask_flat(run, order, limits, bounds);
    let alike = say_given(rt, lent.given, value.given)?;
    tell_record(rt, alike, lent.run, value.run)?;
    Ok(lent.run)
}

fn report<R: Print>(rt: &R, run: Run, clock: u32, much: u32, worst: [u32; 6]) -> io::Result<Run> {
    let worst = &worst[..part(much, 6)];
    let lent = through::reported(run, clock, worst);
    let value = run.report(clock, worst);
    say(rt, lent.refusal.number)?;
    tell_record(rt, lent.refusal == value.refusal, lent.run, value.run)?;
    Ok(lent.run)
}

// ---- what is printed

fn say<R: Print>(rt: &R, x: u32) -> io::Result<()> {
    say_number(rt, b" ", x)
}

// What was given over the lent record; whether it is what was given by value.
fn say_given<R: Print>(rt: &R, a: Given, b: Given) -> io::Result<bool> {
    say(rt, a.refusal.number)?;
    say(rt, a.action)?;
    say(rt, a.level)?;
    say(rt, u32::from(a.decided))?;
    say(rt, u32::from(a.late))?;
    Ok(a == b)
}

// The end of a line: where the lent record stands, if the two answers and the two records are the same.
fn end_line<R: Print>(
    rt: &R,
    alike: bool,
    position: u32,
    clock: u64,
    running: bool,
    decisions: u32,
) -> io::Result<()> {
    if alike {
        let mark = u32::from(running);
        print!(rt; " | {position} {clock} {mark} {decisions}\n")
    } else {
        rt.write_all(b" differs\n")
    }
}

fn tell_record<R: Print>(rt: &R, alike: bool, lent: Run, value: Run) -> io::Result<()> {
    end_line(
        rt,
        alike && lent == value,
        lent.position,
        u64::from(lent.clock),
        lent.running,
        lent.decisions,
    )
}
