// The calls on a run record at their edges: starts, records at each edge of each field, tables of odd lengths, calls out of turn, and clocks. A case
// is told again with the numbers that the calls answer: 0 for none, 99 for a refusal that changed the record.
#![tactic(auto)]

use run::{Answer, Asked, Reported, Run};
use std::io;
use test_kit::{part, say, say_number};

// A case begins with the letter of its call; what begins with none is a heading.
pub fn tell<R: Print>(rt: &R, line: &[u8]) -> io::Result<()> {
    let row = test_kit::numbers(line);
    rt.write_all(line)?;
    match line {
        [b's', ..] => tell_start(rt, row)?,
        [b'e', ..] => tell_edge(rt, record(row))?,
        [b'a', ..] => tell_ask(rt, row)?,
        [b'r', ..] => tell_report(rt, row)?,
        [b't', ..] => tell_turns(rt, line)?,
        _ => {}
    }
    rt.write_all(b"\n")
}

// n, levels, position, clock, level, left, decisions, overrun, late and running, as a case has them.
fn record(row: [u32; 24]) -> Run {
    Run {
        n: row[0],
        levels: row[1],
        position: row[2],
        clock: row[3],
        level: row[4],
        left: row[5],
        decisions: row[6],
        running: row[9] == 1,
        overrun: row[7] == 1,
        late: row[8] == 1,
    }
}

fn running(run: Run) -> Run {
    Run {
        running: true,
        ..run
    }
}

// ---- the calls, with that much of tables whose limits and bounds are 0 and whose worst times are 10

fn ask(run: Run, order: u32, limits: u32, bounds: u32) -> Asked {
    let actions = [0u8; 64];
    let zeros = [0i32; 512];
    let more_zeros = [0i32; 8192];
    run.ask(
        &actions[..part(order, 64)],
        &zeros[..part(limits, 512)],
        &more_zeros[..part(bounds, 8192)],
    )
}

fn report(run: Run, clock: u32, worst: u32) -> Reported {
    let tens = [10u32; 512];
    run.report(clock, &tens[..part(worst, 512)])
}

// ---- their numbers

fn kept(number: u32, before: Run, after: Run) -> u32 {
    if number == 0 {
        return 0;
    }
    if before == after { number } else { 99 }
}

fn ask_number(run: Run, asked: Asked) -> u32 {
    match asked.answer {
        Answer::Refused(refusal) => kept(refusal.number, run, asked.run),
        Answer::Given { .. } => 0,
    }
}

fn asked<R: Print>(rt: &R, run: Run, order: u32, limits: u32, bounds: u32) -> io::Result<Run> {
    let asked = ask(run, order, limits, bounds);
    say_number(rt, b": ask ", ask_number(run, asked))?;
    Ok(asked.run)
}

fn reported<R: Print>(rt: &R, run: Run, clock: u32, worst: u32) -> io::Result<Run> {
    let reported = report(run, clock, worst);
    let next = reported.run;
    say_number(rt, b": report ", kept(reported.refusal.number, run, next))?;
    Ok(next)
}

// ---- cases

fn tell_start<R: Print>(rt: &R, row: [u32; 24]) -> io::Result<()> {
    let started = Run::start(test_kit::count(row[0]), test_kit::count(row[1]));
    let run = started.run;
    say_number(rt, b": start ", started.refusal.number)?;
    say_record(rt, run)?;
    tell_calls(rt, run, run)
}

// What asking answers on one record, and a report at its clock on another.
fn tell_calls<R: Print>(rt: &R, waits: Run, runs: Run) -> io::Result<()> {
    asked(rt, waits, 64, 512, 8192)?;
    reported(rt, runs, runs.clock, 512)?;
    Ok(())
}

fn tell_edge<R: Print>(rt: &R, run: Run) -> io::Result<()> {
    tell_calls(rt, run, running(run))
}

fn tell_ask<R: Print>(rt: &R, row: [u32; 24]) -> io::Result<()> {
    asked(rt, record(row), row[11], row[13], row[15])?;
    Ok(())
}

fn tell_report<R: Print>(rt: &R, row: [u32; 24]) -> io::Result<()> {
    say_record(rt, reported(rt, record(row), row[11], row[13])?)
}

fn say_record<R: Print>(rt: &R, run: Run) -> io::Result<()> {
    say(
        rt,
        b" with _ _ _ _ _ _ _ _ _ _",
        &[
            run.n,
            run.levels,
            run.position,
            run.clock,
            run.level,
            run.left,
            run.decisions,
            u32::from(run.overrun),
            u32::from(run.late),
            u32::from(run.running),
        ],
    )
}

// ---- turns

fn tell_turns<R: Print>(rt: &R, line: &[u8]) -> io::Result<()> {
    let mut run = Run::start(3, 2).run;
    let calls = text::words::word(line, 1);
    for call in &line[calls..] {
        run = turn(rt, run, *call)?;
    }
    Ok(())
}

// A line on a call: the position and whether an action runs, then what it answers.
fn turn<R: Print>(rt: &R, run: Run, call: u8) -> io::Result<Run> {
    say(
        rt,
        b"\n position _, running _",
        &[run.position, u32::from(run.running)],
    )?;
    if call == b'a' {
        return asked(rt, run, 3, 6, 96);
    }
    reported(rt, run, run.clock, 6)
}
