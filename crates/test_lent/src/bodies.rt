// The same of a body repeated: Three, in a cycle of 40, which two repeats fit. A case is a line of bodies.txt: `start`, n, how often, and the year, 2008 where there is none; `ask`, and
// how much of the order is lent; `report`, the clock, and how much of the worst times is lent.
use crate::{end_line, say, say_given, through};
use nyokazerubi::runs::Given;
use repeat_run::BodyRun;
use rules::Body;
use std::io;
use test_kit::part;
use text::words;

pub fn tell_all<R: Print>(rt: &R, text: &[u8]) -> io::Result<()> {
    let image = test_kit::samples::three();
    let mut order = [0u8; 3];
    let mut summaries = [0u32; 24];
    let mut worst = [0u32; 6];
    let _ = repeat_planner::plan(
        &image,
        1,
        rules::POLICY_2008,
        &mut order,
        &mut summaries,
        &mut worst,
    );
    tell_each(rt, text, order, &summaries, worst)
}

fn tell_each<R: Print>(
    rt: &R,
    text: &[u8],
    order: [u8; 3],
    summaries: &[u32],
    worst: [u32; 6],
) -> io::Result<()> {
    let mut run = BodyRun::start(of_three(0, 0, rules::POLICY_2008)).run;
    for line in text.split(|b| *b == b'\n') {
        run = tell(rt, run, line, order, summaries, worst)?;
    }
    Ok(())
}

fn of_three(n: u32, repeats: u32, policy: u32) -> Body {
    Body {
        n,
        levels: 2,
        cycle: 40,
        repeats,
        policy,
    }
}

fn tell<R: Print>(
    rt: &R,
    run: BodyRun,
    line: &[u8],
    order: [u8; 3],
    summaries: &[u32],
    worst: [u32; 6],
) -> io::Result<BodyRun> {
    if line.is_empty() {
        return Ok(run);
    }
    let a = words::number(line, 1);
    let b = words::number(line, 2);
    rt.write_all(line)?;
    rt.write_all(b":")?;
    match line {
        [b's', ..] => start(
            rt,
            run,
            of_three(a, b, test_kit::year(words::number(line, 3))),
        ),
        [b'a', ..] => ask(rt, run, a, order, summaries, &worst),
        _ => report(rt, run, a, b, worst),
    }
}

// ---- each call over the lent record and by value

fn start<R: Print>(rt: &R, run: BodyRun, body: Body) -> io::Result<BodyRun> {
    let numbers = [body.n, body.levels, body.cycle, body.repeats, body.policy];
    let lent = through::body_started(run, &numbers);
    let value = BodyRun::start(body);
    say(rt, lent.refusal.number)?;
    tell_record(rt, lent.refusal == value.refusal, lent.run, value.run)?;
    Ok(lent.run)
}

fn ask<R: Print>(
    rt: &R,
    run: BodyRun,
    much: u32,
    order: [u8; 3],
    summaries: &[u32],
    worst: &[u32],
) -> io::Result<BodyRun> {
    let order = &order[..part(much, 3)];
    let lent = through::body_asked(run, order, summaries, worst);
    let value = run.ask(order, summaries, worst);
    let answer = value.answer;
    let alike = say_given(rt, lent.given, Given::from(answer))?;
    tell_record(rt, alike, lent.run, value.run)?;
    Ok(lent.run)
}

fn report<R: Print>(
    rt: &R,
    run: BodyRun,
    clock: u32,
    much: u32,
    worst: [u32; 6],
) -> io::Result<BodyRun> {
    let worst = &worst[..part(much, 6)];
    let lent = through::body_reported(run, clock, worst);
    let value = run.report(clock, worst);
    say(rt, lent.refusal.number)?;
    tell_record(rt, lent.refusal == value.refusal, lent.run, value.run)?;
    Ok(lent.run)
}

// ---- what is printed

fn tell_record<R: Print>(rt: &R, alike: bool, lent: BodyRun, value: BodyRun) -> io::Result<()> {
    end_line(
        rt,
        alike && lent == value,
        lent.position,
        lent.clock,
        lent.running,
        lent.decisions,
    )
}
