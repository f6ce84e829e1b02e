// A body repeated at its edges: planned over tables of odd lengths, and limits and coast bounds of any body over summaries that planning wrote. A
// case is told again with what came of it.
#![tactic(auto)]

use rules::{Blame, Body, Reason};
use std::io;
use test_kit::{count, part, say, say_refusal};

// What begins with `limit` or `bound` asks for one; any other case begins with the name of its profile, and is planned.
pub fn tell<R: Print>(rt: &R, line: &[u8]) -> io::Result<()> {
    rt.write_all(line)?;
    match line {
        [b'#', ..] => {}
        [b'l', ..] => tell_limit(rt, test_kit::numbers(line))?,
        [b'b', ..] => tell_bound(rt, test_kit::numbers(line))?,
        [b'D', ..] => tell_due(rt, test_kit::numbers(line))?,
        _ => tell_plan(rt, line)?,
    }
    rt.write_all(b"\n")
}

// ---- planned

// A profile, N, how much there is of order, summaries and worst times, and the year.
fn tell_plan<R: Print>(rt: &R, line: &[u8]) -> io::Result<()> {
    let mut buffer = [0u8; 78];
    let image = test_kit::sample(line, &mut buffer);
    let row = test_kit::numbers(line);
    plan(rt, image, row, test_kit::year(row[4]))
}

// Due: Three, but action 1 has a deadline of its own. It is the last number of the case, up to 63.
fn tell_due<R: Print>(rt: &R, row: [u32; 24]) -> io::Result<()> {
    let mut image = test_kit::samples::three();
    image[41] = (row[4] % 64 * 4) as u8;
    plan(rt, &image, row, rules::POLICY_2008)
}

// Each table is one longer than Three needs, and full of nines.
fn plan<R: Print>(rt: &R, image: &[u8], row: [u32; 24], policy: u32) -> io::Result<()> {
    let mut order = [9u8; 4];
    let mut summaries = [9u32; 25];
    let mut worst = [9u32; 7];
    let planned = repeat_planner::plan(
        image,
        row[0],
        policy,
        &mut order[..part(row[1], 4)],
        &mut summaries[..part(row[2], 25)],
        &mut worst[..part(row[3], 7)],
    );
    say_planned(rt, planned)?;
    say_tables(rt, &order, &summaries, &worst)
}

fn say_tables<R: Print>(
    rt: &R,
    order: &[u8; 4],
    summaries: &[u32; 25],
    worst: &[u32; 7],
) -> io::Result<()> {
    say(rt, b", order _ _ _ _", &order.map(|b| u32::from(b)))?;
    say(
        rt,
        b", summaries _ _ _ _ _ _ _ _ _ _ _ _ _ _ _ _ _ _ _ _ _ _ _ _ _",
        summaries,
    )?;
    say(rt, b", worst _ _ _ _ _ _ _", worst)
}

// With a refusal all of the body is said as 0.
fn say_planned<R: Print>(rt: &R, planned: Result<Body, Blame>) -> io::Result<()> {
    say_refusal(rt, b": refusal ", &planned)?;
    let body = planned.unwrap_or(NO_BODY);
    say(
        rt,
        b", n _, levels _, cycle _, repeats _, policy _",
        &[body.n, body.levels, body.cycle, body.repeats, body.policy],
    )
}

const NO_BODY: Body = Body {
    n: 0,
    levels: 0,
    cycle: 0,
    repeats: 0,
    policy: 0,
};

// ---- limits and coast bounds

// The summaries and the worst times of Three by a policy.
fn plan_three(policy: u32, summaries: &mut [u32], worst: &mut [u32]) {
    let image = test_kit::samples::three();
    let mut order = [0u8; 3];
    let _ = repeat_planner::plan(&image, 1, policy, &mut order, summaries, worst);
}

fn body_of(row: [u32; 24], policy: u32) -> Body {
    Body {
        n: row[0],
        levels: row[1],
        cycle: row[2],
        repeats: row[3],
        policy,
    }
}

// n, levels, cycle and N, how much there is of the summaries, position and level, and the year.
fn tell_limit<R: Print>(rt: &R, row: [u32; 24]) -> io::Result<()> {
    let mut summaries = [0u32; 24];
    let mut worst = [0u32; 6];
    let policy = test_kit::year(row[7]);
    plan_three(policy, &mut summaries, &mut worst);
    say_limited(
        rt,
        repeat_limits::limit(
            body_of(row, policy),
            &summaries[..part(row[4], 24)],
            count(row[5]),
            count(row[6]),
        ),
    )
}

// n, levels, cycle and N, how much there is of the summaries and the worst times, position, level and length, and the year.
fn tell_bound<R: Print>(rt: &R, row: [u32; 24]) -> io::Result<()> {
    let mut summaries = [0u32; 24];
    let mut worst = [0u32; 6];
    let policy = test_kit::year(row[9]);
    plan_three(policy, &mut summaries, &mut worst);
    say_limited(
        rt,
        repeat_limits::bound(
            body_of(row, policy),
            &summaries[..part(row[4], 24)],
            &worst[..part(row[5], 6)],
            count(row[6]),
            count(row[7]),
            count(row[8]),
        ),
    )
}

// With a refusal the limit is said as 0.
fn say_limited<R: Print>(rt: &R, limited: Result<i64, Reason>) -> io::Result<()> {
    let (refused, limit) = match limited {
        Ok(limit) => (0, limit),
        Err(reason) => (reason as u32, 0),
    };
    print!(rt; ": refusal {refused}, limit {limit}")
}
