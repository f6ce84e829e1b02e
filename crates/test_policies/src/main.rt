// Outside cases of the policies. NNN.profile is an image, NNN.durations its durations and NNN.policy a year; NNN.plan is what the plan program prints
// with that year as its argument, NNN.dry what the dry-run program prints. They come with the request to keep the 2005 policy beside the 2008 one.
// Last, the durations of some cases as recordings of one frame: what the rehearse program prints with the year of the case.
#![tactic(auto)]

use std::io;
use std::rt::Files;
use test_kit::{Tally, read_case, says};

const CASES: usize = 37;

fn policy<R: Files>(rt: &R, case: usize) -> io::Result<u32> {
    let mut word = [0u8; 16];
    let year = read_case(rt, case, b".policy", &mut word)?;
    Ok(text::words::number(year, 0))
}

fn plan_agrees<R: Files>(rt: &R, case: usize) -> io::Result<bool> {
    let mut buffer = [0u8; files::BUFFER];
    let image = read_case(rt, case, b".profile", &mut buffer)?;
    let mut out = [0u8; files::LARGE_BUFFER];
    let k = print::plan_text(image, policy(rt, case)?, &mut out);
    says(rt, case, b".plan", &out[..k])
}

fn dry_run_agrees<R: Files>(rt: &R, case: usize) -> io::Result<bool> {
    let mut buffer = [0u8; files::BUFFER];
    let image = read_case(rt, case, b".profile", &mut buffer)?;
    let mut bytes = [0u8; files::BUFFER];
    let durations = read_case(rt, case, b".durations", &mut bytes)?;
    let mut out = [0u8; files::LARGE_BUFFER];
    let k = print::dry_text(image, policy(rt, case)?, durations, &mut out);
    says(rt, case, b".dry", &out[..k])
}

fn tell_cases<R: Files + Print>(rt: &R) -> io::Result<()> {
    let mut plans = Tally::new();
    let mut dry_runs = Tally::new();
    for case in 0..CASES {
        plans.tell(rt, plan_agrees(rt, case)?, b"plan", case)?;
        dry_runs.tell(rt, dry_run_agrees(rt, case)?, b"dry run", case)?;
    }
    plans.sum_up(rt, b" plans")?;
    dry_runs.sum_up(rt, b" dry runs")
}

// The frame and the totals, or the refusal, after what the case shows.
fn rehearse<R: Files + Print>(rt: &R, case: usize, what: &[u8]) -> io::Result<()> {
    let mut buffer = [0u8; files::BUFFER];
    let image = read_case(rt, case, b".profile", &mut buffer)?;
    let mut name = [0u8; 32];
    let mut recording = files::open(rt, test_kit::case_name(case, b".durations", &mut name));
    let mut out = [0u8; files::BUFFER];
    let k = rehearsal::rehearse(
        image,
        policy(rt, case)?,
        &mut recording,
        &mut out,
        &mut io::writer(rt),
    )?;
    rt.write_all(what)?;
    rt.write_all(&out[..k])
}

fn main(rt: HostRuntime) -> io::Result<()> {
    tell_cases(&rt)?;
    rehearse(&rt, 0, b"levels 1 0 1 0 by 2005:\n")?;
    rehearse(&rt, 3, b"the same frame by 2008, level 0 throughout:\n")?;
    rehearse(&rt, 4, b"levels 1 0 1 by 2005:\n")?;
    rehearse(&rt, 29, b"an overrun by 2005:\n")?;
    rehearse(&rt, 16, b"a duration that is too long, by 2005:\n")?;
    rehearse(&rt, 15, b"no whole frame, by 2005: ")?;
    rehearse(&rt, 12, b"an unknown policy: ")?;
    rehearse(&rt, 13, b"unfit before an unknown policy: ")?;
    rehearse(&rt, 14, b"a table at fault before an unknown policy: ")
}
