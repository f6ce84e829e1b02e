// Outside cases, by the 2008 policy: NNN.profile is an image, NNN.plan what the plan program prints for it, NNN.durations its durations and NNN.dry
// what the dry-run program prints for both. 000 to 070 come with the rules, the first three of them cases 1 to 3 of its worked values: Three with the
// durations 6, 8, 4, then 0, 8, 8, then 8, 4, 8, each at both levels. Those from 071 on are written by the independent program of host/.
// Last, what the programs print where a file is not there: it is empty, so an image is refused as short and durations are too few.
#![tactic(auto)]

ghost use Rattle.std.specs.Prelude.{◌≤◌, IfOk, length};

use std::io;
use std::rt::Files;
use test_kit::{Tally, read_case, says};

const CASES: usize = 418;

// A number that no file has.
const ABSENT: usize = 999;

// What the plan program prints for a case's profile.
fn plan<'a, R: Files>(rt: &R, case: usize, out: &'a mut [u8]) -> io::Result<&'a [u8]>
    ensures { IfOk result (λ text. length text.now ≤ length out.old) }
{
    let mut buffer = [0u8; files::BUFFER];
    let image = read_case(rt, case, b".profile", &mut buffer)?;
    let k = print::plan_text(image, rules::POLICY_2008, &mut *out);
    Ok(&out[..k])
}

// What the dry-run program prints for the profile of one case and the durations of another.
fn dry_run<'a, R: Files>(
    rt: &R,
    profile: usize,
    durations: usize,
    out: &'a mut [u8],
) -> io::Result<&'a [u8]>
    ensures { IfOk result (λ text. length text.now ≤ length out.old) }
{
    let mut buffer = [0u8; files::BUFFER];
    let image = read_case(rt, profile, b".profile", &mut buffer)?;
    let mut bytes = [0u8; files::BUFFER];
    let durations = read_case(rt, durations, b".durations", &mut bytes)?;
    let k = print::dry_text(image, rules::POLICY_2008, durations, &mut *out);
    Ok(&out[..k])
}

// Whether the plan of a case is what its file says.
fn plan_agrees<R: Files>(rt: &R, case: usize) -> io::Result<bool> {
    let mut out = [0u8; files::LARGE_BUFFER];
    says(rt, case, b".plan", plan(rt, case, &mut out)?)
}

// Whether the dry run of a case is what its file says.
fn dry_run_agrees<R: Files>(rt: &R, case: usize) -> io::Result<bool> {
    let mut out = [0u8; files::LARGE_BUFFER];
    says(rt, case, b".dry", dry_run(rt, case, case, &mut out)?)
}

fn say_absent<R: Files + Print>(rt: &R) -> io::Result<()> {
    let mut out = [0u8; files::LARGE_BUFFER];
    let planned = plan(rt, ABSENT, &mut out)?;
    rt.write_all(b"plan with no profile: ")?;
    rt.write_all(planned)?;
    let refused = dry_run(rt, ABSENT, 0, &mut out)?;
    rt.write_all(b"dry run with no profile: ")?;
    rt.write_all(refused)?;
    let few = dry_run(rt, 0, ABSENT, &mut out)?;
    rt.write_all(b"dry run with no durations: ")?;
    rt.write_all(few)
}

fn main(rt: HostRuntime) -> io::Result<()> {
    let mut plans = Tally::new();
    let mut dry_runs = Tally::new();
    for case in 0..CASES {
        plans.tell(&rt, plan_agrees(&rt, case)?, b"plan", case)?;
        dry_runs.tell(&rt, dry_run_agrees(&rt, case)?, b"dry run", case)?;
    }
    plans.sum_up(&rt, b" plans")?;
    dry_runs.sum_up(&rt, b" dry runs")?;
    say_absent(&rt)
}
