// The dry run of a whole cycle over given durations: deciding and coasting call each other until no action remains.
ghost use Rattle.std.specs.Prelude.{◌≡◌, [], ◌+◌, ◌≤◌, ◌<◌, leb, length, get_or};
ghost use Rattle.rules.specs.Numbers.{longest_time};
ghost use Rattle.rules.specs.Words.{all_pass};
ghost use Rattle.rules.specs.Reasons.{number};
ghost use Rattle.rules.specs.Refusals.{First};
ghost use Rattle.rules.specs.Run.{ended};
ghost use Rattle.rules.specs.Dry.{cell, dry_call};
ghost use Rattle.run.specs.Calls.{run_of};
ghost use Rattle.run.specs.Dry.{dry_rooms, dried, Dries};
ghost use Rattle.run.specs.Cycle.{Waiting, Running, Rest};

use crate::Run;
use rules::{Reason, Refusal};

// What a cycle run dry comes to: the decisions made, the clock at the end, and the two marks.
#[derive(Clone, Copy)]
pub struct Dry {
    pub decisions: u32,
    pub end: u32,
    pub overrun: bool,
    pub late: bool,
}

// The same laid flat for C, behind the refusal. With one these are 0 or no.
#[repr(C)]
#[derive(Clone, Copy)]
pub struct Dried {
    pub refusal: Refusal,
    pub decisions: u32,
    pub end: u32,
    pub overrun: bool,
    pub late: bool,
}

impl From<Result<Dry, Reason>> for Dried {
    ghost from_gives = { λ outcome flat. flat ≡ dried outcome };

    fn from(outcome: Result<Dry, Reason>) -> Self {
        match outcome {
            Ok(dry) => Dried {
                refusal: Refusal { number: 0 },
                decisions: dry.decisions,
                end: dry.end,
                overrun: dry.overrun,
                late: dry.late,
            },
            Err(reason) => Dried {
                refusal: Refusal::from(reason),
                decisions: 0,
                end: 0,
                overrun: false,
                late: false,
            },
        }
    }
}

// The running action takes its duration at its level, and ends.
fn passed(run: Run, worst: &[u32], durations: &[u32]) -> Run
    requires { Running (record { order = []; limits = []; worst = worst.now; bounds = [] }) durations.now (run_of run) }
    ensures { run_of result ≡ ended (cell worst.now run.levels run.position run.level)
        (run.clock + cell durations.now run.levels run.position run.level) (run_of run) }
{
    let at = (run.position * run.levels + run.level) as usize;
    run.ended(worst[at], run.clock + durations[at])
}

// Decisions, each for the action at the position reached, up to one that leaves something to coast or no action. It leads into a coast.
#[cycle(coast_decide)]
fn decide(
    limits: &[i32],
    worst: &[u32],
    bounds: &[i32],
    durations: &[u32],
    given: &mut [u8],
    marks: &mut [u8],
    run: Run,
) -> Run
    requires waiting { Waiting (record { order = []; limits = limits.now; worst = worst.now; bounds = bounds.now }) durations.now
        (record { levels = given.old; decided = marks.old }) (run_of run) }
    requires left_value { (run.left ≡ 0) × (run.position < run.n) }
    ensures { Rest (record { order = []; limits = limits.now; worst = worst.now; bounds = bounds.now })
        durations.now (record { levels = given.old; decided = marks.old })
        (record { levels = given.new; decided = marks.new }) (run_of run) (run_of result) }
{
    let mut next = run;
    loop {
        let at = next.position as usize;
        let asked = next.decided(limits, bounds).run;
        given[at] = asked.level as u8;
        marks[at] = 1;
        next = passed(asked, worst, durations);
        if 0 < next.left {
            break;
        }
        if next.position == next.n {
            break;
        }
    }
    coast(
        limits,
        worst,
        bounds,
        durations,
        &mut *given,
        &mut *marks,
        next,
    )
}

// The actions of a coast, which leads back into a decision until no action remains.
#[cycle(coast_decide)]
fn coast(
    limits: &[i32],
    worst: &[u32],
    bounds: &[i32],
    durations: &[u32],
    given: &mut [u8],
    marks: &mut [u8],
    run: Run,
) -> Run
    requires { Waiting (record { order = []; limits = limits.now; worst = worst.now; bounds = bounds.now }) durations.now
        (record { levels = given.old; decided = marks.old }) (run_of run) }
    ensures { Rest (record { order = []; limits = limits.now; worst = worst.now; bounds = bounds.now })
        durations.now (record { levels = given.old; decided = marks.old })
        (record { levels = given.new; decided = marks.new }) (run_of run) (run_of result) }
{
    let mut next = run;
    while 0 < next.left {
        let at = next.position as usize;
        given[at] = next.level as u8;
        marks[at] = 0;
        next = passed(next.coasted(), worst, durations);
    }
    if next.position < next.n {
        return decide(
            limits,
            worst,
            bounds,
            durations,
            &mut *given,
            &mut *marks,
            next,
        );
    }
    next
}

// Whether each of the first `cells` durations is at most 16,777,215, used or not: whether their bits together are, so that no test stands in
// the loop.
pub fn all_short(durations: &[u32], cells: usize) -> bool
    requires { cells ≤ length durations.now }
    ensures { result ≡ all_pass (λ k. leb (get_or durations.now k 0) longest_time) cells }
{
    let mut all = 0;
    for duration in &durations[..cells] {
        all |= *duration;
    }
    all <= rules::LONGEST_TIME
}

// Counts 3, room 17, an entry too long 16.
fn dry_refusal(
    n: usize,
    levels: usize,
    limits: &[i32],
    worst: &[u32],
    bounds: &[i32],
    durations: &[u32],
    given: &[u8],
    marks: &[u8],
) -> Result<(), Reason>
    ensures { First (dry_call n levels durations.now (dry_rooms n levels
        (record { order = []; limits = limits.now; worst = worst.now; bounds = bounds.now })
        durations.now (record { levels = given.now; decided = marks.now }))) (number result) }
{
    if !crate::counts_fit(n, levels) {
        return Err(Reason::Count);
    }
    let cells = n * levels;
    if (limits.len() < cells)
        | (worst.len() < cells)
        | (bounds.len() < cells * rules::LONGEST_COAST)
        | (durations.len() < cells)
        | (given.len() < n)
        | (marks.len() < n)
    {
        return Err(Reason::Room);
    }
    if all_short(durations, cells) {
        return Ok(());
    }
    Err(Reason::Duration)
}

// The dry run: a level and a decided mark for each position, and decisions, end, overrun and late. A refusal leaves both slices untouched.
pub fn dry_run(
    n: usize,
    levels: usize,
    limits: &[i32],
    worst: &[u32],
    bounds: &[i32],
    durations: &[u32],
    given: &mut [u8],
    marks: &mut [u8],
) -> Result<Dry, Reason>
    ensures { Dries n levels (record { order = []; limits = limits.now; worst = worst.now; bounds = bounds.now })
        durations.now (record { levels = given.old; decided = marks.old })
        (record { levels = given.new; decided = marks.new }) (dried result) }
{
    dry_refusal(n, levels, limits, worst, bounds, durations, given, marks)?;
    let run = crate::begun(n as u32, levels as u32);
    let last = decide(limits, worst, bounds, durations, given, marks, run);
    Ok(Dry {
        decisions: last.decisions,
        end: last.clock,
        overrun: last.overrun,
        late: last.late,
    })
}
