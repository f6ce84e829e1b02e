// A frame of a body repeated, run dry: the image is planned and the frame run over given durations, in one call. Demands 2 and 3 over the unrolled
// positions are its promise.
#![tactic(auto)]

ghost use Rattle.std.specs.Prelude.{◌≡◌, [], ◌+◌, ◌%◌};
ghost use Rattle.rules.specs.Numbers.{longest_coast};
ghost use Rattle.rules.specs.Reasons.{number};
ghost use Rattle.rules.specs.Refusals.{First};
ghost use Rattle.rules.specs.Run.{given, ended};
ghost use Rattle.rules.specs.Dry.{cell};
ghost use Rattle.rules.specs.Repeat.{lent_plan};
ghost use Rattle.repeat_limits.specs.Limits.{CountsIn};
ghost use Rattle.repeat_run.specs.Calls.{steps_of, MayDecide};
ghost use Rattle.repeat_frame.specs.BodyFrame.{body_framed, BodyFrames};
ghost use Rattle.repeat_frame.specs.Walk.{own_call, MayPass, MayWalk, Walks};

use repeat_decision::choose;
use repeat_limits::spot_of;
use repeat_run::BodyRun;
use rules::{Blame, Body, Fault, Reason};

// What a frame of a body run dry comes to: the decisions made, the clock at the end, which goes on past the latest clock, the number of positions and
// the two marks.
#[derive(Clone, Copy)]
pub struct BodyFrame {
    pub decisions: u32,
    pub end: u64,
    pub positions: u32,
    pub overrun: bool,
    pub late: bool,
}

// The same laid flat for C, behind the refusal. With one these are 0 and no.
#[repr(C)]
#[derive(Clone, Copy)]
pub struct BodyFramed {
    pub refusal: Fault,
    pub decisions: u32,
    pub end: u64,
    pub positions: u32,
    pub overrun: bool,
    pub late: bool,
}

impl From<Result<BodyFrame, Blame>> for BodyFramed {
    ghost from_gives = { λ outcome flat. flat ≡ body_framed outcome };

    fn from(outcome: Result<BodyFrame, Blame>) -> Self {
        match outcome {
            Ok(frame) => BodyFramed {
                refusal: Fault::of(Ok(())),
                decisions: frame.decisions,
                end: frame.end,
                positions: frame.positions,
                overrun: frame.overrun,
                late: frame.late,
            },
            Err(blame) => BodyFramed {
                refusal: Fault::from(blame),
                decisions: 0,
                end: 0,
                positions: 0,
                overrun: false,
                late: false,
            },
        }
    }
}

// The action at the position reached, decided or coasted. The slices of a decision are made ready where it is called, so that a coasted action has no
// part in it.
fn asked(run: BodyRun, summaries: &[u32], worst: &[u32]) -> BodyRun
    requires { MayDecide (record { order = []; summaries = summaries.now; worst = worst.now }) run.body (steps_of run) }
    ensures { (result.body ≡ run.body) × (steps_of result ≡ given longest_coast
        (lent_plan run.body (record { order = []; summaries = summaries.now; worst = worst.now })) (steps_of run)) }
{
    if run.left == 0 {
        let body = run.body;
        let spot = spot_of(body, run.position as usize);
        let made = choose(
            body,
            &summaries[..],
            &worst[..],
            spot.place,
            spot.after,
            run.clock,
        );
        return run.decided(made);
    }
    run.coasted()
}

// The running action takes its duration at its level, and ends.
fn passed(run: BodyRun, worst: &[u32], durations: &[u32]) -> BodyRun
    requires { MayPass run.body worst.now durations.now (steps_of run) }
    ensures { (result.body ≡ run.body)
        × (steps_of result ≡ ended (cell worst.now run.body.levels (run.position % run.body.n) run.level)
        (run.clock + cell durations.now run.body.levels run.position run.level) (steps_of run)) }
{
    let body = run.body;
    let at = (run.position % body.n * body.levels + run.level) as usize;
    let entry = (run.position * body.levels + run.level) as usize;
    run.ended(worst[at], run.clock + durations[entry] as u64)
}

// The whole frame: a level and a decided mark for each position, and the last record.
fn walk(
    body: Body,
    summaries: &[u32],
    worst: &[u32],
    durations: &[u32],
    given: &mut [u8],
    marks: &mut [u8],
) -> BodyRun
    requires { MayWalk body (record { order = []; summaries = summaries.now; worst = worst.now }) durations.now given.old marks.old }
    ensures { Walks body (record { order = []; summaries = summaries.now; worst = worst.now }) durations.now
        (record { order = []; levels = given.old; decided = marks.old })
        (record { order = []; levels = given.new; decided = marks.new }) (steps_of result) }
{
    let mut run = repeat_run::begun(body);
    for at in 0..(body.repeats * body.n) as usize {
        let turn = asked(run, summaries, worst);
        given[at] = turn.level as u8;
        marks[at] = u8::from(run.left == 0);
        run = passed(turn, worst, durations);
    }
    run
}

// Room 17, an entry too long 16.
fn own_refusal(
    body: Body,
    durations: &[u32],
    order: &[u8],
    given: &[u8],
    marks: &[u8],
) -> Result<(), Reason>
    requires { CountsIn body }
    ensures { First (own_call body durations.now
        (record { order = order.now; levels = given.now; decided = marks.now })) (number result) }
{
    let n = body.n as usize;
    let positions = body.repeats as usize * n;
    let cells = positions * body.levels as usize;
    if (durations.len() < cells)
        | (order.len() < n)
        | (given.len() < positions)
        | (marks.len() < positions)
    {
        return Err(Reason::Room);
    }
    if !run::dry::all_short(durations, cells) {
        return Err(Reason::Duration);
    }
    Ok(())
}

// Plans the body by the policy, runs the frame over n N by L durations by unrolled position, and writes the body's order, the levels given and the decided marks.
// A refusal leaves the slices untouched, so the order is kept apart until the durations are judged.
pub fn dry_frame(
    image: &[u8],
    repeats: u32,
    policy: u32,
    durations: &[u32],
    order: &mut [u8],
    given: &mut [u8],
    marks: &mut [u8],
) -> Result<BodyFrame, Blame>
    ensures { BodyFrames image.now repeats policy durations.now
        (record { order = order.old; levels = given.old; decided = marks.old })
        (record { order = order.new; levels = given.new; decided = marks.new }) (body_framed result) }
{
    // room for the greatest body: 64 actions at 8 levels, four numbers each
    let mut actions = [0u8; 64];
    let mut summaries = [0u32; 2048];
    let mut worst = [0u32; 512];
    let body = repeat_planner::plan(
        image,
        repeats,
        policy,
        &mut actions,
        &mut summaries,
        &mut worst,
    )?;
    own_refusal(body, durations, order, given, marks)?;
    let last = walk(body, &summaries, &worst, durations, given, marks);
    fields::copy_front(&actions, body.n as usize, order);
    Ok(BodyFrame {
        decisions: last.decisions,
        end: last.clock,
        positions: body.repeats * body.n,
        overrun: last.overrun,
        late: last.late,
    })
}
