// A body repeated, for a host: its plan, a limit or a coast bound at a time, its run over the record where the
// host keeps it, and a frame run dry.
ghost use Rattle.std.specs.Prelude.{◌≡◌, []};
ghost use Rattle.rules.specs.Repeat.{body_start, body_ask, body_report};
ghost use Rattle.repeat_planner.specs.PlanningBody.{PlansBody};
ghost use Rattle.repeat_limits.specs.Limits.{LimitAnswers, BoundAnswers};
ghost use Rattle.repeat_run.specs.Calls.{steps_of, begins_of};
ghost use Rattle.repeat_frame.specs.BodyFrame.{BodyFrames};
ghost use Rattle.nyokazerubi.specs.Flat.{body_lent, next_flat, Asks, asked_left};

use crate::runs::Given;
use repeat_frame::BodyFramed;
use repeat_limits::Limited;
use repeat_planner::BodyPlanned;
use repeat_run::{BodyBegins, BodyRun};
use rules::{Body, Refusal};

// ---- a body as a host lends it: its numbers, one after another

pub const BODY_NUMBERS: usize = 5;

fn body_lent(numbers: &[u32; BODY_NUMBERS]) -> Body
    ensures { result ≡ body_lent numbers.now }
{
    let [n, levels, cycle, repeats, policy] = *numbers;
    Body {
        n,
        levels,
        cycle,
        repeats,
        policy,
    }
}

// ---- the plan, and what it comes to

pub fn nyokazerubi_plan_body(
    image: &[u8],
    repeats: u32,
    policy: u32,
    order: &mut [u8],
    summaries: &mut [u32],
    worst_by_position: &mut [u32],
) -> BodyPlanned
    ensures { PlansBody image.now repeats policy
        (record { order = order.old; summaries = summaries.old; worst = worst_by_position.old })
        (record { order = order.new; summaries = summaries.new; worst = worst_by_position.new }) result }
{
    let planned = repeat_planner::plan(image, repeats, policy, order, summaries, worst_by_position);
    BodyPlanned::from(planned)
}

pub fn nyokazerubi_body_limit(
    body: &[u32; BODY_NUMBERS],
    summaries: &[u32],
    position: usize,
    level: usize,
) -> Limited
    ensures { LimitAnswers (body_lent body.now) summaries.now position level result }
{
    let lent = body_lent(body);
    Limited::from(repeat_limits::limit(lent, summaries, position, level))
}

pub fn nyokazerubi_body_bound(
    body: &[u32; BODY_NUMBERS],
    summaries: &[u32],
    worst_by_position: &[u32],
    position: usize,
    level: usize,
    length: usize,
) -> Limited
    ensures { BoundAnswers (body_lent body.now)
        (record { order = []; summaries = summaries.now; worst = worst_by_position.now }) position level length result }
{
    let lent = body_lent(body);
    Limited::from(repeat_limits::bound(lent, summaries, worst_by_position, position, level, length))
}

// ---- starting and asking by value, the answer of an asking laid flat

pub fn begins(body: &[u32; BODY_NUMBERS]) -> BodyBegins
    ensures { begins_of result ≡ body_start (body_lent body.now) }
{
    let lent = body_lent(body);
    BodyRun::begins(lent)
}

// The next record is `made` where a decision was made, `gone` where it coasts, else `run`: apart, so that the lent record takes what changes and no
// more.
#[derive(Clone, Copy)]
pub struct Asked {
    pub run: BodyRun,
    pub given: Given,
    pub gone: BodyRun,
    pub coasts: bool,
    pub made: BodyRun,
    pub decided: bool,
}

pub fn ask_flat(run: BodyRun, order: &[u8], summaries: &[u32], worst: &[u32]) -> Asked
    ensures body { (asked_left result).body ≡ run.body }
    ensures answer { Asks (body_ask run.body
        (record { order = order.now; summaries = summaries.now; worst = worst.now }) (steps_of run))
        (steps_of (asked_left result)) result.given }
{
    let asked = run.asks(order, summaries, worst);
    let next = asked.run;
    let answer = asked.answer;
    let gone = asked.gone;
    let made = asked.made;
    Asked {
        run: next,
        given: Given::from(answer),
        gone,
        coasts: asked.coasts,
        made,
        decided: asked.decided,
    }
}

// ---- over the lent record, which takes the next one whole; only a start sets its body

pub fn nyokazerubi_body_start(run: &mut BodyRun, body: &[u32; BODY_NUMBERS]) -> Refusal
    ensures { (run.new.body, next_flat (steps_of run.new) result) ≡ body_start (body_lent body.now) }
{
    let out = begins(body);
    *run = out.run;
    if out.begins {
        *run = out.begun;
    }
    out.refusal
}

pub fn nyokazerubi_body_ask(
    run: &mut BodyRun,
    order: &[u8],
    summaries: &[u32],
    worst_by_position: &[u32],
) -> Given
    ensures body { run.new.body ≡ run.old.body }
    ensures answer { Asks (body_ask run.old.body
        (record { order = order.now; summaries = summaries.now; worst = worst_by_position.now })
        (steps_of run.old)) (steps_of run.new) result }
{
    let out = ask_flat(*run, order, summaries, worst_by_position);
    *run = out.run;
    if out.coasts {
        *run = out.gone;
    }
    if out.decided {
        *run = out.made;
    }
    out.given
}

pub fn nyokazerubi_body_report(run: &mut BodyRun, clock: u32, worst_by_position: &[u32]) -> Refusal
    ensures body { run.new.body ≡ run.old.body }
    ensures answer { next_flat (steps_of run.new) result
        ≡ body_report run.old.body worst_by_position.now clock (steps_of run.old) }
{
    let out = BodyRun::ends(*run, clock, worst_by_position);
    *run = out.run;
    if out.over {
        *run = out.cut;
    }
    out.refusal
}

// ---- a frame run dry, from an image

pub fn nyokazerubi_body_dry_frame(
    image: &[u8],
    repeats: u32,
    policy: u32,
    durations: &[u32],
    order: &mut [u8],
    given: &mut [u8],
    marks: &mut [u8],
) -> BodyFramed
    ensures { BodyFrames image.now repeats policy durations.now
        (record { order = order.old; levels = given.old; decided = marks.old })
        (record { order = order.new; levels = given.new; decided = marks.new }) result }
{
    let framed = repeat_frame::dry_frame(image, repeats, policy, durations, order, given, marks);
    BodyFramed::from(framed)
}
