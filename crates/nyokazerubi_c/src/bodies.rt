// A body repeated.
ghost use Rattle.std.specs.Prelude.{◌≡◌, []};
ghost use Rattle.rules.specs.Repeat.{body_start, body_ask, body_report};
ghost use Rattle.repeat_planner.specs.PlanningBody.{PlansBody};
ghost use Rattle.repeat_limits.specs.Limits.{LimitAnswers, BoundAnswers};
ghost use Rattle.repeat_run.specs.Calls.{steps_of};
ghost use Rattle.repeat_frame.specs.BodyFrame.{BodyFrames};
ghost use Rattle.nyokazerubi.specs.Flat.{body_lent, next_flat, Asks};

use nyokazerubi::bodies::BODY_NUMBERS;
use nyokazerubi::runs::Given;
use repeat_frame::BodyFramed;
use repeat_limits::Limited;
use repeat_planner::BodyPlanned;
use repeat_run::BodyRun;
use rules::Refusal;

#[unsafe(no_mangle)]
pub extern "C" fn nyokazerubi_plan_body(
    image: &[u8],
    repeats: u32,
    policy: u32,
    order: &mut [u8],
    summaries: &mut [u32],
    worst_by_position: &mut [u32],
) -> BodyPlanned
    ensures { PlansBody image.now repeats policy
        (record { order = order.old; summaries = summaries.old; worst = worst_by_position.old })
        (record { order = order.new; summaries = summaries.new; worst = worst_by_position.new }) result }
{
    nyokazerubi::bodies::nyokazerubi_plan_body(
        image,
        repeats,
        policy,
        order,
        summaries,
        worst_by_position,
    )
}

#[unsafe(no_mangle)]
pub extern "C" fn nyokazerubi_body_limit(
    body: &[u32; BODY_NUMBERS],
    summaries: &[u32],
    position: usize,
    level: usize,
) -> Limited
    ensures { LimitAnswers (body_lent body.now) summaries.now position level result }
{
    nyokazerubi::bodies::nyokazerubi_body_limit(body, summaries, position, level)
}

#[unsafe(no_mangle)]
pub extern "C" fn nyokazerubi_body_bound(
    body: &[u32; BODY_NUMBERS],
    summaries: &[u32],
    worst_by_position: &[u32],
    position: usize,
    level: usize,
    length: usize,
) -> Limited
    ensures { BoundAnswers (body_lent body.now)
        (record { order = []; summaries = summaries.now; worst = worst_by_position.now }) position level length result }
{
    nyokazerubi::bodies::nyokazerubi_body_bound(
        body,
        summaries,
        worst_by_position,
        position,
        level,
        length,
    )
}

#[unsafe(no_mangle)]
pub extern "C" fn nyokazerubi_body_start(run: &mut BodyRun, body: &[u32; BODY_NUMBERS]) -> Refusal
    ensures { (run.new.body, next_flat (steps_of run.new) result) ≡ body_start (body_lent body.now) }
{
    nyokazerubi::bodies::nyokazerubi_body_start(run, body)
}

#[unsafe(no_mangle)]
pub extern "C" fn nyokazerubi_body_ask(
    run: &mut BodyRun,
    order: &[u8],
    summaries: &[u32],
    worst_by_position: &[u32],
) -> Given
    ensures body { run.new.body ≡ run.old.body }
    ensures answer { Asks (body_ask run.old.body
        (record { order = order.now; summaries = summaries.now; worst = worst_by_position.now })
        (steps_of run.old)) (steps_of run.new) result }
{
    nyokazerubi::bodies::nyokazerubi_body_ask(run, order, summaries, worst_by_position)
}

#[unsafe(no_mangle)]
pub extern "C" fn nyokazerubi_body_report(
    run: &mut BodyRun,
    clock: u32,
    worst_by_position: &[u32],
) -> Refusal
    ensures body { run.new.body ≡ run.old.body }
    ensures answer { next_flat (steps_of run.new) result
        ≡ body_report run.old.body worst_by_position.now clock (steps_of run.old) }
{
    nyokazerubi::bodies::nyokazerubi_body_report(run, clock, worst_by_position)
}

#[unsafe(no_mangle)]
pub extern "C" fn nyokazerubi_body_dry_frame(
    image: &[u8],
    repeats: u32,
    policy: u32,
    durations: &[u32],
    order: &mut [u8],
    given: &mut [u8],
    marks: &mut [u8],
) -> BodyFramed
    ensures { BodyFrames image.now repeats policy durations.now
        (record { order = order.old; levels = given.old; decided = marks.old })
        (record { order = order.new; levels = given.new; decided = marks.new }) result }
{
    nyokazerubi::bodies::nyokazerubi_body_dry_frame(
        image, repeats, policy, durations, order, given, marks,
    )
}
