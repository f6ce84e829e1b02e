// From a record by value to the calls over a lent one, and back.
ghost use Rattle.std.specs.Prelude.{◌≡◌, []};
ghost use Rattle.rules.specs.Run.{start, ask, report};
ghost use Rattle.rules.specs.Repeat.{body_start, body_ask, body_report};
ghost use Rattle.run.specs.Calls.{run_of};
ghost use Rattle.repeat_run.specs.Calls.{steps_of};
ghost use Rattle.nyokazerubi.specs.Flat.{body_lent, next_flat, Asks};

use nyokazerubi::runs::{Asked, Given};
use nyokazerubi::{bodies, runs};
use repeat_run::{BodyReported, BodyRun, BodyStarted};
use run::{Reported, Run, Started};

pub fn started(run: Run, n: usize, levels: usize) -> Started
    ensures { next_flat (run_of result.run) result.refusal ≡ start n levels }
{
    let mut kept = run;
    let refusal = runs::nyokazerubi_start(&mut kept, n, levels);
    Started { run: kept, refusal }
}

pub fn asked(run: Run, order: &[u8], limits: &[i32], bounds: &[i32]) -> Asked
    ensures { Asks (ask
        (record { order = order.now; limits = limits.now; worst = []; bounds = bounds.now }) (run_of run)) (run_of result.run) result.given }
{
    let mut kept = run;
    let given = runs::nyokazerubi_ask(&mut kept, order, limits, bounds);
    Asked { run: kept, given }
}

pub fn reported(run: Run, clock: u32, worst: &[u32]) -> Reported
    ensures { next_flat (run_of result.run) result.refusal ≡ report worst.now clock (run_of run) }
{
    let mut kept = run;
    let refusal = runs::nyokazerubi_report(&mut kept, clock, worst);
    Reported { run: kept, refusal }
}

// ---- a body repeated

// What an asking left and answered.
#[derive(Drop)]
pub struct BodyAsked {
    pub run: BodyRun,
    pub given: Given,
}

pub fn body_started(run: BodyRun, body: &[u32; bodies::BODY_NUMBERS]) -> BodyStarted
    ensures { (result.run.body, next_flat (steps_of result.run) result.refusal) ≡ body_start (body_lent body.now) }
{
    let mut kept = run;
    let refusal = bodies::nyokazerubi_body_start(&mut kept, body);
    BodyStarted { run: kept, refusal }
}

pub fn body_asked(run: BodyRun, order: &[u8], summaries: &[u32], worst: &[u32]) -> BodyAsked
    ensures body { result.run.body ≡ run.body }
    ensures answer { Asks (body_ask run.body
        (record { order = order.now; summaries = summaries.now; worst = worst.now }) (steps_of run))
        (steps_of result.run) result.given }
{
    let mut kept = run;
    let given = bodies::nyokazerubi_body_ask(&mut kept, order, summaries, worst);
    BodyAsked { run: kept, given }
}

pub fn body_reported(run: BodyRun, clock: u32, worst: &[u32]) -> BodyReported
    ensures body { result.run.body ≡ run.body }
    ensures answer { next_flat (steps_of result.run) result.refusal ≡ body_report run.body worst.now clock (steps_of run) }
{
    let mut kept = run;
    let refusal = bodies::nyokazerubi_body_report(&mut kept, clock, worst);
    BodyReported { run: kept, refusal }
}
