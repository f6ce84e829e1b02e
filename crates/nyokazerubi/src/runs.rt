// The run for a host: each call by value on flat records, and over the record where the host keeps it.
ghost use Rattle.std.specs.Prelude.{◌≡◌, []};
ghost use Rattle.rules.specs.Run.{start, ask, report};
ghost use Rattle.rules.specs.Run as rules;
ghost use Rattle.run.specs.Calls.{run_of, with_run};
ghost use Rattle.nyokazerubi.specs.Flat.{next_flat, given_of, Asks};

use rules::Refusal;
use run::{Answer, Run};

// The answer of asking, laid flat, since an enum does not cross to C: the refusal, and without one the action, its level, whether decided,
// and late. With a refusal these are 0 or no.
#[repr(C)]
#[derive(Clone, Copy, PartialEq, Eq)]
pub struct Given {
    pub refusal: Refusal,
    pub action: u32,
    pub level: u32,
    pub decided: bool,
    pub late: bool,
}

// ---- asking by value, its answer laid flat. It is not exported: a call within the archive would then stay a call

#[derive(Clone, Copy)]
pub struct Asked {
    pub run: Run,
    pub given: Given,
}

impl From<Answer> for Given {
    ghost from_gives = { λ answer given. (next : rules.Run) → given ≡ given_of (with_run answer next) };

    fn from(answer: Answer) -> Self {
        match answer {
            Answer::Refused(refusal) => Given {
                refusal,
                action: 0,
                level: 0,
                decided: false,
                late: false,
            },
            Answer::Given {
                action,
                level,
                decided,
                late,
            } => Given {
                refusal: Refusal { number: 0 },
                action,
                level,
                decided,
                late,
            },
        }
    }
}

pub fn ask_flat(run: Run, order: &[u8], limits: &[i32], bounds: &[i32]) -> Asked
    ensures { Asks (ask
        (record { order = order.now; limits = limits.now; worst = []; bounds = bounds.now }) (run_of run)) (run_of result.run) result.given }
{
    let asked = run.ask(order, limits, bounds);
    let next = asked.run;
    let answer = asked.answer;
    Asked {
        run: next,
        given: Given::from(answer),
    }
}

// ---- over the lent record, which takes the next one whole

pub fn nyokazerubi_start(run: &mut Run, n: usize, levels: usize) -> Refusal
    ensures { next_flat (run_of run.new) result ≡ start n levels }
{
    let out = Run::start(n, levels);
    *run = out.run;
    out.refusal
}

pub fn nyokazerubi_ask(run: &mut Run, order: &[u8], limits: &[i32], bounds: &[i32]) -> Given
    ensures { Asks (ask
        (record { order = order.now; limits = limits.now; worst = []; bounds = bounds.now }) (run_of run.old)) (run_of run.new) result }
{
    let out = ask_flat(*run, order, limits, bounds);
    *run = out.run;
    out.given
}

pub fn nyokazerubi_report(run: &mut Run, clock: u32, worst_by_position: &[u32]) -> Refusal
    ensures { next_flat (run_of run.new) result ≡ report worst_by_position.now clock (run_of run.old) }
{
    let out = Run::report(*run, clock, worst_by_position);
    *run = out.run;
    out.refusal
}
