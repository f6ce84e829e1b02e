// A frame run dry: an image is planned by a policy and its cycle run over given durations, in one call. Demand 3 is its promise.
#![tactic(auto)]

ghost use Rattle.std.specs.Prelude.{◌≡◌};
ghost use Rattle.dry_frame.specs.Frame.{framed, Frames};

use rules::{Blame, Fault, Reason};
use run::dry::Dry;

// What a frame run dry comes to: the number of its positions, and what the cycle does.
#[derive(Clone, Copy)]
pub struct Frame {
    pub n: usize,
    pub dry: Dry,
}

// The same laid flat for C, behind the refusal. With one these are 0 and no.
#[repr(C)]
#[derive(Clone, Copy)]
pub struct Framed {
    pub refusal: Fault,
    pub n: usize,
    pub decisions: u32,
    pub end: u32,
    pub overrun: bool,
    pub late: bool,
}

impl From<Result<Frame, Blame>> for Framed {
    ghost from_gives = { λ outcome flat. flat ≡ framed outcome };

    fn from(outcome: Result<Frame, Blame>) -> Self {
        match outcome {
            Ok(frame) => Framed {
                refusal: Fault::of(Ok(())),
                n: frame.n,
                decisions: frame.dry.decisions,
                end: frame.dry.end,
                overrun: frame.dry.overrun,
                late: frame.dry.late,
            },
            Err(blame) => Framed {
                refusal: Fault::from(blame),
                n: 0,
                decisions: 0,
                end: 0,
                overrun: false,
                late: false,
            },
        }
    }
}

// Plans the image by the policy, runs its cycle over n by L durations by position, and writes the order, the levels given and the decided marks. A refusal
// leaves the slices untouched, so the order is kept apart until the durations are judged.
pub fn dry_frame(
    image: &[u8],
    policy: u32,
    durations: &[u32],
    order: &mut [u8],
    given: &mut [u8],
    marks: &mut [u8],
) -> Result<Frame, Blame>
    ensures { Frames image.now policy durations.now
        (record { order = order.old; levels = given.old; decided = marks.old })
        (record { order = order.new; levels = given.new; decided = marks.new }) (framed result) }
{
    // room for the greatest profile: 64 actions at 8 levels, coasts of 16
    let mut actions = [0u8; 64];
    let mut limits = [0i32; 512];
    let mut worst = [0u32; 512];
    let mut bounds = [0i32; 8192];
    let counts = planner::plan(
        image,
        policy,
        &mut actions,
        &mut limits,
        &mut worst,
        &mut bounds,
    )?;
    let n = counts.n;
    if order.len() < n {
        return Err(Blame::from(Reason::Room));
    }
    let dry = run::dry::dry_run(
        n,
        counts.levels,
        &limits,
        &worst,
        &bounds,
        durations,
        given,
        marks,
    )?;
    fields::copy_front(&actions, n, order);
    Ok(Frame { n, dry })
}
