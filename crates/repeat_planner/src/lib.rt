// Planning a body repeated: its order, the summaries of the rest of the body and the worst times, written to lent tables. Nothing is stored for a
// repeat, so that planning costs the same however often the body is repeated.
#![tactic(auto)]

ghost use Rattle.std.specs.Prelude.{◌*◌, ◌≤◌, ◌<◌, ◌≡◌, true, [], ◌∷◌, ◌↔◌};
ghost use Rattle.rules.specs.Numbers.{most_actions, most_levels, refused_unfit, refused_room, refused_repeats};
ghost use Rattle.rules.specs.Words.{sum};
ghost use Rattle.rules.specs.Image.{profile};
ghost use Rattle.rules.specs.Refusals.{◌when◌, First, Tight, Unfit};
ghost use Rattle.rules.specs.Reasons.{number};
ghost use Rattle.rules.specs.Repeat.{unrolled, Repeats, body_checks, body_call};
ghost use Rattle.image_fields.specs.Reading.{HasRecords};
ghost use Rattle.image_check.specs.Checks.{CheckAnswers};
ghost use Rattle.repeat_planner.specs.Admitting.{Passed};
ghost use Rattle.repeat_planner.specs.PlanningBody.{body_rooms, body_planned, PlansBody};

use image_check::{Checked, whole};
use planner::policy_refusal;
use rules::{Blame, Body, Counts, Fault, Reason};

// The answer of planning, laid flat for C: with a refusal all else is 0; without one what the header says, N and the policy.
#[repr(C)]
#[derive(Clone, Copy)]
pub struct BodyPlanned {
    pub refusal: Fault,
    pub body: Body,
}

impl From<Result<Body, Blame>> for BodyPlanned {
    ghost from_gives = { λ outcome flat. flat ≡ body_planned outcome };

    fn from(outcome: Result<Body, Blame>) -> Self {
        match outcome {
            Ok(body) => BodyPlanned {
                refusal: Fault::of(Ok(())),
                body,
            },
            Err(blame) => BodyPlanned {
                refusal: Fault::from(blame),
                body: Body {
                    n: 0,
                    levels: 0,
                    cycle: 0,
                    repeats: 0,
                    policy: 0,
                },
            },
        }
    }
}

// ---- the check of an image as a body

// 19: N is out of its range, or a deadline is neither 0 nor the cycle.
fn repeats_out(image: &[u8], counts: Counts, repeats: u32) -> bool
    requires { Passed image.now counts.n counts.levels counts.cycle }
    ensures { (result ≡ true) ↔ Repeats (profile image.now) repeats }
{
    repeats < 1
        || rules::MOST_REPEATS < repeats
        || repeat_tables::other_deadline(image, counts.levels, counts.n, counts.cycle)
}

// 9: the level 0 worst times of all repeats are above the cycle.
fn unfit(image: &[u8], counts: Counts, repeats: u32) -> bool
    requires { HasRecords image.now counts.levels counts.n }
    ensures { (result ≡ true) ↔ (counts.cycle < repeats * sum counts.n (λ a. (profile image.now).worst a 0)) }
{
    let total = repeat_tables::total(image, counts.levels, counts.n);
    u64::from(counts.cycle) < u64::from(repeats) * u64::from(total)
}

// 19, then 9.
fn repeats_refusal(image: &[u8], counts: Counts, repeats: u32) -> Result<(), Reason>
    requires { Passed image.now counts.n counts.levels counts.cycle }
    ensures { First (refused_repeats when Repeats (profile image.now) repeats
        ∷ refused_unfit when Unfit (unrolled (profile image.now) repeats) ∷ []) (number result) }
{
    if repeats_out(image, counts, repeats) {
        return Err(Reason::Repeats);
    }
    if unfit(image, counts, repeats) {
        return Err(Reason::Unfit);
    }
    Ok(())
}

// 1 to 8, 19 and 9.
fn checked(image: &[u8], repeats: u32) -> Result<Checked, Blame>
    ensures { CheckAnswers (body_checks image.now repeats) image.now result }
{
    let found = whole::checked_body(image)?;
    let counts = Counts {
        n: found.n,
        levels: found.levels,
        cycle: found.cycle,
    };
    repeats_refusal(image, counts, repeats)?;
    Ok(found)
}

// ---- planning

// 17 where a lent table is shorter than needed.
fn tight(
    n: usize,
    levels: usize,
    order: &[u8],
    summaries: &[u32],
    worst: &[u32],
) -> Result<(), Reason>
    requires { (n ≤ most_actions) × (levels ≤ most_levels) }
    ensures { First
        (refused_room when Tight (body_rooms n levels (record { order = order.now; summaries = summaries.now; worst = worst.now })) ∷ [])
        (number result) }
{
    let entries = n * levels;
    if (order.len() < n)
        || (summaries.len() < entries * rules::SUMMARY_NUMBERS)
        || (worst.len() < entries)
    {
        return Err(Reason::Room);
    }
    Ok(())
}

// What the check of the image answers, with 20 and 17 after it.
fn with_room(
    image: &[u8],
    repeats: u32,
    policy: u32,
    order: &[u8],
    summaries: &[u32],
    worst: &[u32],
) -> Result<Checked, Blame>
    ensures { CheckAnswers (body_call image.now repeats policy
        (body_rooms (profile image.now).n (profile image.now).levels
        (record { order = order.now; summaries = summaries.now; worst = worst.now }))) image.now result }
{
    let found = checked(image, repeats)?;
    policy_refusal(policy)?;
    tight(found.n, found.levels, order, summaries, worst)?;
    Ok(found)
}

// Plans an image as a body done `repeats` times, by the policy of 2008 or of 2005. A refusal leaves the tables untouched, and what they have beyond what is needed stays.
pub fn plan(
    image: &[u8],
    repeats: u32,
    policy: u32,
    order: &mut [u8],
    summaries: &mut [u32],
    worst: &mut [u32],
) -> Result<Body, Blame>
    ensures { PlansBody image.now repeats policy
        (record { order = order.old; summaries = summaries.old; worst = worst.old })
        (record { order = order.new; summaries = summaries.new; worst = worst.new }) (body_planned result) }
{
    let found = with_room(image, repeats, policy, order, summaries, worst)?;
    let n = found.n;
    let levels = found.levels;
    let cycle = found.cycle;
    let actions = found.order;
    repeat_tables::fill(image, n, levels, policy, &actions, order, summaries, worst);
    Ok(Body {
        n: n as u32,
        levels: levels as u32,
        cycle,
        repeats,
        policy,
    })
}
