// The tables of a body: the order, the summaries of the rest of the body and the worst times, by position and level, written to lent slices;
// and what of the image decides on repeating it.
#![tactic(auto)]

ghost use Rattle.std.specs.Prelude.{◌+◌, ◌*◌, ◌≤◌, max, ◌≡◌, true, cond, [], ◌∷◌, ◌↔◌, eqb, length};
ghost use Rattle.rules.specs.Numbers.{policy_2005, summary_numbers};
ghost use Rattle.rules.specs.Words.{sum, Some};
ghost use Rattle.rules.specs.Image.{profile};
ghost use Rattle.rules.specs.Order.{Order};
ghost use Rattle.rules.specs.Repeat.{OwnDeadline};
ghost use Rattle.fields.specs.Fields.{splice};
ghost use Rattle.image_fields.specs.Reading.{HasRecords};
ghost use Rattle.repeat_tables.specs.Summing.{BodyInput, SomeBodyInput, EntriesFit, carried, CanSum, SumsRow, RowsSummed, BodyFilled};

use image_fields::read;

// ---- on repeating it

// The level 0 worst times of all actions.
pub fn total(image: &[u8], levels: usize, n: usize) -> u32
    requires { HasRecords image.now levels n }
    ensures { result ≡ sum n (λ a. (profile image.now).worst a 0) }
{
    let mut total = 0;
    for a in 0..n {
        total += read::worst_at(image, levels, a, 0);
    }
    total
}

// Some action has a deadline of its own: one that is neither 0 nor the cycle.
pub fn other_deadline(image: &[u8], levels: usize, n: usize, cycle: u32) -> bool
    requires { HasRecords image.now levels n × (cycle ≡ (profile image.now).cycle) }
    ensures { (result ≡ true) ↔ Some (OwnDeadline (profile image.now)) n }
{
    for a in 0..n {
        if read::due_at(image, levels, a, cycle) != cycle {
            return true;
        }
    }
    false
}

// ---- the tables

// The third number of a summary: in 2008 M, the greater of both; in 2005 the safe sum alone.
fn mix_of(policy: u32, safe: u32, mixed: u32) -> u32
    ensures { result ≡ cond (eqb policy policy_2005) safe (max safe mixed) }
{
    if policy == rules::POLICY_2005 {
        return safe;
    }
    safe.max(mixed)
}

// The four numbers of a summary, stored from index `at` on.
fn put_sums(average: u32, lowest: u32, mix: u32, worst: u32, at: usize, summaries: &mut [u32])
    requires { at + summary_numbers ≤ length summaries.old }
    ensures { summaries.new ≡ splice summaries.old at (average ∷ lowest ∷ mix ∷ worst ∷ []) }
{
    summaries[at] = average;
    summaries[at + 1] = lowest;
    summaries[at + 2] = mix;
    summaries[at + 3] = worst;
}

// The summaries of the rest of the body from the position of action a, whose entries are those from `from` on. `averages`, `after`, `mixes` and
// `worsts` have those of the rest after it, and then its own.
fn sum_row(
    image: &[u8],
    levels: usize,
    policy: u32,
    a: usize,
    averages: &mut [u32],
    after: u32,
    mixes: &mut [u32],
    worsts: &mut [u32],
    from: usize,
    summaries: &mut [u32],
    worst: &mut [u32],
) -> u32
    requires { CanSum image.now levels a averages.old after mixes.old worsts.old from
        (record { order = []; summaries = summaries.old; worst = worst.old }) }
    ensures { SumsRow image.now levels policy a (carried averages.old after mixes.old worsts.old)
        (carried averages.new result mixes.new worsts.new) from
        (record { order = []; summaries = summaries.old; worst = worst.old })
        (record { order = []; summaries = summaries.new; worst = worst.new }) }
{
    let lowest = read::worst_at(image, levels, a, 0) + after;
    for q in 0..levels {
        let average = read::average_at(image, levels, a, q);
        let longest = read::worst_at(image, levels, a, q);
        let sum = average + averages[q];
        let mix = mix_of(policy, longest + after, average + mixes[q]);
        let all = longest + worsts[q];
        averages[q] = sum;
        mixes[q] = mix;
        worsts[q] = all;
        put_sums(
            sum,
            lowest,
            mix,
            all,
            (from + q) * rules::SUMMARY_NUMBERS,
            summaries,
        );
        worst[from + q] = longest;
    }
    lowest
}

// The summaries and the worst times, from the last position back. After the last one nothing is left, which sums up to 0.
fn sum_rows(
    image: &[u8],
    n: usize,
    levels: usize,
    policy: u32,
    actions: &[u8; rules::MOST_ACTIONS],
    summaries: &mut [u32],
    worst: &mut [u32],
)
    requires some_body_input { SomeBodyInput image.now n levels actions.now }
    requires entries_fit { EntriesFit (n * levels) (record { order = []; summaries = summaries.old; worst = worst.old }) }
    ensures { (o : Order (profile image.now).n) → BodyInput image.now n levels actions.now o
        → RowsSummed image.now n levels policy (record { order = []; summaries = summaries.old; worst = worst.old })
        (record { order = []; summaries = summaries.new; worst = worst.new }) o }
{
    let mut averages = [0u32; rules::MOST_LEVELS];
    let mut mixes = [0u32; rules::MOST_LEVELS];
    let mut worsts = [0u32; rules::MOST_LEVELS];
    let mut lowest = 0;
    for i in (0..n).rev() {
        lowest = sum_row(
            image,
            levels,
            policy,
            actions[i] as usize,
            &mut averages,
            lowest,
            &mut mixes,
            &mut worsts,
            i * levels,
            summaries,
            worst,
        );
    }
}

// The order and the two tables, by a policy.
pub fn fill(
    image: &[u8],
    n: usize,
    levels: usize,
    policy: u32,
    actions: &[u8; rules::MOST_ACTIONS],
    order: &mut [u8],
    summaries: &mut [u32],
    worst: &mut [u32],
)
    requires some_body_input { SomeBodyInput image.now n levels actions.now }
    requires n_in_bounds { (n ≤ length order.old)
        × EntriesFit (n * levels) (record { order = order.old; summaries = summaries.old; worst = worst.old }) }
    ensures { (o : Order (profile image.now).n) → BodyInput image.now n levels actions.now o
        → BodyFilled image.now policy (record { order = order.old; summaries = summaries.old; worst = worst.old })
        (record { order = order.new; summaries = summaries.new; worst = worst.new }) o }
{
    fields::copy_front(actions, n, order);
    sum_rows(image, n, levels, policy, actions, summaries, worst);
}
