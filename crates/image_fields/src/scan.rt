// The checks of an image's actions: each answers the lowest action at fault, if one is.
ghost use Rattle.std.specs.Prelude.{◌≡◌, true, ◌↔◌, ◌+◌, ◌≤◌, ◌<◌, length, get_or};
ghost use Rattle.rules.specs.Numbers.{most_actions};
ghost use Rattle.rules.specs.Image.{average_of, worst_of};
ghost use Rattle.rules.specs.Refusals.{Lowest, CountOut, SpareFault, OutOfRange, RowBreaks};
ghost use Rattle.image_fields.specs.Reading.{HasRecord, HasRecords};
ghost use Rattle.image_fields.specs.Faults.{row, LevelBreaks};

use crate::{column, read};

// 3: n, the levels or the cycle are outside their ranges.
pub fn count_out(n: usize, levels: usize, cycle: u32) -> bool
    ensures { (result ≡ true) ↔ CountOut n levels cycle }
{
    !(1..=rules::MOST_ACTIONS).contains(&n)
        || !(1..=rules::MOST_LEVELS).contains(&levels)
        || !(1..=rules::LAST_CLOCK).contains(&cycle)
}

// 5: a spare bit of the record is set.
pub fn spare_fault(image: &[u8], levels: usize, n: usize) -> Option<usize>
    requires { HasRecords image.now levels n }
    ensures { Lowest (SpareFault image.now) n result }
{
    for a in 0..n {
        if read::spare_at(image, levels, a) != 0 {
            return Some(a);
        }
    }
    None
}

// 6, of one action: its deadline is above the cycle, or its mask names action n or more.
pub fn out_of_range(mask: u64, deadline: u32, cycle: u32, n: usize) -> bool
    requires { n ≤ most_actions }
    ensures { (result ≡ true) ↔ OutOfRange n cycle mask deadline }
{
    cycle < deadline || !sets::below(mask, n)
}

pub fn range_fault(masks: &[u64], deadlines: &[u32], cycle: u32, n: usize) -> Option<usize>
    requires { (n ≤ most_actions) × (n ≤ length masks.now) × (n ≤ length deadlines.now) }
    ensures { Lowest (λ a. OutOfRange n cycle (get_or masks.now a 0) (get_or deadlines.now a 0)) n result }
{
    for a in 0..n {
        if out_of_range(masks[a], deadlines[a], cycle, n) {
            return Some(a);
        }
    }
    None
}

// 7, of one level: the average is above the worst time, or one of them is below that of the level before.
pub fn level_breaks(average: u32, worst: u32, average_before: u32, worst_before: u32) -> bool
    ensures { (result ≡ true) ↔ LevelBreaks average worst average_before worst_before }
{
    worst < average || average < average_before || worst < worst_before
}

// 7, of one action: its times, which stand in both tables from index `from` on, break the rule at some level.
pub fn row_breaks(averages: &[u32], worst: &[u32], from: usize, levels: usize) -> bool
    requires { (from + levels ≤ length averages.now) × (from + levels ≤ length worst.now) }
    ensures { (result ≡ true) ↔ RowBreaks levels (row averages.now from) (row worst.now from) }
{
    // The times at the level before. Level 0 has none, and no time is below 0.
    let mut average_before = 0;
    let mut worst_before = 0;
    for q in 0..levels {
        let average = averages[from + q];
        let longest = worst[from + q];
        if level_breaks(average, longest, average_before, worst_before) {
            return true;
        }
        average_before = average;
        worst_before = longest;
    }
    false
}

// The same of an action of an image.
fn record_breaks(image: &[u8], levels: usize, a: usize) -> bool
    requires { HasRecord image.now levels a }
    ensures { (result ≡ true) ↔ RowBreaks levels (average_of image.now a) (worst_of image.now a) }
{
    let mut averages = [0u32; 8];
    let mut worst = [0u32; 8];
    column::take_row(image, levels, a, &mut averages, &mut worst, 0);
    row_breaks(&averages, &worst, 0, levels)
}

pub fn table_fault(image: &[u8], levels: usize, n: usize) -> Option<usize>
    requires { HasRecords image.now levels n }
    ensures { Lowest (λ a. RowBreaks levels (average_of image.now a) (worst_of image.now a)) n result }
{
    for a in 0..n {
        if record_breaks(image, levels, a) {
            return Some(a);
        }
    }
    None
}
