// The refusals 17, 6 and 7 of lent tables. A check of the actions answers the lowest one at fault, if one is.

ghost use Rattle.std.specs.Prelude.{◌≡◌, true, ◌↔◌, ℕ, ◌+◌, ◌*◌, ◌≤◌, ◌<◌, length};
ghost use Rattle.rules.specs.Numbers.{most_actions, most_levels};
ghost use Rattle.rules.specs.Image.{time_at, of_tables};
ghost use Rattle.rules.specs.Refusals.{Lowest, LongTime, WriteFault, RowBreaks, Tight};
ghost use Rattle.image_pack.specs.Packing.{tables_of, Roomy};
ghost use Rattle.image_write.specs.Writing.{table_rooms};

use image_fields::scan;
use image_pack::Tables;

// Refusal 17, of the tables: whether one is shorter than n actions at so many levels need.
pub fn tight(n: usize, levels: usize, tables: Tables<'_>) -> bool
    requires { (n ≤ most_actions) × (levels ≤ most_levels) }
    ensures { (result ≡ true) ↔ Tight (table_rooms n levels (tables_of tables.entry)) }
{
    let entries = n * levels;
    tables.masks.len() < n
        || tables.deadlines.len() < n
        || tables.averages.len() < entries
        || tables.worst.len() < entries
}

// Whether a time of action a is above the longest. Where its times are in order (7 is not given for it), the longest is the worst one at the
// top level. It takes the two tables that it reads: their names in the clauses are shorter so.
fn long_time(averages: &[u32], worst: &[u32], levels: usize, a: usize, ordered: bool) -> bool
    requires levels_in_bounds { (a * levels + levels ≤ length averages.now) × (a * levels + levels ≤ length worst.now) }
    requires le_levels { (1 ≤ levels) × (ordered ≡ true → RowBreaks levels (time_at levels averages.now a) (time_at levels worst.now a) → ⊥) }
    ensures { (result ≡ true) ↔ LongTime levels (time_at levels averages.now a) (time_at levels worst.now a) }
{
    let row = a * levels;
    if ordered {
        return rules::LONGEST_TIME < worst[row + (levels - 1)];
    }
    for q in 0..levels {
        if rules::LONGEST_TIME < averages[row + q] || rules::LONGEST_TIME < worst[row + q] {
            return true;
        }
    }
    false
}

// Refusal 6: a deadline above the cycle, a mask that names action n or more, a time above the longest. `ordered` says that 7 is given for none.
pub fn range(
    n: usize,
    levels: usize,
    cycle: u32,
    tables: Tables<'_>,
    ordered: bool,
) -> Option<usize>
    requires roomy { Roomy n levels (tables_of tables) × (1 ≤ levels) }
    requires unbroken { ordered ≡ true → (a : ℕ) → a < n → RowBreaks levels (time_at levels tables.averages.now a) (time_at levels tables.worst.now a) → ⊥ }
    ensures { Lowest (WriteFault (of_tables n levels cycle (tables_of tables.entry))) n result }
{
    for a in 0..n {
        if scan::out_of_range(tables.masks[a], tables.deadlines[a], cycle, n)
            || long_time(tables.averages, tables.worst, levels, a, ordered)
        {
            return Some(a);
        }
    }
    None
}

// Refusal 7: an average above its worst time, a time that falls with the level. The two tables come by themselves, as with `long_time`.
pub fn table(n: usize, levels: usize, averages: &[u32], worst: &[u32]) -> Option<usize>
    requires { (n * levels ≤ length averages.now) × (n * levels ≤ length worst.now) }
    ensures { Lowest
        (λ a. RowBreaks levels (time_at levels averages.now a) (time_at levels worst.now a)) n result }
{
    for a in 0..n {
        if scan::row_breaks(averages, worst, a * levels, levels) {
            return Some(a);
        }
    }
    None
}
