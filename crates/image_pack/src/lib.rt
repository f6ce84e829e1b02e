// The bytes of an image: the header, then the records, action 0 first.
#![tactic(auto)]

ghost use Rattle.std.specs.Prelude.{◌≡◌, [], ◌++◌, ℕ, ◌+◌, ◌*◌, ◌^◌, ◌≤◌, ◌<◌, length, get_or};
ghost use Rattle.rules.specs.Words.{cat};
ghost use Rattle.rules.specs.Numbers.{most_actions, most_levels, header_bytes};
ghost use Rattle.rules.specs.Image.{bytes, record_at, image_bytes, of_tables, header_of, level_image, record_image, image as image-of};
ghost use Rattle.fields.specs.Fields.{splice};
ghost use Rattle.image_pack.specs.Packing.{tables_of, Roomy, of_records};

use image_fields::read::record_at;

// The lent tables that an image is packed from: the masks and the deadlines by action, the averages and the worst times by action, then level.
#[derive(Clone, Copy)]
pub struct Tables<'a> {
    pub masks: &'a [u64],
    pub deadlines: &'a [u32],
    pub averages: &'a [u32],
    pub worst: &'a [u32],
}

// An image ends where a record after its last one would start.
pub fn image_bytes(n: usize, levels: usize) -> usize
    requires { (n ≤ most_actions) × (levels ≤ most_levels) }
    ensures { result ≡ image_bytes n levels }
{
    record_at(levels, n)
}

// A level of an action: average 24, worst 24.
fn put_level(image: &mut [u8], at: usize, average: u32, worst: u32)
    requires { at + 6 ≤ length image.old }
    ensures { image.new ≡ splice image.old at (bytes 3 average ++ bytes 3 worst) }
{
    fields::put_be(image, at, u64::from(average), 3);
    fields::put_be(image, at + 3, u64::from(worst), 3);
}

// The levels of action a.
fn put_levels(image: &mut [u8], at: usize, levels: usize, tables: Tables<'_>, a: usize)
    requires image_in_bounds { at + levels * 6 ≤ length image.old }
    requires levels_in_bounds { (a * levels + levels ≤ length tables.averages.now) × (a * levels + levels ≤ length tables.worst.now) }
    ensures { image.new
        ≡ splice image.old at (cat (level_image (of_records levels (tables_of tables.entry)) a) levels) }
{
    let row = a * levels;
    for q in 0..levels {
        put_level(
            image,
            at + q * rules::LEVEL_BYTES,
            tables.averages[row + q],
            tables.worst[row + q],
        );
    }
}

// The record of action a: predecessor mask 64, deadline 30, spare 2, then the levels.
fn put_record(image: &mut [u8], levels: usize, tables: Tables<'_>, a: usize)
    requires roomy { Roomy (a + 1) levels (tables_of tables) }
    requires levels_in_bounds { (image_bytes (a + 1) levels ≤ length image.old) × (get_or tables.deadlines.now a 0 < 2 ^ 30) }
    ensures { image.new ≡ splice image.old (record_at levels a)
        (record_image (of_records levels (tables_of tables.entry)) a) }
{
    let at = record_at(levels, a);
    fields::put_be(image, at, tables.masks[a], 8);
    // The two low bits are spare.
    let deadline = u64::from(tables.deadlines[a] * rules::DEADLINE_WORTH);
    fields::put_be(image, at + rules::DEADLINE_AT, deadline, 4);
    put_levels(image, at + rules::HEAD_BYTES, levels, tables, a);
}

// The records of n actions.
fn put_records(image: &mut [u8], n: usize, levels: usize, tables: Tables<'_>)
    requires roomy { Roomy n levels (tables_of tables) }
    requires levels_in_bounds { (image_bytes n levels ≤ length image.old) × ((k : ℕ) → k < n → get_or tables.deadlines.now k 0 < 2 ^ 30) }
    ensures { image.new ≡ splice image.old header_bytes
        (cat (record_image (of_records levels (tables_of tables.entry))) n) }
{
    for a in 0..n {
        put_record(image, levels, tables, a);
    }
}

// The header: version 4 (value 1), actions 7, levels 4, cycle 30, spare 3.
fn put_header(image: &mut [u8], n: usize, levels: usize, cycle: u32)
    requires { (n ≤ most_actions) × (levels ≤ most_levels) × (cycle < 2 ^ 30) × (header_bytes ≤ length image.old) }
    ensures { image.new ≡ splice image.old 0 (bytes 6 (header_of (of_tables n levels cycle
        (record { masks = []; deadlines = []; averages = []; worst = [] })))) }
{
    let counts = (rules::VERSION_BEFORE + n as u64) * rules::LEVELS_SAID + levels as u64;
    let header = counts * rules::LEVELS_WORTH + u64::from(cycle) * rules::CYCLE_WORTH;
    fields::put_be(image, 0, header, 6);
}

// The whole image.
pub fn put_image(image: &mut [u8], n: usize, levels: usize, cycle: u32, tables: Tables<'_>)
    requires roomy { Roomy n levels (tables_of tables) }
    requires levels_in_bounds { (image_bytes n levels ≤ length image.old) × (cycle < 2 ^ 30) × ((k : ℕ) → k < n → get_or tables.deadlines.now k 0 < 2 ^ 30) }
    ensures { image.new ≡ splice image.old 0
        (image-of (of_tables n levels cycle (tables_of tables.entry))) }
{
    put_header(image, n, levels, cycle);
    put_records(image, n, levels, tables);
}
