// Reading: the tables of an image, unpacked into lent slices.
#![tactic(auto)]

ghost use Rattle.std.specs.Prelude.{◌≡◌, [], ◌∷◌, ◌+◌, ◌*◌, ◌≤◌, ◌<◌, length};
ghost use Rattle.rules.specs.Words.{tab, rows};
ghost use Rattle.rules.specs.Image.{mask_of, deadline_of, average_of, worst_of};
ghost use Rattle.fields.specs.Fields.{splice};
ghost use Rattle.image_fields.specs.Reading.{HasRecord, HasRecords};

use image_fields::{column, read};

// The record of action a, into the four tables.
pub fn unpack_record(
    image: &[u8],
    levels: usize,
    a: usize,
    masks: &mut [u64],
    deadlines: &mut [u32],
    averages: &mut [u32],
    worst: &mut [u32],
)
    requires has_record { HasRecord image.now levels a }
    requires a_in_bounds { (a < length masks.old) × (a < length deadlines.old) }
    requires levels_in_bounds { (a * levels + levels ≤ length averages.old) × (a * levels + levels ≤ length worst.old) }
    ensures masks_after { masks.new ≡ splice masks.old a (mask_of image.now a ∷ []) }
    ensures deadlines_after { deadlines.new ≡ splice deadlines.old a (deadline_of image.now a ∷ []) }
    ensures averages_after { averages.new ≡ splice averages.old (a * levels) (tab (average_of image.now a) levels) }
    ensures worst_after { worst.new ≡ splice worst.old (a * levels) (tab (worst_of image.now a) levels) }
{
    let row = a * levels;
    masks[a] = read::mask_at(image, levels, a);
    deadlines[a] = read::deadline_at(image, levels, a);
    column::take_row(image, levels, a, averages, worst, row);
}

// All n records of an image. What the slices have beyond the tables stays.
pub fn unpack(
    image: &[u8],
    n: usize,
    levels: usize,
    masks: &mut [u64],
    deadlines: &mut [u32],
    averages: &mut [u32],
    worst: &mut [u32],
)
    requires has_records { HasRecords image.now levels n }
    requires n_in_bounds { (n ≤ length masks.old) × (n ≤ length deadlines.old) }
    requires levels_in_bounds { (n * levels ≤ length averages.old) × (n * levels ≤ length worst.old) }
    ensures masks_after { masks.new ≡ splice masks.old 0 (tab (mask_of image.now) n) }
    ensures deadlines_after { deadlines.new ≡ splice deadlines.old 0 (tab (deadline_of image.now) n) }
    ensures averages_after { averages.new ≡ splice averages.old 0 (rows (average_of image.now) n levels) }
    ensures worst_after { worst.new ≡ splice worst.old 0 (rows (worst_of image.now) n levels) }
{
    for a in 0..n {
        unpack_record(image, levels, a, masks, deadlines, averages, worst);
    }
}
