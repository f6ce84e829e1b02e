// What is copied of an image: the columns by which its actions are ordered, and the times of an action.
ghost use Rattle.std.specs.Prelude.{◌≡◌, ◌+◌, ◌≤◌, length};
ghost use Rattle.rules.specs.Words.{tab};
ghost use Rattle.rules.specs.Image.{average_of, worst_of};
ghost use Rattle.fields.specs.Fields.{splice};
ghost use Rattle.image_fields.specs.Reading.{HasRecord, HasRecords, Columns};

use crate::read;

// Copies the masks, the deadlines and the level 0 worst times of n actions.
pub fn take_columns(
    image: &[u8],
    levels: usize,
    n: usize,
    masks: &mut [u64],
    deadlines: &mut [u32],
    worst: &mut [u32],
)
    requires { HasRecords image.now levels n × (n ≤ length masks.old) × (n ≤ length deadlines.old) × (n ≤ length worst.old) }
    ensures { Columns image.now n masks.new deadlines.new worst.new }
{
    for a in 0..n {
        masks[a] = read::mask_at(image, levels, a);
        deadlines[a] = read::deadline_at(image, levels, a);
        worst[a] = read::worst_at(image, levels, a, 0);
    }
}

// Copies the times of action a, level by level, into both tables from index `from` on.
pub fn take_row(
    image: &[u8],
    levels: usize,
    a: usize,
    averages: &mut [u32],
    worst: &mut [u32],
    from: usize,
)
    requires has_record { HasRecord image.now levels a }
    requires levels_in_bounds { (from + levels ≤ length averages.old) × (from + levels ≤ length worst.old) }
    ensures averages_after { averages.new ≡ splice averages.old from (tab (average_of image.now a) levels) }
    ensures worst_after { worst.new ≡ splice worst.old from (tab (worst_of image.now a) levels) }
{
    for q in 0..levels {
        averages[from + q] = read::average_at(image, levels, a, q);
        worst[from + q] = read::worst_at(image, levels, a, q);
    }
}
