// Writing: n, L, cycle and lent slices of masks, deadlines, averages and worst times, packed into a lent image.
#![tactic(auto)]

ghost use Rattle.std.specs.Prelude.{◌≡◌};
ghost use Rattle.rules.specs.Reasons.{fault};
ghost use Rattle.rules.specs.Refusals.{Refuses};
ghost use Rattle.image_pack.specs.Packing.{tables_of};
ghost use Rattle.image_write.specs.Writing.{writing, Writes, written};

use image_pack::Tables;
use rules::{Blame, Fault, Reason};

pub mod checks;

// The answer of writing, as C takes it: the refusal, and the number of bytes written, 0 with a refusal.
#[repr(C)]
#[derive(Clone, Copy)]
pub struct Written {
    pub refusal: Fault,
    pub bytes: usize,
}

impl From<Result<usize, Blame>> for Written {
    ghost from_gives = { λ outcome answer. answer ≡ written outcome };

    fn from(outcome: Result<usize, Blame>) -> Self {
        match outcome {
            Ok(bytes) => Written {
                refusal: Fault::of(Ok(())),
                bytes,
            },
            Err(blame) => Written {
                refusal: Fault::from(blame),
                bytes: 0,
            },
        }
    }
}

// The refusal of writing; `room` is the length of the image.
pub fn refusal(
    n: usize,
    levels: usize,
    cycle: u32,
    tables: Tables<'_>,
    room: usize,
) -> Result<(), Blame>
    ensures { Refuses (writing n levels cycle (tables_of tables.entry) room) (fault result) }
{
    if image_fields::scan::count_out(n, levels, cycle) {
        return Err(Blame::from(Reason::Count));
    }
    if checks::tight(n, levels, tables) || room < image_pack::image_bytes(n, levels) {
        return Err(Blame::from(Reason::Room));
    }
    // The lowest action at fault for 7 and for 6. 6 is given before 7 and looked for after it: where no row breaks the rule of 7, one test a row
    // tells whether a time is too long.
    let fallen = checks::table(n, levels, tables.averages, tables.worst);
    let ordered = fallen.is_none();
    let out = checks::range(n, levels, cycle, tables, ordered);
    if let Some(a) = out {
        return Err(Blame::on(Reason::Range, a));
    }
    if let Some(a) = fallen {
        return Err(Blame::on(Reason::Table, a));
    }
    let judged = order::judge(
        tables.masks,
        tables.deadlines,
        cycle,
        tables.worst,
        levels,
        n,
    )?;
    if judged.unfit {
        return Err(Blame::from(Reason::Unfit));
    }
    Ok(())
}

// Packs the tables into the image and answers how many bytes that are. A refusal leaves it untouched, and what it has beyond the bytes written
// stays.
pub fn write(
    n: usize,
    levels: usize,
    cycle: u32,
    tables: Tables<'_>,
    image: &mut [u8],
) -> Result<usize, Blame>
    ensures { Writes n levels cycle (tables_of tables.entry) image.old image.new (written result).refusal (written result).bytes }
{
    let room = image.len();
    refusal(n, levels, cycle, tables, room)?;
    image_pack::put_image(image, n, levels, cycle, tables);
    Ok(image_pack::image_bytes(n, levels))
}
