// The public calls on a profile image: check, read, look an action up, write.
#![tactic(auto)]

ghost use Rattle.std.specs.Prelude.{◌≡◌};
ghost use Rattle.rules.specs.Reasons.{fault};
ghost use Rattle.rules.specs.Refusals.{Refuses, image_checks, lookup_call};
ghost use Rattle.image_pack.specs.Packing.{tables_of};
ghost use Rattle.image_write.specs.Writing.{Writes, written};
ghost use Rattle.profile.specs.Calls.{ReadsImage, unpacked, Places, placed, LooksUp};

use image_check::{Checked, whole};
pub use image_pack::Tables;
use rules::{Blame, Counts, Fault, Reason};

// The answer of reading, as C takes it: the refusal, and without one the counts and the cycle of the profile, else 0.
#[repr(C)]
#[derive(Clone, Copy)]
pub struct Unpacked {
    pub refusal: Fault,
    pub n: usize,
    pub levels: usize,
    pub cycle: u32,
}

impl From<Result<Counts, Blame>> for Unpacked {
    ghost from_gives = { λ outcome answer. answer ≡ unpacked outcome };

    fn from(outcome: Result<Counts, Blame>) -> Self {
        match outcome {
            Ok(counts) => Unpacked {
                refusal: Fault::of(Ok(())),
                n: counts.n,
                levels: counts.levels,
                cycle: counts.cycle,
            },
            Err(blame) => Unpacked {
                refusal: Fault::from(blame),
                n: 0,
                levels: 0,
                cycle: 0,
            },
        }
    }
}

// Where an action's own part of the image starts, and how many bytes it has.
#[derive(Clone, Copy)]
pub struct Part {
    pub start: usize,
    pub length: usize,
}

// The answer of a lookup, as C takes it: the refusal, and without one the place of the action's own part of the image, else 0.
#[repr(C)]
#[derive(Clone, Copy)]
pub struct Place {
    pub refusal: Fault,
    pub start: usize,
    pub length: usize,
}

impl From<Result<Part, Blame>> for Place {
    ghost from_gives = { λ outcome answer. answer ≡ placed outcome };

    fn from(outcome: Result<Part, Blame>) -> Self {
        match outcome {
            Ok(part) => Place {
                refusal: Fault::of(Ok(())),
                start: part.start,
                length: part.length,
            },
            Err(blame) => Place {
                refusal: Fault::from(blame),
                start: 0,
                length: 0,
            },
        }
    }
}

// The check of an image: refusals 1 to 9, in this order, over the whole image.
pub fn check(image: &[u8]) -> Result<(), Blame>
    ensures { Refuses (image_checks image.now) (fault result) }
{
    image_check::check(image)
}

// Unpacks an image into the lent slices. A refusal leaves them untouched, and what they have beyond the tables stays.
pub fn read(
    image: &[u8],
    masks: &mut [u64],
    deadlines: &mut [u32],
    averages: &mut [u32],
    worst: &mut [u32],
) -> Result<Counts, Blame>
    ensures { ReadsImage image.now
        (record { masks = masks.old; deadlines = deadlines.old; averages = averages.old; worst = worst.old })
        (record { masks = masks.new; deadlines = deadlines.new; averages = averages.new; worst = worst.new }) (unpacked result) }
{
    let Checked {
        n,
        levels,
        cycle,
        ..
    } = whole::checked(image)?;
    let tables = Tables {
        masks,
        deadlines,
        averages,
        worst,
    };
    if image_write::checks::tight(n, levels, tables) {
        return Err(Blame::from(Reason::Room));
    }
    image_read::unpack(image, n, levels, masks, deadlines, averages, worst);
    Ok(Counts { n, levels, cycle })
}

// The refusal of a lookup: those of the image, then 15, an absent action.
pub fn lookup_refusal(image: &[u8], action: usize) -> Result<(), Blame>
    ensures { Refuses (lookup_call image.now action) (fault result) }
{
    let checked = whole::checked(image)?;
    if checked.n <= action {
        return Err(Blame::from(Reason::Name));
    }
    Ok(())
}

// Where the action's own part of the image lies.
pub fn lookup_place(image: &[u8], action: usize) -> Result<Part, Blame>
    ensures { Places image.now action (placed result) }
{
    lookup_refusal(image, action)?;
    let levels = image_fields::read::header(image).levels;
    let next = action + 1;
    let start = image_fields::read::record_at(levels, action);
    let end = image_fields::read::record_at(levels, next);
    Ok(Part {
        start,
        length: end - start,
    })
}

// The action's own part of the image, uncopied; empty with a refusal.
pub fn lookup(image: &[u8], action: usize) -> &[u8]
    ensures { LooksUp image.entry action result }
{
    match lookup_place(image, action) {
        Ok(part) => &image[part.start..part.start + part.length],
        Err(_) => &image[..0],
    }
}

// Packs the tables into the lent image and answers how many bytes that are. A refusal leaves it untouched, and what it has beyond the bytes written
// stays.
pub fn write(
    n: usize,
    levels: usize,
    cycle: u32,
    tables: Tables<'_>,
    image: &mut [u8],
) -> Result<usize, Blame>
    ensures { Writes n levels cycle (tables_of tables.entry) image.old image.new (written result).refusal (written result).bytes }
{
    image_write::write(n, levels, cycle, tables, image)
}
