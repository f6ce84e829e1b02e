// The check of a whole image.
ghost use Rattle.std.specs.Prelude.{◌≡◌};
ghost use Rattle.rules.specs.Image.{mask_of, deadline_of};
ghost use Rattle.rules.specs.Reasons.{number, fault};
ghost use Rattle.rules.specs.Refusals.{First, Refuses, loop_checks};
ghost use Rattle.image_fields.specs.Reading.{HeaderOf, Opened, Column, Columns};
ghost use Rattle.image_check.specs.Checks.{head_checks, spare_check, record_checks, rest_checks, BodyAnswers, Judged};

use crate::Checked;
use image_fields::{Header, column, read, scan};
use order::Judgement;
use rules::{Blame, Reason};

// 2 to 4.
fn check_head(image: &[u8], head: Header) -> Result<(), Reason>
    requires { HeaderOf image.now head }
    ensures { First (head_checks image.now) (number result) }
{
    if head.version != rules::FIRST_VERSION {
        return Err(Reason::Version);
    }
    if scan::count_out(head.n, head.levels, head.cycle) {
        return Err(Reason::Count);
    }
    if image.len() != read::record_at(head.levels, head.n) {
        return Err(Reason::Length);
    }
    Ok(())
}

// 5: a record's spare bit is looked for before the header's, as the action is named where one is at fault.
fn check_spare(image: &[u8], head: Header) -> Result<(), Blame>
    requires { Opened image.now head }
    ensures { Refuses (spare_check image.now) (fault result) }
{
    if let Some(a) = scan::spare_fault(image, head.levels, head.n) {
        return Err(Blame::on(Reason::Spare, a));
    }
    if head.spare != 0 {
        return Err(Blame::from(Reason::Spare));
    }
    Ok(())
}

// 5 to 7.
fn check_records(image: &[u8], head: Header, masks: &[u64], deadlines: &[u32]) -> Result<(), Blame>
    requires opened { Opened image.now head }
    requires column { Column (mask_of image.now) head.n masks.now × Column (deadline_of image.now) head.n deadlines.now }
    ensures { Refuses (record_checks image.now) (fault result) }
{
    check_spare(image, head)?;
    if let Some(a) = scan::range_fault(masks, deadlines, head.cycle, head.n) {
        return Err(Blame::on(Reason::Range, a));
    }
    if let Some(a) = scan::table_fault(image, head.levels, head.n) {
        return Err(Blame::on(Reason::Table, a));
    }
    Ok(())
}

// 5 to 8, by the image's columns, and whether 9 would be given.
fn checked_columns(
    image: &[u8],
    head: Header,
    masks: &[u64],
    deadlines: &[u32],
    worst: &[u32],
) -> Result<Checked, Blame>
    requires { Opened image.now head × Columns image.now head.n masks.now deadlines.now worst.now }
    ensures { BodyAnswers (rest_checks image.now) image.now result }
{
    check_records(image, head, masks, deadlines)?;
    let Judgement { order, unfit } = order::judge(masks, deadlines, head.cycle, worst, 1, head.n)?;
    Ok(Checked {
        n: head.n,
        levels: head.levels,
        cycle: head.cycle,
        order,
        unfit,
    })
}

// The same, from the image itself.
fn checked_records(image: &[u8], head: Header) -> Result<Checked, Blame>
    requires { Opened image.now head }
    ensures { BodyAnswers (rest_checks image.now) image.now result }
{
    let mut masks = [0u64; 64];
    let mut deadlines = [0u32; 64];
    let mut worst = [0u32; 64];
    column::take_columns(
        image,
        head.levels,
        head.n,
        &mut masks,
        &mut deadlines,
        &mut worst,
    );
    checked_columns(image, head, &masks, &deadlines, &worst)
}

// The check up to 8, with what the image then says, which hands the verdict on 9 on: that of a body depends on how often it is repeated.
pub fn checked_body(image: &[u8]) -> Result<Checked, Blame>
    ensures { BodyAnswers (loop_checks image.now) image.now result }
{
    if image.len() < rules::HEADER_BYTES {
        return Err(Blame::from(Reason::Short));
    }
    let head = read::header(image);
    check_head(image, head)?;
    checked_records(image, head)
}

// The whole check, with what an accepted image says.
pub fn checked(image: &[u8]) -> Result<Checked, Blame>
    ensures { Judged image.now result }
{
    let found = checked_body(image);
    match found {
        Ok(checked) if checked.unfit => Err(Blame::from(Reason::Unfit)),
        _ => found,
    }
}
