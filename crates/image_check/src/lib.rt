// The check of a profile image, refusals 1 to 9.
#![tactic(auto)]

use rules::Blame;

pub mod whole;

ghost use Rattle.rules.specs.Reasons.{fault};
ghost use Rattle.rules.specs.Refusals.{Refuses, image_checks};

// What the whole check finds: what the header says, the n actions in order, then 0, and of a check that does not give 9 whether it would be given.
#[derive(Clone, Copy)]
pub struct Checked {
    pub n: usize,
    pub levels: usize,
    pub cycle: u32,
    pub order: [u8; 64],
    pub unfit: bool,
}

// The check of an image: refusals 1 to 9, in this order, over the whole image.
pub fn check(image: &[u8]) -> Result<(), Blame>
    ensures { Refuses (image_checks image.now) (fault result) }
{
    whole::checked(image)?;
    Ok(())
}
