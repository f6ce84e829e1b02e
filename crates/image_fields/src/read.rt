// The fields of an image: of the header, and of an action's record.
ghost use Rattle.std.specs.Prelude.{◌≡◌, ◌≤◌, ◌<◌, length};
ghost use Rattle.rules.specs.Numbers.{most_actions, most_levels};
ghost use Rattle.rules.specs.Image.{due, profile, record_at, mask_of, deadline_of, spare_of, average_of, worst_of};
ghost use Rattle.image_fields.specs.Reading.{HeaderOf, HasRecord};

use crate::Header;

pub fn header(image: &[u8]) -> Header
    requires { 6 ≤ length image.now }
    ensures { HeaderOf image.now result }
{
    let bits = fields::big_endian::<6>(image, 0);
    Header {
        version: (bits / rules::VERSION_WORTH) as u32,
        n: (bits / rules::ACTIONS_WORTH % rules::ACTIONS_SAID) as usize,
        levels: (bits / rules::LEVELS_WORTH % rules::LEVELS_SAID) as usize,
        cycle: (bits / rules::CYCLE_WORTH % rules::CYCLE_SAID) as u32,
        spare: (bits % rules::CYCLE_WORTH) as u32,
    }
}

// Where the record of an action starts; that of action n would start where the image ends.
pub fn record_at(levels: usize, a: usize) -> usize
    requires { (levels ≤ most_levels) × (a ≤ most_actions) }
    ensures { result ≡ record_at levels a }
{
    rules::HEADER_BYTES + a * (rules::HEAD_BYTES + rules::LEVEL_BYTES * levels)
}

// The fields of the record of action a, by the image's levels.

pub fn mask_at(image: &[u8], levels: usize, a: usize) -> u64
    requires { HasRecord image.now levels a }
    ensures { result ≡ mask_of image.now a }
{
    fields::big_endian::<8>(image, record_at(levels, a))
}

pub fn deadline_at(image: &[u8], levels: usize, a: usize) -> u32
    requires { HasRecord image.now levels a }
    ensures { result ≡ deadline_of image.now a }
{
    fields::be32(image, record_at(levels, a) + rules::DEADLINE_AT) / rules::DEADLINE_WORTH
}

// The deadline as it counts: 0 stands for the cycle.
pub fn due_at(image: &[u8], levels: usize, a: usize, cycle: u32) -> u32
    requires { HasRecord image.now levels a × (cycle ≡ (profile image.now).cycle) }
    ensures { result ≡ due (profile image.now) a }
{
    let deadline = deadline_at(image, levels, a);
    if deadline == 0 { cycle } else { deadline }
}

pub fn spare_at(image: &[u8], levels: usize, a: usize) -> u32
    requires { HasRecord image.now levels a }
    ensures { result ≡ spare_of image.now a }
{
    fields::be32(image, record_at(levels, a) + rules::DEADLINE_AT) % rules::DEADLINE_WORTH
}

// The two columns of times each have a function: a common one would add a contract to these two, and save none of their lines.

pub fn average_at(image: &[u8], levels: usize, a: usize, q: usize) -> u32
    requires { HasRecord image.now levels a × (q < levels) }
    ensures { result ≡ average_of image.now a q }
{
    fields::be24(
        image,
        record_at(levels, a) + rules::AVERAGE_AT + rules::LEVEL_BYTES * q,
    )
}

pub fn worst_at(image: &[u8], levels: usize, a: usize, q: usize) -> u32
    requires { HasRecord image.now levels a × (q < levels) }
    ensures { result ≡ worst_of image.now a q }
{
    fields::be24(
        image,
        record_at(levels, a) + rules::WORST_AT + rules::LEVEL_BYTES * q,
    )
}
