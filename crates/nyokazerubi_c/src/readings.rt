// The speed reading.
ghost use Rattle.speed.specs.Speed.{Tells};
ghost use Rattle.nyokazerubi.specs.Flat.{ReadsFlat};

use nyokazerubi::readings::Read;

#[unsafe(no_mangle)]
pub extern "C" fn nyokazerubi_speed_reading(
    image: &[u8],
    first: usize,
    last: usize,
    level: usize,
    t: u32,
) -> Read
    ensures { ReadsFlat image.now first last level t result }
{
    nyokazerubi::readings::nyokazerubi_speed_reading(image, first, last, level, t)
}

#[unsafe(no_mangle)]
pub extern "C" fn nyokazerubi_on_time(
    image: &[u8],
    first: usize,
    last: usize,
    level: usize,
    t: u32,
) -> bool
    ensures { Tells image.now first last level t result }
{
    nyokazerubi::readings::nyokazerubi_on_time(image, first, last, level, t)
}
