// The speed reading for a host. An enum does not cross to C, so its cases are laid flat.
ghost use Rattle.std.specs.Prelude.{◌≡◌};
ghost use Rattle.speed_stretch.specs.Answer.{reading_of};
ghost use Rattle.speed.specs.Speed.{Tells};
ghost use Rattle.nyokazerubi.specs.Flat.{read_of, ReadsFlat};

use rules::Fault;
use speed_stretch::Reading;

// The refusal, and without one whether it is spent, and else the ratio. What does not count is 0 or no.
#[repr(C)]
#[derive(Clone, Copy)]
pub struct Read {
    pub refusal: Fault,
    pub spent: bool,
    pub ratio: f64,
}

impl From<Reading> for Read {
    ghost from_gives = { λ reading read. read ≡ read_of (reading_of reading) };

    fn from(reading: Reading) -> Self {
        let none = Fault::of(Ok(()));
        match reading {
            Reading::Ratio(ratio) => Read {
                refusal: none,
                spent: false,
                ratio,
            },
            Reading::Spent => Read {
                refusal: none,
                spent: true,
                ratio: 0.0,
            },
            Reading::Refused(refusal) => Read {
                refusal,
                spent: false,
                ratio: 0.0,
            },
        }
    }
}

pub fn nyokazerubi_speed_reading(
    image: &[u8],
    first: usize,
    last: usize,
    level: usize,
    t: u32,
) -> Read
    ensures { ReadsFlat image.now first last level t result }
{
    Read::from(speed::speed_reading(image, first, last, level, t))
}

pub fn nyokazerubi_on_time(image: &[u8], first: usize, last: usize, level: usize, t: u32) -> bool
    ensures { Tells image.now first last level t result }
{
    speed::on_time(image, first, last, level, t)
}
