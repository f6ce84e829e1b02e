// Refreshing averages: the new image of an image and a trace, which differs in averages only.
#![tactic(auto)]

ghost use Rattle.std.specs.Prelude.{◌≡◌, ◌+◌, ◌*◌, ◌≤◌, length, get_or};
ghost use Rattle.rules.specs.Numbers.{most_levels};
ghost use Rattle.rules.specs.Words.{tab};
ghost use Rattle.rules.specs.Image.{record_bytes, record_at, worst_of, profile};
ghost use Rattle.rules.specs.Reasons.{number, fault};
ghost use Rattle.rules.specs.Refusals.{Accepted};
ghost use Rattle.fields.specs.Fields.{splice};
ghost use Rattle.image_fields.specs.Reading.{HasRecord, HasRecords};
ghost use Rattle.trace.specs.Trace.{cells, Tallied};
ghost use Rattle.refresh.specs.Refresh.{written_bytes, flat, Refreshes, Weighed, Ceiled, Renews, AllRenewed};

use image_fields::read;
use rules::{Blame, Fault, Reason};

// What a refresh answers to C: the refusal, and the bytes of the new image.
#[repr(C)]
#[derive(Clone, Copy, PartialEq, Eq)]
pub struct Refreshed {
    pub refusal: Fault,
    pub bytes: usize,
}

impl From<Result<usize, Blame>> for Refreshed {
    ghost from_gives = { λ outcome refreshed. refreshed ≡ flat outcome };

    fn from(outcome: Result<usize, Blame>) -> Self {
        match outcome {
            Ok(bytes) => Refreshed {
                refusal: Fault::of(Ok(())),
                bytes,
            },
            Err(blame) => Refreshed {
                refusal: Fault::from(blame),
                bytes: 0,
            },
        }
    }
}

// The call's own refusals: 14, then record by record 15 before 16, then 17, where `needed` bytes are needed of `room`. One pass over the
// trace, which leaves its tallies.
fn own_refusal(
    trace: &[u8],
    ceilings: &[u32; trace::CELLS],
    tallies: &mut [u64; trace::CELLS],
    needed: usize,
    room: usize,
) -> Result<(), Reason>
    requires { Tallied trace.now 0 tallies.old }
    ensures { Weighed trace.now ceilings.now needed room tallies.new (number result) }
{
    trace::trace_refusal(trace)?;
    trace::pass(trace, ceilings, tallies)?;
    if room < needed {
        return Err(Reason::Room);
    }
    Ok(())
}

// The first durations that are too long for action a, by level: one above its worst times.
fn ceiling_row(image: &[u8], levels: usize, a: usize, ceilings: &mut [u32; trace::CELLS])
    requires { HasRecord image.now levels a × (length ceilings.old ≡ cells) }
    ensures { ceilings.new ≡ splice ceilings.old (a * most_levels) (tab (λ q. worst_of image.now a q + 1) levels) }
{
    for q in 0..levels {
        ceilings[a * rules::MOST_LEVELS + q] = read::worst_at(image, levels, a, q) + 1;
    }
}

// Those of n actions, in a table that starts with none.
fn take_ceilings(image: &[u8], n: usize, levels: usize, ceilings: &mut [u32; trace::CELLS])
    requires { HasRecords image.now levels n × Ceiled image.now 0 levels ceilings.old }
    ensures { Ceiled image.now n levels ceilings.new }
{
    for a in 0..n {
        ceiling_row(image, levels, a, ceilings);
    }
}

// The new averages of action a, over the old ones of its record, of which `out` has a copy.
fn put_averages(
    image: &[u8],
    levels: usize,
    a: usize,
    tallies: &[u64; trace::CELLS],
    out: &mut [u8],
)
    requires { HasRecord image.now levels a × (record_at levels a + record_bytes levels ≤ length out.old) }
    ensures { Renews image.now a tallies.now out.old out.new }
{
    let start = read::record_at(levels, a) + rules::AVERAGE_AT;
    let mut last = 0;
    for q in 0..levels {
        let average = read::average_at(image, levels, a, q);
        last = trace::raised(last, tallies[a * rules::MOST_LEVELS + q], average);
        fields::put_be(out, start + q * rules::LEVEL_BYTES, last, 3);
    }
}

// The new averages of n actions, over the old ones of an image of which `out` has a copy.
fn renew(image: &[u8], n: usize, levels: usize, tallies: &[u64; trace::CELLS], out: &mut [u8])
    requires { HasRecords image.now levels n × (length image.now ≤ length out.old) }
    ensures { AllRenewed image.now n tallies.now out.old out.new }
{
    for a in 0..n {
        put_averages(image, levels, a, tallies, out);
    }
}

// Copies the image to the start of `out`, byte by byte: the library's copy calls memmove here, and the archive needs memcpy and memset alone.
fn copy_image(image: &[u8], out: &mut [u8])
    requires { length image.now ≤ length out.old }
    ensures { out.new ≡ splice out.old 0 (tab (λ k. get_or image.now k 0) (length image.now)) }
{
    for k in 0..image.len() {
        out[k] = image[k];
    }
}

// Of an accepted image: it is copied, and its averages become the new ones.
fn refresh_accepted(
    image: &[u8],
    n: usize,
    levels: usize,
    trace: &[u8],
    out: &mut [u8],
) -> Result<usize, Blame>
    requires { Accepted image.now × (n ≡ (profile image.now).n) × (levels ≡ (profile image.now).levels) }
    ensures { Refreshes image.now trace.now out.old out.new (fault result) (written_bytes result) }
{
    let mut ceilings = [0u32; trace::CELLS];
    take_ceilings(image, n, levels, &mut ceilings);
    let mut tallies = [0u64; trace::CELLS];
    let bytes = image.len();
    own_refusal(trace, &ceilings, &mut tallies, bytes, out.len())?;
    copy_image(image, out);
    renew(image, n, levels, &tallies, out);
    Ok(bytes)
}

// Writes the new image to `out`, and answers its bytes. A refusal leaves `out` untouched, and what it has beyond the new image stays.
pub fn refresh(image: &[u8], trace: &[u8], out: &mut [u8]) -> Result<usize, Blame>
    ensures { Refreshes image.now trace.now out.old out.new (fault result) (written_bytes result) }
{
    let checked = image_check::whole::checked(image)?;
    refresh_accepted(image, checked.n, checked.levels, trace, out)
}
