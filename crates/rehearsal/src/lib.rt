// A recording tried against a profile: what the rehearse program does. Frames are read one at a time into one buffer, and the text leaves whenever
// the lent buffer is full, so that nothing grows with the recording.
#![tactic(auto)]

ghost use Rattle.std.specs.Prelude.{◌≤◌, ◌≡◌, ◌-◌, ◌^◌, None, IfSome, OnErr, length};
ghost use Rattle.std.specs.Io.{ReadsAtMost};
ghost use Rattle.io.specs.Counts.{IsPrefixLen};

use recording::{Counted, Recording, Totals};
use rules::Fault;
use std::io;
use std::io::{Read, Seek, Write};

// No line is longer: that of the totals is four numbers of 32 bits, up to ten digits each, with three spaces and the newline. That of a frame is
// three such numbers and two marks, with four spaces and the newline.
const LONGEST_LINE: usize = 44;

// Where a line can begin: where `out` has no room left for the longest one, what is in it is written to `to`, and it is begun anew.
fn line_at<W: Write>(out: &[u8], at: usize, to: &mut W) -> io::Result<usize>
    requires { IsPrefixLen at out.now }
    ensures { ReadsAtMost result out.now }
{
    if LONGEST_LINE <= out.len() - at {
        return Ok(at);
    }
    to.write_all(&out[..at])?;
    Ok(0)
}

// How much of a recording there is at the start of `out`; an absent one is empty.
fn read_from<S: Read>(recording: &mut Option<S>, out: &mut [u8]) -> io::Result<usize>
    ensures in_bounds { ReadsAtMost result out.new }
    ensures err { OnErr result (length out.new ≡ length out.old) }
{
    match recording {
        Some(recording) => files::read_full(recording, out),
        None => Ok(0),
    }
}

// The next frame of the recording, read into `frame` and run. A file that was cut short meanwhile leaves a frame too short, which is refused.
fn next_frame<S: Read>(
    opened: &Recording,
    limits: &[i32],
    worst: &[u32],
    bounds: &[i32],
    totals: Totals,
    recording: &mut Option<S>,
    frame: &mut [u8],
) -> io::Result<Counted>
    requires { opened.now.frame_bytes ≤ length frame.old }
{
    let bytes = opened.frame_bytes;
    let read = read_from(recording, &mut frame[..bytes])?;
    let outcome = recording::rehearse(
        totals,
        opened.n,
        opened.levels,
        limits,
        worst,
        bounds,
        &frame[..read],
    );
    Ok(Counted::of(totals, outcome))
}

// The totals before the first frame.
fn no_totals() -> Totals {
    Totals {
        frames: 0,
        decisions: 0,
        overruns: 0,
        lates: 0,
    }
}

// A line for each frame, then the totals.
fn rehearse_frames<S: Read, W: Write>(
    opened: &Recording,
    limits: &[i32],
    worst: &[u32],
    bounds: &[i32],
    recording: &mut Option<S>,
    out: &mut [u8],
    to: &mut W,
) -> io::Result<usize>
    requires { opened.now.frame_bytes ≤ 2048 }
    ensures in_bounds { ReadsAtMost result out.new }
    ensures err { OnErr result (length out.new ≡ length out.old) }
{
    // room for a frame of the greatest profile: 64 actions at 8 levels, four bytes each
    let mut frame = [0u8; 2048];
    let mut totals = no_totals();
    let mut at = 0;
    for _k in 0..opened.frames {
        let counted = next_frame(opened, limits, worst, bounds, totals, recording, &mut frame)?;
        let start = line_at(&*out, at, to)?;
        at = print_lines::put_line(&mut *out, start, counted.line);
        totals = counted.totals;
    }
    let start = line_at(&*out, at, to)?;
    Ok(print_lines::put_totals(out, start, totals))
}

// By which length a recording is judged: one that cannot be told is taken for a length that no recording has, so that it is refused before any of it
// is read, and not taken for empty.
fn judged_length(length: Option<usize>) -> usize
    ensures told { IfSome length (λ n. result ≡ n) }
    ensures untold { length ≡ None → result ≡ 2 ^ 64 - 1 }
{
    length.unwrap_or(usize::MAX)
}

// The text of a recording, none being an absent file, against an image by a policy. What does not fit into `out` is written to `to`; the answer is
// how much of `out` is still to be written.
pub fn rehearse<S: Read + Seek, W: Write>(
    image: &[u8],
    policy: u32,
    recording: &mut Option<S>,
    out: &mut [u8],
    to: &mut W,
) -> io::Result<usize>
    ensures in_bounds { ReadsAtMost result out.new }
    ensures err { OnErr result (length out.new ≡ length out.old) }
{
    let mut order = [0u8; 64];
    let mut limits = [0i32; 512];
    let mut worst = [0u32; 512];
    let mut bounds = [0i32; 8192];
    let opened = recording::open(
        image,
        policy,
        judged_length(files::file_length(&mut *recording)),
        &mut order,
        &mut limits,
        &mut worst,
        &mut bounds,
    );
    match opened {
        Ok(opened) => rehearse_frames(&opened, &limits, &worst, &bounds, recording, out, to),
        Err(blame) => Ok(print_lines::put_fault(out, 0, Fault::from(blame))),
    }
}
