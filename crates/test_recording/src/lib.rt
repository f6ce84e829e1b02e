// Recordings at their edges: opened by their length, and frames on totals at each edge, over tables and frames of odd lengths. A case is told again
// with what came of it.
#![tactic(auto)]

ghost use Rattle.std.specs.Prelude.{◌<◌, ◌≡◌, length};

use recording::{Counted, Recording, Totals};
use rules::Blame;
use std::io;
use std::rt::Files;
use test_kit::{count, part, say, say_number, say_refusal};

// A recording to be opened begins with the name of its profile, a frame with `frame` or the file of an image; what begins with # is a heading.
pub fn tell<R: Files + Print>(rt: &R, line: &[u8]) -> io::Result<()> {
    rt.write_all(line)?;
    match line {
        [b'#', ..] => {}
        [b'f', ..] => tell_frame(rt, test_kit::numbers(line))?,
        [b't', ..] => tell_twice(rt, line)?,
        _ => tell_open(rt, line)?,
    }
    rt.write_all(b"\n")
}

// ---- opened

// A profile, the bytes of the recording, how much there is of order, limits, worst times and bounds, and the year.
fn tell_open<R: Print>(rt: &R, line: &[u8]) -> io::Result<()> {
    let mut buffer = [0u8; 78];
    let image = test_kit::sample(line, &mut buffer);
    open(rt, image, test_kit::numbers(line))
}

fn open<R: Print>(rt: &R, image: &[u8], row: [u32; 24]) -> io::Result<()> {
    let mut order = [9u8; 3];
    let mut limits = [9i32; 6];
    let mut worst = [9u32; 6];
    let mut bounds = [9i32; 96];
    let opened = recording::open(
        image,
        test_kit::year(row[5]),
        count(row[0]),
        &mut order[..part(row[1], 3)],
        &mut limits[..part(row[2], 6)],
        &mut worst[..part(row[3], 6)],
        &mut bounds[..part(row[4], 96)],
    );
    say_opened(rt, opened)?;
    say(
        rt,
        b", untouched _ _ _ _",
        &[
            u32::from(order[0] == 9),
            u32::from(limits[0] == 9),
            u32::from(worst[0] == 9),
            u32::from(bounds[0] == 9),
        ],
    )
}

// What is said of a recording that is refused.
const NOTHING: Recording = Recording {
    n: 0,
    levels: 0,
    frame_bytes: 0,
    frames: 0,
};

fn say_opened<R: Print>(rt: &R, opened: Result<Recording, Blame>) -> io::Result<()> {
    say_refusal(rt, b": refusal ", &opened)?;
    let recording = opened.unwrap_or(NOTHING);
    say_number(rt, b", n ", recording.n)?;
    say_number(rt, b", levels ", recording.levels)?;
    say_number(rt, b", a frame of ", recording.frame_bytes)?;
    say_number(rt, b", frames ", recording.frames)
}

// ---- frames

// The totals, n and levels, how much there is of limits, worst times and bounds, all of Three, the bytes of the frame, and its durations.
fn tell_frame<R: Print>(rt: &R, row: [u32; 24]) -> io::Result<()> {
    let totals = Totals {
        frames: row[0],
        decisions: row[1],
        overruns: row[2],
        lates: row[3],
    };
    let image = test_kit::samples::three();
    let mut order = [0u8; 3];
    let mut limits = [0i32; 6];
    let mut worst = [0u32; 6];
    let mut bounds = [0i32; 96];
    let _ = planner::plan(
        &image,
        rules::POLICY_2008,
        &mut order,
        &mut limits,
        &mut worst,
        &mut bounds,
    );
    rehearse(
        rt,
        totals,
        &limits[..part(row[6], 6)],
        &worst[..part(row[7], 6)],
        &bounds[..part(row[8], 96)],
        row,
    )
}

fn rehearse<R: Print>(
    rt: &R,
    totals: Totals,
    limits: &[i32],
    worst: &[u32],
    bounds: &[i32],
    row: [u32; 24],
) -> io::Result<()> {
    let frame = frame_of(row, 10, 1);
    let outcome = recording::rehearse(
        totals,
        count(row[4]),
        count(row[5]),
        limits,
        worst,
        bounds,
        &frame[..part(row[9], 256)],
    );
    say_counted(rt, Counted::of(totals, outcome))
}

fn say_counted<R: Print>(rt: &R, counted: Counted) -> io::Result<()> {
    let line = counted.line;
    let totals = counted.totals;
    say_number(rt, b": refusal ", line.refusal.number)?;
    say(
        rt,
        b", line _ _ _ _ _",
        &[
            line.decisions,
            line.lowest,
            line.end,
            u32::from(line.overrun),
            u32::from(line.late),
        ],
    )?;
    say(
        rt,
        b", totals _ _ _ _",
        &[
            totals.frames,
            totals.decisions,
            totals.overruns,
            totals.lates,
        ],
    )
}

// The file of an image, and durations by position, the same at each level: that frame twice, one after the other.
fn tell_twice<R: Files + Print>(rt: &R, line: &[u8]) -> io::Result<()> {
    let name = text::words::find(line, 0, b' ');
    let mut buffer = [0u8; files::BUFFER];
    let image = files::read_file(rt, &line[..name], &mut buffer)?;
    open_and_tell(rt, image, test_kit::numbers(line))
}

// An empty recording opens the image as well as any.
fn open_and_tell<R: Print>(rt: &R, image: &[u8], row: [u32; 24]) -> io::Result<()> {
    let mut order = [0u8; 64];
    let mut limits = [0i32; 512];
    let mut worst = [0u32; 512];
    let mut bounds = [0i32; 8192];
    let opened = recording::open(
        image,
        rules::POLICY_2008,
        0,
        &mut order,
        &mut limits,
        &mut worst,
        &mut bounds,
    );
    let Recording { n, levels, .. } = opened.unwrap_or(NOTHING);
    let frame = frame_of(row, 0, levels);
    let mut totals = Totals {
        frames: 0,
        decisions: 0,
        overruns: 0,
        lates: 0,
    };
    for _ in 0..2 {
        let outcome = recording::rehearse(totals, n, levels, &limits, &worst, &bounds, &frame);
        let counted = Counted::of(totals, outcome);
        totals = counted.totals;
        say_counted(rt, counted)?;
    }
    Ok(())
}

// A frame of 64 durations: those of a row from one of its numbers on, each as often as there are levels.
fn frame_of(row: [u32; 24], from: usize, levels: usize) -> [u8; 256]
    requires { from < 24 }
    ensures { 256 ≡ length result }
{
    let mut frame = [0u8; 256];
    fill(&mut frame, row, from, levels);
    frame
}

fn fill(frame: &mut [u8], row: [u32; 24], from: usize, levels: usize)
    requires { from < 24 }
{
    if levels == 0 {
        return;
    }
    for k in 0..frame.len() / rules::DURATION_BYTES {
        let at = k * rules::DURATION_BYTES;
        fields::put_be(frame, at, u64::from(duration(row, from, k / levels)), 4);
    }
}

fn duration(row: [u32; 24], from: usize, position: usize) -> u32
    requires { from < 24 }
{
    row[from..].get(position).copied().unwrap_or(0)
}
