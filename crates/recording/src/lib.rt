// Recordings: an image is planned once, by a policy, and then frames are run dry over its tables one at a time, each from time 0, and counted.
//
// A recording is frames one after another, and nothing else. A frame is n by L durations, by position, then level, four bytes each, high byte
// first. No call takes more of a recording than its length and one frame.
#![tactic(auto)]

ghost use Rattle.std.specs.Prelude.{◌+◌, ◌-◌, ◌*◌, ◌/◌, ◌%◌, ◌≤◌, ◌<◌, ◌≡◌, true, false, [], ◌∷◌, ◌++◌, ◌≢◌};
ghost use Rattle.rules.specs.Numbers.{most_actions, most_frames, refused_turn, refused_trace, refused_policy};
ghost use Rattle.rules.specs.Reasons.{number, fault_of};
ghost use Rattle.rules.specs.Refusals.{◌when◌, First, Refuses, UnknownPolicy, image_checks};
ghost use Rattle.rules.specs.Run.{begun, ended};
ghost use Rattle.rules.specs.Dry.{cell, dry_call};
ghost use Rattle.rules.specs.Recording.{durations, with_frame, totals_fit};
ghost use Rattle.run.specs.Calls.{run_of};
ghost use Rattle.run.specs.Cycle.{Running};
ghost use Rattle.recording.specs.Recording.{LengthFits, opened, Opens, totals_of, told, line_told, counted, recorded_rooms, Rehearses};
ghost use Rattle.recording.specs.Cycle.{Waits, Cycling, Ends};

use image_fields::read;
use rules::{Blame, Fault, Reason, Refusal};
use run::Run;

// ---- the recording

// A recording opened: what the header says, the bytes of a frame, and how many frames there are.
#[derive(Clone, Copy)]
pub struct Recording {
    pub n: usize,
    pub levels: usize,
    pub frame_bytes: usize,
    pub frames: usize,
}

// The same laid flat for C, behind the refusal. With one all else is 0.
#[repr(C)]
#[derive(Clone, Copy)]
pub struct Opened {
    pub refusal: Fault,
    pub n: usize,
    pub levels: usize,
    pub frame_bytes: usize,
    pub frames: usize,
}

impl From<Result<Recording, Blame>> for Opened {
    ghost from_gives = { λ outcome flat. flat ≡ opened outcome };

    fn from(outcome: Result<Recording, Blame>) -> Self {
        match outcome {
            Ok(recording) => Opened {
                refusal: Fault::of(Ok(())),
                n: recording.n,
                levels: recording.levels,
                frame_bytes: recording.frame_bytes,
                frames: recording.frames,
            },
            Err(blame) => Opened {
                refusal: Fault::from(blame),
                n: 0,
                levels: 0,
                frame_bytes: 0,
                frames: 0,
            },
        }
    }
}

// Whether so many bytes are at most 4,096 whole frames of the counts in the header; no where there is no header, or a count is 0.
fn whole_frames(image: &[u8], bytes: usize) -> bool
    ensures { LengthFits image.now bytes result }
{
    if image.len() < rules::HEADER_BYTES {
        return false;
    }
    let header = read::header(image);
    let frame_bytes = header.n * header.levels * rules::DURATION_BYTES;
    if frame_bytes == 0 {
        return false;
    }
    (bytes % frame_bytes == 0) & (bytes / frame_bytes <= rules::MOST_FRAMES as usize)
}

// The refusal of a recording whose length is not that of its frames: the image's, then 20, else 14. It stays a function apart, since its check would
// take its place on the stack beside the plan, and the header says how much an opening takes.
#[inline(never)]
fn length_refusal(image: &[u8], policy: u32) -> Blame
    ensures { Refuses
        (image_checks image.now ++ (refused_policy when UnknownPolicy policy ∷ refused_trace when Unit {0} ∷ [])) (fault_of result) }
{
    if let Err(blame) = image_check::check(image) {
        return blame;
    }
    if let Err(reason) = planner::policy_refusal(policy) {
        return Blame::from(reason);
    }
    Blame::from(Reason::Trace)
}

// Plans an image by a policy for a recording of so many bytes. A refusal leaves the tables untouched, so the length is judged before planning,
// by what the header says: 14 comes after the image's refusals and 20, and before 17.
pub fn open(
    image: &[u8],
    policy: u32,
    bytes: usize,
    order: &mut [u8],
    limits: &mut [i32],
    worst: &mut [u32],
    bounds: &mut [i32],
) -> Result<Recording, Blame>
    ensures { Opens image.now policy bytes
        (record { order = order.old; limits = limits.old; worst = worst.old; bounds = bounds.old })
        (record { order = order.new; limits = limits.new; worst = worst.new; bounds = bounds.new }) (opened result) }
{
    if !whole_frames(image, bytes) {
        return Err(length_refusal(image, policy));
    }
    let counts = planner::plan(image, policy, order, limits, worst, bounds)?;
    let n = counts.n;
    let levels = counts.levels;
    let frame_bytes = n * levels * rules::DURATION_BYTES;
    Ok(Recording {
        n,
        levels,
        frame_bytes,
        frames: bytes / frame_bytes,
    })
}

// ---- a frame

// The totals over the frames run. A recording begins with all of them 0.
#[repr(C)]
#[derive(Clone, Copy)]
pub struct Totals {
    pub frames: u32,
    pub decisions: u32,
    pub overruns: u32,
    pub lates: u32,
}

// What a frame run comes to: the decisions made, the lowest level given, the clock at the end, and the two marks.
#[derive(Clone, Copy)]
pub struct Ran {
    pub decisions: u32,
    pub lowest: u32,
    pub end: u32,
    pub overrun: bool,
    pub late: bool,
}

// A frame run and counted: that, and the totals with it.
#[derive(Clone, Copy)]
pub struct Rehearsed {
    pub totals: Totals,
    pub ran: Ran,
}

// The line of a frame, laid flat for C: the refusal, and what it comes to. With a refusal that is 0 and no.
#[repr(C)]
#[derive(Clone, Copy)]
pub struct Line {
    pub refusal: Refusal,
    pub decisions: u32,
    pub lowest: u32,
    pub end: u32,
    pub overrun: bool,
    pub late: bool,
}

impl From<Result<Ran, Reason>> for Line {
    ghost from_gives = { λ outcome line. line ≡ line_told outcome };

    fn from(outcome: Result<Ran, Reason>) -> Self {
        match outcome {
            Ok(ran) => Line {
                refusal: Refusal { number: 0 },
                decisions: ran.decisions,
                lowest: ran.lowest,
                end: ran.end,
                overrun: ran.overrun,
                late: ran.late,
            },
            Err(reason) => Line {
                refusal: Refusal::from(reason),
                decisions: 0,
                lowest: 0,
                end: 0,
                overrun: false,
                late: false,
            },
        }
    }
}

// The totals after a frame, and its line.
#[derive(Clone, Copy)]
pub struct Counted {
    pub totals: Totals,
    pub line: Line,
}

impl Counted {
    // A refused frame counts in none.
    pub fn of(totals: Totals, outcome: Result<Rehearsed, Reason>) -> Self
        ensures { result ≡ counted totals outcome }
    {
        match outcome {
            Ok(rehearsed) => Counted {
                totals: rehearsed.totals,
                line: Line::from(Ok(rehearsed.ran)),
            },
            Err(reason) => Counted {
                totals,
                line: Line::from(Err(reason)),
            },
        }
    }
}

// Whether each field is in its range.
fn in_range(totals: Totals) -> bool
    ensures { result ≡ totals_fit (totals_of totals) }
{
    if rules::MOST_FRAMES < totals.frames {
        return false;
    }
    (totals.decisions <= rules::MOST_ACTIONS as u32 * totals.frames)
        & (totals.overruns <= totals.frames)
        & (totals.lates <= totals.frames)
}

// Out of range 11, a frame too many 14.
fn totals_refusal(totals: Totals) -> Result<(), Reason>
    ensures { First (refused_turn when (totals_fit (totals_of totals) ≢ true) ∷ refused_trace when (most_frames ≤ totals.frames) ∷ []) (number result) }
{
    if !in_range(totals) {
        return Err(Reason::Turn);
    }
    if rules::MOST_FRAMES <= totals.frames {
        return Err(Reason::Trace);
    }
    Ok(())
}

// A frame run more.
fn with_ran(totals: Totals, ran: Ran) -> Totals
    requires { (totals_fit (totals_of totals) ≡ true) × (totals.frames < most_frames) × (ran.decisions ≤ most_actions) }
    ensures { totals_of result ≡ with_frame (totals_of totals) (told ran) }
{
    Totals {
        frames: totals.frames + 1,
        decisions: totals.decisions + ran.decisions,
        overruns: totals.overruns + u32::from(ran.overrun),
        lates: totals.lates + u32::from(ran.late),
    }
}

// ---- a frame's refusals

// Counts 3, room 17, an entry too long 16.
fn frame_refusal(
    n: usize,
    levels: usize,
    limits: &[i32],
    worst: &[u32],
    bounds: &[i32],
    frame: &[u8],
) -> Result<(), Reason>
    ensures { First (dry_call n levels (durations frame.now) (recorded_rooms n levels
        (record { order = []; limits = limits.now; worst = worst.now; bounds = bounds.now }) frame.now)) (number result) }
{
    if !run::counts_fit(n, levels) {
        return Err(Reason::Count);
    }
    let cells = n * levels;
    if (limits.len() < cells)
        | (worst.len() < cells)
        | (bounds.len() < cells * rules::LONGEST_COAST)
        | (frame.len() < cells * rules::DURATION_BYTES)
    {
        return Err(Reason::Room);
    }
    if recording_bytes::all_short(frame, cells) {
        return Ok(());
    }
    Err(Reason::Duration)
}

// ---- a frame's cycle

// A cycle so far: its record, and the lowest level given.
#[derive(Clone, Copy)]
struct Cycled {
    run: Run,
    lowest: u32,
}

// The running action takes its duration at its level, read where it lies, and ends.
fn passed(run: Run, worst: &[u32], frame: &[u8]) -> Run
    requires { Running (record { order = []; limits = []; worst = worst.now; bounds = [] }) (durations frame.now) (run_of run) }
    ensures { run_of result ≡ ended (cell worst.now run.levels run.position run.level)
        (run.clock + cell (durations frame.now) run.levels run.position run.level) (run_of run) }
{
    let at = (run.position * run.levels + run.level) as usize;
    let duration = fields::be32(frame, at * rules::DURATION_BYTES);
    run.ended(worst[at], run.clock + duration)
}

// A decision and its coast, in a loop of its own. A coast keeps the level, so the lowest level decided is the lowest given.
fn stretch(from: Cycled, limits: &[i32], worst: &[u32], bounds: &[i32], frame: &[u8]) -> Cycled
    requires cycling { Cycling from.run.n from.run.levels (record { order = []; limits = limits.now; worst = worst.now; bounds = bounds.now })
        frame.now (run_of from.run) from.lowest }
    requires left_value { (from.run.left ≡ 0) × (from.run.position < from.run.n) }
    ensures cycling_2 { Cycling from.run.n from.run.levels
        (record { order = []; limits = limits.now; worst = worst.now; bounds = bounds.now })
        frame.now (run_of result.run) result.lowest }
    ensures left_value_2 { (result.run.left ≡ 0) × (result.run.n - result.run.position < from.run.n - from.run.position) }
{
    let begun = from.run;
    let decided = begun.decided(limits, bounds).run;
    let lowest = from.lowest.min(decided.level);
    let mut run = passed(decided, worst, frame);
    while 0 < run.left {
        run = passed(run.coasted(), worst, frame);
    }
    Cycled { run, lowest }
}

// A whole cycle, stretch by stretch. The lowest begins above every level.
fn cycle(
    n: usize,
    levels: usize,
    limits: &[i32],
    worst: &[u32],
    bounds: &[i32],
    frame: &[u8],
) -> Cycled
    requires { Waits (record { order = []; limits = limits.now; worst = worst.now; bounds = bounds.now }) frame.now (begun n levels 0) }
    ensures { Ends n levels (record { order = []; limits = limits.now; worst = worst.now; bounds = bounds.now })
        frame.now (run_of result.run) result.lowest }
{
    let run = run::begun(n as u32, levels as u32);
    let mut at = Cycled {
        run,
        lowest: rules::MOST_LEVELS as u32,
    };
    while at.run.position < at.run.n {
        at = stretch(at, limits, worst, bounds, frame);
    }
    at
}

// A frame run dry over the planned tables: its line, and the totals with it. A refused frame leaves the totals as they were.
pub fn rehearse(
    totals: Totals,
    n: usize,
    levels: usize,
    limits: &[i32],
    worst: &[u32],
    bounds: &[i32],
    frame: &[u8],
) -> Result<Rehearsed, Reason>
    ensures { Rehearses n levels (record { order = []; limits = limits.now; worst = worst.now; bounds = bounds.now })
        frame.now (totals_of totals) (counted totals result) }
{
    totals_refusal(totals)?;
    frame_refusal(n, levels, limits, worst, bounds, frame)?;
    let cycled = cycle(n, levels, limits, worst, bounds, frame);
    let last = cycled.run;
    let ran = Ran {
        decisions: last.decisions,
        lowest: cycled.lowest,
        end: last.clock,
        overrun: last.overrun,
        late: last.late,
    };
    Ok(Rehearsed {
        totals: with_ran(totals, ran),
        ran,
    })
}
