// Outside recordings, by the 2008 policy: NNN.profile is an image, NNN.recording a recording and NNN.rehearse what the rehearse program prints for both. They come with
// the request for recordings. Last, what it prints where a file is not there: it is empty, so that an image is refused as short, and a recording
// has no frames.
#![tactic(auto)]

ghost use Rattle.std.specs.Prelude.{◌≤◌, IfOk, length};

use std::io;
use std::rt::Files;
use test_kit::{Tally, case_name, read_case, says};

const CASES: usize = 27;

// A number that no file has.
const ABSENT: usize = 999;

// What the rehearse program prints for the profile of one case and the recording of another. Every text fits into a large buffer: what did not
// would stand on standard output.
fn rehearse<'a, R: Files + Print>(
    rt: &R,
    profile: usize,
    recording: usize,
    out: &'a mut [u8],
) -> io::Result<&'a [u8]>
    ensures { IfOk result (λ text. length text.now ≤ length out.old) }
{
    let mut buffer = [0u8; files::BUFFER];
    let image = read_case(rt, profile, b".profile", &mut buffer)?;
    let mut name = [0u8; 32];
    let mut recording = files::open(rt, case_name(recording, b".recording", &mut name));
    let k = rehearsal::rehearse(
        image,
        rules::POLICY_2008,
        &mut recording,
        &mut *out,
        &mut io::writer(rt),
    )?;
    Ok(&out[..k])
}

// Whether the text of a case is what its file says.
fn agrees<R: Files + Print>(rt: &R, case: usize) -> io::Result<bool> {
    let mut out = [0u8; files::LARGE_BUFFER];
    says(rt, case, b".rehearse", rehearse(rt, case, case, &mut out)?)
}

fn say_absent<R: Files + Print>(rt: &R) -> io::Result<()> {
    let mut out = [0u8; files::LARGE_BUFFER];
    let refused = rehearse(rt, ABSENT, 0, &mut out)?;
    rt.write_all(b"no profile: ")?;
    rt.write_all(refused)?;
    let none = rehearse(rt, 0, ABSENT, &mut out)?;
    rt.write_all(b"no recording: ")?;
    rt.write_all(none)
}

fn main(rt: HostRuntime) -> io::Result<()> {
    let mut recordings = Tally::new();
    for case in 0..CASES {
        recordings.tell(&rt, agrees(&rt, case)?, b"recording", case)?;
    }
    recordings.sum_up(&rt, b" recordings")?;
    say_absent(&rt)
}
