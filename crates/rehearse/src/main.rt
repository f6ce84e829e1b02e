// The rehearse program: an image from the file `profile` and a recording, which is frames one after another, from `recording`. Its one argument is
// the policy's year, 2008 without it. A line for each frame, and one of totals after them.
#![tactic(auto)]

use files::read_file;
use std::io;

fn main(rt: HostRuntime) -> io::Result<()> {
    let Ok(policy) = arguments::year(&rt, 1) else {
        return arguments::usage(&rt.stderr(), b"usage: rehearse [YEAR]\n");
    };
    let mut buffer = [0u8; files::BUFFER];
    let image = read_file(&rt, b"profile", &mut buffer)?;
    let mut recording = files::open(&rt, b"recording");
    let mut out = [0u8; files::BUFFER];
    let k = rehearsal::rehearse(image, policy, &mut recording, &mut out, &mut rt.stdout())?;
    rt.write_all(&out[..k])
}
