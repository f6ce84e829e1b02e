// The plan program: an image on standard input, and as its one argument the policy's year, 2008 without it; actions, levels, cycle, then position,
// action and limits by level.
#![tactic(auto)]

use std::io;

fn main(rt: HostRuntime) -> io::Result<()> {
    let Ok(policy) = arguments::year(&rt, 1) else {
        return arguments::usage(&rt.stderr(), b"usage: plan [YEAR]\n");
    };
    let mut image = [0u8; files::BUFFER];
    let n = files::read_full(&mut rt.stdin(), &mut image)?;
    let mut out = [0u8; files::LARGE_BUFFER];
    let k = print::plan_text(&image[..n], policy, &mut out);
    rt.write_all(&out[..k])
}
