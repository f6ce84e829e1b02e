// The repeat_plan program: a body's image on standard input, and as its arguments how often it is done and the policy's year, 2008 without it; n, L,
// cycle and N, then for each unrolled position its number, its action and its limits by level. A first argument that is no number is 0, which is out of
// the range of N.
#![tactic(auto)]

use std::io;

fn main(rt: HostRuntime) -> io::Result<()> {
    let Ok(policy) = arguments::year(&rt, 2) else {
        return arguments::usage(&rt.stderr(), b"usage: repeat_plan N [YEAR]\n");
    };
    let mut word = [0u8; 64];
    let repeats = text::words::whole_number(arguments::word(&rt, 1, &mut word));
    let mut image = [0u8; files::BUFFER];
    let n = files::read_full(&mut rt.stdin(), &mut image)?;
    let mut out = [0u8; files::LARGE_BUFFER];
    let end = repeat_text::plan_text(&image[..n], repeats, policy, &mut out, &mut rt.stdout())?;
    rt.write_all(&out[..end])
}
