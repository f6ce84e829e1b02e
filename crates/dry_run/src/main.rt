// The dry-run program: an image from the file `profile` and durations, four bytes each, high byte first, from `durations`. Its one argument is the
// policy's year, 2008 without it.
#![tactic(auto)]

use files::read_file;
use std::io;

fn main(rt: HostRuntime) -> io::Result<()> {
    let Ok(policy) = arguments::year(&rt, 1) else {
        return arguments::usage(&rt.stderr(), b"usage: dry_run [YEAR]\n");
    };
    let mut buffer = [0u8; files::BUFFER];
    let image = read_file(&rt, b"profile", &mut buffer)?;
    let mut bytes = [0u8; files::BUFFER];
    let durations = read_file(&rt, b"durations", &mut bytes)?;
    let mut out = [0u8; files::LARGE_BUFFER];
    let k = print::dry_text(image, policy, durations, &mut out);
    rt.write_all(&out[..k])
}
