// Runs each call at its edges: a case is a line of a file, told again with what came of it, to be read beside the rules. What begins with # is a
// heading.
#![tactic(auto)]

use std::io;
use std::rt::Files;

fn main(rt: HostRuntime) -> io::Result<()> {
    tell_file(&rt, b"profile.txt", |line| test_profile::tell(&rt, line))?;
    tell_file(&rt, b"run.txt", |line| test_run::tell(&rt, line))?;
    tell_file(&rt, b"cycle.txt", |line| test_cycle::tell(&rt, line))?;
    tell_file(&rt, b"frames.txt", |line| test_recording::tell(&rt, line))?;
    tell_file(&rt, b"bodies.txt", |line| test_repeat::tell(&rt, line))?;
    tell_file(&rt, b"speed.txt", |line| test_speed::tell(&rt, line))?;
    tell_file(&rt, b"averages.txt", |line| test_refresh::tell(&rt, line))
}

// Each line of a file, told without its newline.
fn tell_file<R: Files, F: FnMut(&[u8]) -> io::Result<()>>(
    rt: &R,
    name: &[u8],
    mut tell: F,
) -> io::Result<()>
    requires { F.IsAlwaysCallable tell }
{
    let mut buffer = [0u8; files::LARGE_BUFFER];
    let text = files::read_file(rt, name, &mut buffer)?;
    for line in text.split_inclusive(|b| *b == b'\n') {
        tell(line.strip_suffix(b"\n").unwrap_or(line))?;
    }
    Ok(())
}
