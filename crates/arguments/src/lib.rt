// What a program's arguments say of the policy: its year, 2008 where they say none.
#![tactic(auto)]

ghost use Rattle.std.specs.Prelude.{◌≡◌, ◌≤◌, length};
ghost use Rattle.arguments.specs.Year.{said_year};

use std::env::{Env, FillError};
use std::io;

// The year of a program that was started with `count` arguments, its own name among them, where argument `at` is `word`. Any number is a policy to ask
// for, so that one that is unknown is refused at its place among the refusals. A word that is no number, and an argument after the year, are not
// understood: what they say of it then is the error.
pub fn said(count: usize, at: usize, word: &[u8]) -> Result<u32, u32>
    ensures { result ≡ said_year count at word.now }
{
    if count <= at {
        return Ok(rules::POLICY_2008);
    }
    let policy = text::words::whole_number(word);
    if at + 1 < count {
        return Err(policy);
    }
    if text::words::is_number(word) {
        Ok(policy)
    } else {
        Err(policy)
    }
}

// An argument has fewer bytes on Linux for x86-64, where the programs run.
const WORD: usize = 131_072;

// How many arguments the program was started with, its own name among them.
fn count<E: Env>(rt: &E) -> usize {
    for at in 0..usize::MAX {
        if let Err(FillError::NotPresent) = rt.arg(at, &mut []) {
            return at;
        }
    }
    usize::MAX
}

// The bytes of the program's argument `at`, put into `out`: none where it is missing or longer than `out`.
pub fn word<'a, E: Env>(rt: &E, at: usize, out: &'a mut [u8]) -> &'a [u8]
    ensures { length result.now ≤ length out.old }
{
    let n = rt.arg(at, &mut *out).unwrap_or(0);
    &out[..n]
}

// The year of this program, which its argument `at` says and none follows; an error where they are not understood.
pub fn year<E: Env>(rt: &E, at: usize) -> Result<u32, u32> {
    let mut bytes = [0u8; WORD];
    said(count(rt), at, word(rt, at, &mut bytes))
}

// How the program is called, told on standard error where its arguments are not understood.
pub fn usage<P: Print>(to: &P, line: &[u8]) -> io::Result<()> {
    to.write_all(line)
}
