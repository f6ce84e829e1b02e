// Bytes from a reader or a file, put into a buffer, and how long a file is.
#![tactic(auto)]

ghost use Rattle.std.specs.Prelude.{◌≡◌, ◌≤◌, ◌<◌, None, Some, IfSome, IfOk, OnErr, length, take, IsUtf8};
ghost use Rattle.std.specs.Io.{ReadsAtMost};
ghost use Rattle.std.specs.Io.KnownBytes.{Consumes, IsAtEnd};

use std::io::{Read, Seek, SeekFrom};
use std::rt::Files;
use std::{fs, io};

// Reads until `out` is full or the input ends, and answers how many bytes are at the start of `out`: those that come next.
pub fn read_full<R: Read>(from: &mut R, out: &mut [u8]) -> io::Result<usize>
    ensures in_bounds { ReadsAtMost result out.new }
    ensures bytes { IfOk result (λ n. Consumes (R.remaining from.old) (R.remaining from.new) (take n out.new)) }
    ensures end { IfOk result (λ n. n < length out.new → IsAtEnd (R.remaining from.new)) }
    ensures err { OnErr result (length out.new ≡ length out.old) }
{
    let mut done = 0;
    while done < out.len() {
        let n = from.read(&mut out[done..])?;
        if n == 0 {
            break;
        }
        done += n;
    }
    Ok(done)
}

// The file of that name, to be read; none where it cannot be opened, as one that is absent.
pub fn open<R: Files>(rt: &R, name: &[u8]) -> Option<R::File>
    ensures { ¬ (IsUtf8 name.now) → result ≡ None }
{
    let path = str::from_utf8(name).ok()?;
    fs::open(rt, path).ok()
}

// What there is of the file, as much as `out` has room for; an absent file is empty. Where reading fails, `out` has any bytes.
pub fn read_file<'a, R: Files>(rt: &R, name: &[u8], out: &'a mut [u8]) -> io::Result<&'a [u8]>
    ensures { IfOk result (λ text. length text.now ≤ length out.old) }
{
    let n = match open(rt, name) {
        Some(mut file) => read_full(&mut file, &mut *out)?,
        None => 0,
    };
    Ok(&out[..n])
}

// How many bytes there are to be read of a file, from its start on: the position goes to the end and back. An absent file is empty. A pipe cannot
// tell, and neither can a file that does not go back: then there is none, so that what it has is not taken for empty.
pub fn file_length<S: Seek>(file: &mut Option<S>) -> Option<usize>
    ensures absent { file.old ≡ None → result ≡ Some 0 }
    ensures known { IfSome file.old (λ s. IfSome (S.stream_position s) (λ _. IfSome (S.stream_bytes s) (λ xs. IfSome result (λ n. n ≡ length xs)))) }
{
    let Some(file) = file else {
        return Some(0);
    };
    let end = file.seek(SeekFrom::End(0)).ok()?;
    file.rewind().ok()?;
    Some(end as usize)
}

// ---- how long the buffers of the programs are

// An image has at most 3,846 bytes.
pub const BUFFER: usize = 4_096;
// What the programs print of an image.
pub const LARGE_BUFFER: usize = 65_536;
// A trace of one record too many has 327,680 bytes.
pub const LONG_BUFFER: usize = 400_000;
