// The calls on a profile at their edges: each refusal with a neighbour that is accepted, Three read and written back, and writings one step apart.
// A case is told again with what came of it.
#![tactic(auto)]

use profile::Tables;
use rules::Counts;
use std::io;
use test_kit::{UNTOUCHED, count, part, say, say_number, say_refusal, say_tail};

// A case begins with the letter of its call; what begins with none is a heading.
pub fn tell<R: Print>(rt: &R, line: &[u8]) -> io::Result<()> {
    let row = test_kit::numbers(line);
    rt.write_all(line)?;
    match line {
        [b'c', ..] => tell_check(rt, row)?,
        [b'l', ..] => tell_lookup(rt, row)?,
        [b'r', ..] => tell_read(rt, row)?,
        [b'w', ..] => tell_write(rt, row)?,
        _ => {}
    }
    rt.write_all(b"\n")
}

// ---- One

// How much of it there is, and a byte that is changed.
fn tell_check<R: Print>(rt: &R, row: [u32; 24]) -> io::Result<()> {
    let image = one_but(row[1], row[2]);
    let checked = profile::check(&image[..part(row[0], 24)]);
    say_refusal(rt, b": ", &checked)
}

fn one_but(at: u32, byte: u32) -> [u8; 24] {
    let mut image = test_kit::samples::one();
    if at < 24 && byte < 256 {
        image[at as usize] = byte as u8;
    }
    image
}

// The number of a lookup, and how many bytes the action's own part of the image has.
fn tell_lookup<R: Print>(rt: &R, row: [u32; 24]) -> io::Result<()> {
    let image = test_kit::samples::one();
    let action = count(row[0]);
    say_refusal(rt, b": ", &profile::lookup_refusal(&image, action))?;
    say_number(rt, b", bytes ", profile::lookup(&image, action).len())
}

// ---- Three

// The room for masks, deadlines, averages and worst times: 9 is untouched.
fn tell_read<R: Print>(rt: &R, row: [u32; 24]) -> io::Result<()> {
    let mut masks = [9u64; 3];
    let mut deadlines = [9u32; 3];
    let mut averages = [9u32; 6];
    let mut worst = [9u32; 6];
    let image = test_kit::samples::three();
    let read = profile::read(
        &image,
        &mut masks[..part(row[0], 3)],
        &mut deadlines[..part(row[1], 3)],
        &mut averages[..part(row[2], 6)],
        &mut worst[..part(row[3], 6)],
    );
    say_refusal(rt, b": ", &read)?;
    say_tables(rt, masks, deadlines, averages, worst)?;
    say_back(
        rt,
        read.unwrap_or(NOTHING),
        &masks,
        &deadlines,
        &averages,
        &worst,
    )
}

// What is written back where nothing was read.
const NOTHING: Counts = Counts {
    n: 0,
    levels: 0,
    cycle: 0,
};

fn say_tables<R: Print>(
    rt: &R,
    masks: [u64; 3],
    deadlines: [u32; 3],
    averages: [u32; 6],
    worst: [u32; 6],
) -> io::Result<()> {
    say_masks(rt, masks)?;
    say(rt, b", deadlines _ _ _", &deadlines)?;
    say(rt, b", averages _ _ _ _ _ _", &averages)?;
    say(rt, b", worst _ _ _ _ _ _", &worst)
}

fn say_masks<R: Print>(rt: &R, masks: [u64; 3]) -> io::Result<()> {
    rt.write_all(b", masks ")?;
    for mask in masks {
        print!(rt; "{mask:x}")?;
    }
    Ok(())
}

// What comes of writing it back.
fn say_back<R: Print>(
    rt: &R,
    counts: Counts,
    masks: &[u64; 3],
    deadlines: &[u32; 3],
    averages: &[u32; 6],
    worst: &[u32; 6],
) -> io::Result<()> {
    let mut image = [0u8; 78];
    let tables = Tables {
        masks,
        deadlines,
        averages,
        worst,
    };
    let written = profile::write(counts.n, counts.levels, counts.cycle, tables, &mut image);
    say_refusal(rt, b", back ", &written)?;
    let same = image == test_kit::samples::three();
    test_kit::say_whether(rt, same, b", the same", b", another")
}

// ---- writing one action at one level

// n, levels, cycle, mask, deadline, average, worst and the room in a slice of 25 bytes. A refusal leaves all of it untouched, and a writing its tail.
fn tell_write<R: Print>(rt: &R, row: [u32; 24]) -> io::Result<()> {
    let mut image = [UNTOUCHED; 25];
    let tables = Tables {
        masks: &[u64::from(row[3])],
        deadlines: &[row[4]],
        averages: &[row[5]],
        worst: &[row[6]],
    };
    let written = profile::write(
        count(row[0]),
        count(row[1]),
        row[2],
        tables,
        &mut image[..part(row[7], 25)],
    );
    say_refusal(rt, b": ", &written)?;
    say_written(rt, image, written.unwrap_or(0))
}

fn say_written<R: Print>(rt: &R, image: [u8; 25], bytes: usize) -> io::Result<()> {
    say_number(rt, b", bytes ", bytes)?;
    if bytes <= 25 {
        say_tail(rt, &image[bytes..])?;
    }
    Ok(())
}
