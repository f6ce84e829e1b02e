// What the dry-run program prints.
ghost use Rattle.std.specs.Prelude.{◌≤◌, length, get_or};
ghost use Rattle.io.specs.Counts.{IsPrefixLen};
ghost use Rattle.rules.specs.Numbers.{most_actions};
ghost use Rattle.rules.specs.Words.{cat, one_if};
ghost use Rattle.rules.specs.Recording.{durations};
ghost use Rattle.text.specs.Put.{Puts};
ghost use Rattle.print_lines.specs.Lines.{four_line};
ghost use Rattle.print.specs.Dry.{TellsDry};

use print_lines::{put_fault, put_four};
use rules::Fault;
use run::dry::Dry;

// Position, action, level and decided, a line for each position.
fn put_steps(out: &mut [u8], order: &[u8], given: &[u8], marks: &[u8], n: usize) -> usize
    requires { (n ≤ most_actions) × (n ≤ length order.now) × (n ≤ length given.now) × (n ≤ length marks.now) }
    ensures { Puts out.old 0
        (cat (λ i. four_line i (get_or order.now i 0) (get_or given.now i 0) (get_or marks.now i 0)) n)
        out.new result }
{
    let mut to = 0;
    for i in 0..n {
        let action = order[i] as u32;
        let level = given[i] as u32;
        let mark = marks[i] as u32;
        to = put_four(&mut *out, to, i as u32, action, level, mark);
    }
    to
}

// Decisions, end, overrun, late.
fn put_end(out: &mut [u8], at: usize, dry: Dry) -> usize
    requires { IsPrefixLen at out.old }
    ensures { Puts out.old at
        (four_line dry.decisions dry.end (one_if dry.overrun) (one_if dry.late)) out.new result }
{
    let overrun = u32::from(dry.overrun);
    let late = u32::from(dry.late);
    put_four(out, at, dry.decisions, dry.end, overrun, late)
}

// Position, action, level and decided, by the policy; then decisions, end, overrun, late.
pub fn dry_text(image: &[u8], policy: u32, bytes: &[u8], out: &mut [u8]) -> usize
    ensures { TellsDry image.now policy (durations bytes.now) out.old out.new result }
{
    let mut durations = [0u32; 512];
    let count = recording_bytes::take_durations(bytes, &mut durations);
    let mut order = [0u8; 64];
    let mut given = [0u8; 64];
    let mut marks = [0u8; 64];
    let run_dry = dry_frame::dry_frame(
        image,
        policy,
        &durations[..count],
        &mut order,
        &mut given,
        &mut marks,
    );
    match run_dry {
        Ok(frame) => {
            let at = put_steps(&mut *out, &order, &given, &marks, frame.n);
            put_end(out, at, frame.dry)
        }
        Err(blame) => put_fault(out, 0, Fault::from(blame)),
    }
}
