// What the rehearsal of a recording prints: a line for each frame, and one of totals after them.
ghost use Rattle.io.specs.Counts.{IsPrefixLen};
ghost use Rattle.text.specs.Put.{Puts};
ghost use Rattle.print_lines.specs.Rehearse.{line_text, totals_text};

use crate::{put_field, put_four, put_refusal};
use recording::{Line, Totals};

// Decisions, lowest level, end, overrun, late; or the refusal of the frame.
pub fn put_line(out: &mut [u8], at: usize, line: Line) -> usize
    requires { IsPrefixLen at out.old }
    ensures { Puts out.old at (line_text line) out.new result }
{
    let refusal = line.refusal;
    if refusal.number != 0 {
        return put_refusal(out, at, refusal.number);
    }
    let overrun = u32::from(line.overrun);
    let late = u32::from(line.late);
    let second = put_field(&mut *out, at, line.decisions, b' ');
    put_four(out, second, line.lowest, line.end, overrun, late)
}

// Frames, decisions, overruns, lates.
pub fn put_totals(out: &mut [u8], at: usize, totals: Totals) -> usize
    requires { IsPrefixLen at out.old }
    ensures { Puts out.old at (totals_text totals) out.new result }
{
    put_four(
        out,
        at,
        totals.frames,
        totals.decisions,
        totals.overruns,
        totals.lates,
    )
}
