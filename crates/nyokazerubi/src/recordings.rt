// Recordings for a host: opened by their length, and a frame at a time over the totals where the host keeps them.
ghost use Rattle.std.specs.Prelude.{[]};
ghost use Rattle.recording.specs.Recording.{Opens, totals_of, Rehearses};

use recording::{Counted, Line, Opened, Totals};

pub fn nyokazerubi_open_recording(
    image: &[u8],
    policy: u32,
    bytes: usize,
    order: &mut [u8],
    limits: &mut [i32],
    worst_by_position: &mut [u32],
    bounds: &mut [i32],
) -> Opened
    ensures { Opens image.now policy bytes
        (record { order = order.old; limits = limits.old; worst = worst_by_position.old; bounds = bounds.old })
        (record { order = order.new; limits = limits.new; worst = worst_by_position.new; bounds = bounds.new }) result }
{
    Opened::from(recording::open(
        image,
        policy,
        bytes,
        order,
        limits,
        worst_by_position,
        bounds,
    ))
}

pub fn nyokazerubi_rehearse(
    totals: &mut Totals,
    n: usize,
    levels: usize,
    limits: &[i32],
    worst_by_position: &[u32],
    bounds: &[i32],
    frame: &[u8],
) -> Line
    ensures { Rehearses n levels
        (record { order = []; limits = limits.now; worst = worst_by_position.now; bounds = bounds.now })
        frame.now (totals_of totals.old) (record { totals = totals.new; line = result }) }
{
    let out = recording::rehearse(*totals, n, levels, limits, worst_by_position, bounds, frame);
    let counted = Counted::of(*totals, out);
    *totals = counted.totals;
    counted.line
}
