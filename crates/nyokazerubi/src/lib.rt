// The boundary for hosts in C and Rust: every public call under a name of its own, on numbers, slices and `#[repr(C)]` records. Each contract is
// that of the call behind it. include/nyokazerubi.h declares the functions for C.
#![tactic(auto)]

ghost use Rattle.std.specs.Prelude.{◌≡◌, []};
ghost use Rattle.rules.specs.Refusals.{Refuses, image_checks, lookup_call};
ghost use Rattle.image_write.specs.Writing.{Writes};
ghost use Rattle.profile.specs.Calls.{ReadsImage, Places};
ghost use Rattle.planner.specs.Planning.{Plans};
ghost use Rattle.encoder.specs.Times.{encoder_tables};
ghost use Rattle.run.specs.Dry.{Dries};
ghost use Rattle.dry_frame.specs.Frame.{Frames};
ghost use Rattle.refresh.specs.Refresh.{Refreshes};
ghost use Rattle.nyokazerubi.specs.Flat.{boundary};

use dry_frame::Framed;
use image_write::Written;
use planner::Planned;
use profile::{Place, Tables, Unpacked};
use refresh::Refreshed;
use rules::Fault;
use run::dry::Dried;

pub mod bodies;
pub mod readings;
pub mod recordings;
pub mod runs;

// The version of this boundary: of its calls, their parameters and the layout of its records. It goes up by 1 when one of them changes.
pub const BOUNDARY: u32 = 6;

pub fn nyokazerubi_boundary() -> u32
    ensures { result ≡ boundary }
{
    BOUNDARY
}

// ---- the profile

pub fn nyokazerubi_check(image: &[u8]) -> Fault
    ensures { Refuses (image_checks image.now) result }
{
    Fault::of(profile::check(image))
}

pub fn nyokazerubi_read(
    image: &[u8],
    masks: &mut [u64],
    deadlines: &mut [u32],
    averages: &mut [u32],
    worst_by_action: &mut [u32],
) -> Unpacked
    ensures { ReadsImage image.now
        (record { masks = masks.old; deadlines = deadlines.old; averages = averages.old; worst = worst_by_action.old })
        (record { masks = masks.new; deadlines = deadlines.new; averages = averages.new; worst = worst_by_action.new }) result }
{
    Unpacked::from(profile::read(image, masks, deadlines, averages, worst_by_action))
}

pub fn nyokazerubi_write(
    n: usize,
    levels: usize,
    cycle: u32,
    masks: &[u64],
    deadlines: &[u32],
    averages: &[u32],
    worst_by_action: &[u32],
    image: &mut [u8],
) -> Written
    ensures { Writes n levels cycle
        (record { masks = masks.now; deadlines = deadlines.now; averages = averages.now; worst = worst_by_action.now })
        image.old image.new result.refusal result.bytes }
{
    let tables = Tables {
        masks,
        deadlines,
        averages,
        worst: worst_by_action,
    };
    Written::from(profile::write(n, levels, cycle, tables, image))
}

pub fn nyokazerubi_write_encoder(image: &mut [u8]) -> Written
    ensures { Writes 9 8 320000 encoder_tables image.old image.new result.refusal result.bytes }
{
    Written::from(encoder::write_image(image))
}

// No slice can be handed back to C: the host takes the part that lies at the place.
pub fn nyokazerubi_lookup(image: &[u8], action: usize) -> Place
    ensures { Places image.now action result }
{
    Place::from(profile::lookup_place(image, action))
}

pub fn nyokazerubi_lookup_refusal(image: &[u8], action: usize) -> Fault
    ensures { Refuses (lookup_call image.now action) result }
{
    Fault::of(profile::lookup_refusal(image, action))
}

// ---- the plan and the dry run

pub fn nyokazerubi_plan(
    image: &[u8],
    policy: u32,
    order: &mut [u8],
    limits: &mut [i32],
    worst_by_position: &mut [u32],
    bounds: &mut [i32],
) -> Planned
    ensures { Plans image.now policy
        (record { order = order.old; limits = limits.old; worst = worst_by_position.old; bounds = bounds.old })
        (record { order = order.new; limits = limits.new; worst = worst_by_position.new; bounds = bounds.new }) result }
{
    let planned = planner::plan(image, policy, order, limits, worst_by_position, bounds);
    Planned::from(planned)
}

pub fn nyokazerubi_dry_run(
    n: usize,
    levels: usize,
    limits: &[i32],
    worst_by_position: &[u32],
    bounds: &[i32],
    durations: &[u32],
    given: &mut [u8],
    marks: &mut [u8],
) -> Dried
    ensures { Dries n levels
        (record { order = []; limits = limits.now; worst = worst_by_position.now; bounds = bounds.now })
        durations.now (record { levels = given.old; decided = marks.old })
        (record { levels = given.new; decided = marks.new }) result }
{
    Dried::from(run::dry::dry_run(
        n,
        levels,
        limits,
        worst_by_position,
        bounds,
        durations,
        given,
        marks,
    ))
}

// A frame run dry, from an image.
pub fn nyokazerubi_dry_frame(
    image: &[u8],
    policy: u32,
    durations: &[u32],
    order: &mut [u8],
    given: &mut [u8],
    marks: &mut [u8],
) -> Framed
    ensures { Frames image.now policy durations.now
        (record { order = order.old; levels = given.old; decided = marks.old })
        (record { order = order.new; levels = given.new; decided = marks.new }) result }
{
    Framed::from(dry_frame::dry_frame(image, policy, durations, order, given, marks))
}

// ---- the refresh

pub fn nyokazerubi_refresh(image: &[u8], trace: &[u8], out: &mut [u8]) -> Refreshed
    ensures { Refreshes image.now trace.now out.old out.new result.refusal result.bytes }
{
    Refreshed::from(refresh::refresh(image, trace, out))
}
