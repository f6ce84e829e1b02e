// The trace of a refresh: its records checked, the measurements among them counted and summed, and new averages made of that. A table
// has a cell for each action and level, as many as a profile can have: the levels of action 0, then those of action 1, and so on.
#![tactic(auto)]

ghost use Rattle.std.specs.Prelude.{[], ◌∷◌, ◌+◌, ◌*◌, ◌≤◌, ◌<◌, length};
ghost use Rattle.rules.specs.Numbers.{most_records, entry_bytes, refused_trace};
ghost use Rattle.rules.specs.Reasons.{number};
ghost use Rattle.rules.specs.Refusals.{◌when◌, First};
ghost use Rattle.rules.specs.Refresh.{records, Trace};
ghost use Rattle.trace.specs.Trace.{IsRecord, cells, FaultOf, Measures, count_worth, Gains, Tallied, TallyRoom, Added, PassGives};
ghost use Rattle.trace.specs.Trace.{Unmeasured, Averaged, Raised};

use rules::Reason;

// The cells of a table.
pub const CELLS: usize = rules::MOST_ACTIONS * rules::MOST_LEVELS;

// A record of a trace, by the cell of its action and level.
#[derive(Clone, Copy)]
pub struct Entry {
    pub open: bool,
    pub cell: usize,
    pub duration: u32,
}

// What the open bit of a record is worth, above action, level and duration.
const OPEN_WORTH: u64 = 549_755_813_888;

// Record r, most significant bit first: open 1, action 6, level 3, duration 30. Action and level as they stand are the cell.
pub fn record_at(trace: &[u8], r: usize) -> Entry
    requires { r * entry_bytes + entry_bytes ≤ length trace.now }
    ensures { IsRecord trace.now r result }
{
    let entry = fields::big_endian::<5>(trace, r * rules::ENTRY_BYTES);
    let said = u64::from(rules::DURATION_SAID);
    Entry {
        open: entry / OPEN_WORTH == 1,
        cell: (entry / said) as usize % CELLS,
        duration: (entry % said) as u32,
    }
}

// 14 for a trace that is not whole records, or has too many.
pub fn trace_refusal(trace: &[u8]) -> Result<(), Reason>
    ensures { First (refused_trace when Trace trace.now ∷ []) (number result) }
{
    if trace.len() % rules::ENTRY_BYTES != 0 {
        return Err(Reason::Trace);
    }
    if rules::MOST_RECORDS < trace.len() / rules::ENTRY_BYTES {
        return Err(Reason::Trace);
    }
    Ok(())
}

// What a record is refused with. A cell's ceiling is the first duration that is too long for it, 0 where the action
// or the level is absent: one test finds either fault.
pub fn fault(e: Entry, ceilings: &[u32; CELLS]) -> Result<(), Reason>
    requires { e.cell < cells }
    ensures { FaultOf e ceilings.now (number result) }
{
    let ceiling = ceilings[e.cell];
    if e.duration < ceiling {
        return Ok(());
    }
    if ceiling == 0 {
        return Err(Reason::Name);
    }
    Err(Reason::Duration)
}

// Whether a record counts as a measurement. One of duration 0 does not, open or closed: the action was skipped.
pub fn measures(e: Entry) -> bool
    ensures { Measures e result }
{
    e.open && e.duration != 0
}

// What one measurement is worth in a tally. A tally has the count of some measurements above the sum of their durations: 65,535 durations
// of 30 bits sum to less than 2^46, so that neither reaches into the other.
const COUNT_WORTH: u64 = 70_368_744_177_664;

// What a record adds to its tally: one and its duration if it is a measurement, else nothing.
pub fn gain(e: Entry) -> u64
    ensures gains { Gains e result }
    ensures upper_bound { result ≤ count_worth + e.duration }
{
    if measures(e) {
        COUNT_WORTH + u64::from(e.duration)
    } else {
        0
    }
}

// A record is added to the tally of its action and level.
pub fn add(e: Entry, tallies: &mut [u64; CELLS])
    requires { TallyRoom e tallies.old }
    ensures { Added e tallies.old tallies.new }
{
    tallies[e.cell] += gain(e);
}

// One pass over the trace: each record is checked and added to the tallies, which start with nothing.
pub fn pass(trace: &[u8], ceilings: &[u32; CELLS], tallies: &mut [u64; CELLS]) -> Result<(), Reason>
    requires { (records trace.now ≤ most_records) × Tallied trace.now 0 tallies.old }
    ensures { PassGives trace.now ceilings.now tallies.new (number result) }
{
    for r in 0..trace.len() / rules::ENTRY_BYTES {
        let e = record_at(trace, r);
        fault(e, ceilings)?;
        add(e, tallies);
    }
    Ok(())
}

// What an unmeasured level becomes: its old average stays.
pub fn unmeasured(average: u32) -> u32
    ensures { Unmeasured average result }
{
    average
}

// The sum over the count, rounded down, and as wide as the sum.
pub fn averaged(tally: u64, average: u32) -> u64
    ensures { Averaged tally average result }
{
    let count = tally / COUNT_WORTH;
    if count == 0 {
        return u64::from(unmeasured(average));
    }
    tally % COUNT_WORTH / count
}

// The new average of a level: one that is below the one before it takes that value. Before level 0 there is 0.
pub fn raised(before: u64, tally: u64, average: u32) -> u64
    ensures { Raised before tally average result }
{
    let here = averaged(tally, average);
    before.max(here)
}
