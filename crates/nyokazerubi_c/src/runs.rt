// The run over the record where the host keeps it.
ghost use Rattle.std.specs.Prelude.{◌≡◌, []};
ghost use Rattle.rules.specs.Run.{start, ask, report};
ghost use Rattle.rules.specs.Run as rules;
ghost use Rattle.run.specs.Calls.{run_of};
ghost use Rattle.nyokazerubi.specs.Flat.{next_flat, Asks};

use nyokazerubi::runs::Given;
use rules::Refusal;
use run::Run;

#[unsafe(no_mangle)]
pub extern "C" fn nyokazerubi_start(run: &mut Run, n: usize, levels: usize) -> Refusal
    ensures { next_flat (run_of run.new) result ≡ start n levels }
{
    nyokazerubi::runs::nyokazerubi_start(run, n, levels)
}

#[unsafe(no_mangle)]
pub extern "C" fn nyokazerubi_ask(
    run: &mut Run,
    order: &[u8],
    limits: &[i32],
    bounds: &[i32],
) -> Given
    ensures { Asks (ask
        (record { order = order.now; limits = limits.now; worst = []; bounds = bounds.now }) (run_of run.old)) (run_of run.new) result }
{
    nyokazerubi::runs::nyokazerubi_ask(run, order, limits, bounds)
}

#[unsafe(no_mangle)]
pub extern "C" fn nyokazerubi_report(
    run: &mut Run,
    clock: u32,
    worst_by_position: &[u32],
) -> Refusal
    ensures { next_flat (run_of run.new) result ≡ report worst_by_position.now clock (run_of run.old) }
{
    nyokazerubi::runs::nyokazerubi_report(run, clock, worst_by_position)
}
