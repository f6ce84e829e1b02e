// The run record and its calls: start, ask and report. Each call takes the record and hands the next one back. `dry` runs a whole cycle. What a
// turn is made of is public too, for `recording`, which runs a cycle where a frame's bytes lie.
#![tactic(auto)]

ghost use Rattle.std.specs.Prelude.{◌≡◌, not, [], ◌+◌, ◌*◌, ◌<◌, ◌≤◌, eqb};
ghost use Rattle.rules.specs.Numbers.{most_actions, longest_coast};
ghost use Rattle.rules.specs.Words.{one_if};
ghost use Rattle.rules.specs.Reasons.{number};
ghost use Rattle.rules.specs.Run.{in_range, begun, coast, decide, ended, fits, lent, start_refusal, start, ask_refusal, ask, report_refusal, report};
ghost use Rattle.run.specs.Calls.{run_of, answer_of, next_of, start_of, Open};

use rules::{Reason, Refusal};

pub mod dry;

// The fields and their ranges are `in_range` of the rules. The three marks stand last, so that there is no gap between fields.
#[repr(C)]
#[derive(Clone, Copy, PartialEq, Eq)]
pub struct Run {
    pub n: u32,
    pub levels: u32,
    pub position: u32,
    pub clock: u32,
    pub level: u32,
    pub left: u32,
    pub decisions: u32,
    pub running: bool,
    pub overrun: bool,
    pub late: bool,
}

// What a start answers: the record begun, and the refusal.
#[repr(C)]
#[derive(Clone, Copy)]
pub struct Started {
    pub run: Run,
    pub refusal: Refusal,
}

#[derive(Clone, Copy)]
pub enum Answer {
    Refused(Refusal),
    Given {
        action: u32,
        level: u32,
        decided: bool,
        late: bool,
    },
}

// What an asking answers, with the next record.
#[derive(Clone, Copy)]
pub struct Asked {
    pub run: Run,
    pub answer: Answer,
}

// What a report answers: the next record, and the refusal.
#[repr(C)]
#[derive(Clone, Copy)]
pub struct Reported {
    pub run: Run,
    pub refusal: Refusal,
}

// A decision made: the record with the action running, and whether no level fits.
#[derive(Clone, Copy)]
pub struct Decided {
    pub run: Run,
    pub late: bool,
}

pub fn one_if(b: bool) -> u32
    ensures { (result ≡ one_if b) × (result ≤ 1) }
{
    if b { 1 } else { 0 }
}

// A start sets n and L, all else 0 or no.
pub fn begun(n: u32, levels: u32) -> Run
    ensures { run_of result ≡ begun n levels 0 }
{
    Run {
        n,
        levels,
        position: 0,
        clock: 0,
        level: 0,
        left: 0,
        decisions: 0,
        running: false,
        overrun: false,
        late: false,
    }
}

// Whether n and L are in their ranges. A test and no refusal of its own: a start answers 3 to it, a record 11.
pub fn counts_fit(n: usize, levels: usize) -> bool
    ensures { result ≡ eqb (start_refusal n levels) 0 }
{
    !((n < 1) | (rules::MOST_ACTIONS < n) | (levels < 1) | (rules::MOST_LEVELS < levels))
}

impl Run {
    // A refused start gives a record of zero actions, on which each later call answers 11.
    pub fn start(n: usize, levels: usize) -> Started
        ensures { start_of result ≡ start n levels }
    {
        if !counts_fit(n, levels) {
            return Started {
                run: begun(0, 0),
                refusal: Refusal::from(Reason::Count),
            };
        }
        Started {
            run: begun(n as u32, levels as u32),
            refusal: Refusal { number: 0 },
        }
    }

    // Whether each field is in its range. Too high a position and too long a coast are told first, so that their sum does not wrap. A test at a
    // time: a joined one would load two fields at once, right after they were stored one by one, and wait for both stores.
    fn in_range(self) -> bool
        ensures { result ≡ in_range (run_of self) }
    {
        let n = self.n;
        let levels = self.levels;
        let position = self.position;
        let left = self.left;
        if !counts_fit(n as usize, levels as usize) {
            return false;
        }
        if n < position {
            return false;
        }
        if rules::LONGEST_COAST <= left as usize {
            return false;
        }
        let asked = position + u32::from(self.running);
        if n < left + asked {
            return false;
        }
        if levels <= self.level {
            return false;
        }
        if rules::LAST_CLOCK < self.clock {
            return false;
        }
        if asked < self.decisions {
            return false;
        }
        true
    }

    // A decision here and now takes the level given, leaves r - 1 to coast, counts, and sets the late mark where no level fits.
    pub fn decided(self, limits: &[i32], bounds: &[i32]) -> Decided
        requires { Open (record { order = []; limits = limits.now; worst = []; bounds = bounds.now }) (run_of self) }
        ensures run { run_of result.run ≡ decide longest_coast (lent self.n self.levels
            (record { order = []; limits = limits.now; worst = []; bounds = bounds.now })) (run_of self) }
        ensures late { result.late ≡ not (fits (lent self.n self.levels
            (record { order = []; limits = limits.now; worst = []; bounds = bounds.now })) self.clock self.position) }
    {
        let n = self.n as usize;
        let levels = self.levels as usize;
        let position = self.position as usize;
        let t = self.clock;
        let from = position * levels;
        let level = run_decision::last_within(limits, from, levels, t);
        let late = !run_decision::within(limits, from + level, t);
        let left = run_decision::left_granted(limits, bounds, n, levels, position, level, t);
        let mut run = self;
        run.level = level as u32;
        run.left = left;
        run.decisions = self.decisions + 1;
        run.running = true;
        run.late = self.late | late;
        Decided { run, late }
    }

    // A coasted asking gives the same level undecided and lowers what is left by 1.
    pub fn coasted(self) -> Run
        requires { 0 < self.left }
        ensures { run_of result ≡ coast (run_of self) }
    {
        let mut run = self;
        run.left = self.left - 1;
        run.running = true;
        run
    }

    // The action's end at a clock, where its worst time at its level is `worst`: a longer duration sets the overrun mark and cancels the rest of
    // the coast.
    pub fn ended(self, worst: u32, clock: u32) -> Run
        requires { (self.position < most_actions) × (self.clock ≤ clock) }
        ensures { run_of result ≡ ended worst clock (run_of self) }
    {
        let over = worst < clock - self.clock;
        let mut run = self;
        run.position = self.position + 1;
        run.clock = clock;
        run.running = false;
        if over {
            run.left = 0;
            run.overrun = true;
        }
        run
    }

    // Fields out of range 11, room 17, an action runs 11, all done 10.
    fn ask_refusal(self, order: &[u8], limits: &[i32], bounds: &[i32]) -> Result<(), Reason>
        ensures { number result ≡ ask_refusal
            (record { order = order.now; limits = limits.now; worst = []; bounds = bounds.now }) (run_of self) }
    {
        if !self.in_range() {
            return Err(Reason::Turn);
        }
        let n = self.n as usize;
        let cells = n * self.levels as usize;
        if (order.len() < n)
            | (limits.len() < cells)
            | (bounds.len() < cells * rules::LONGEST_COAST)
        {
            return Err(Reason::Room);
        }
        if self.running {
            return Err(Reason::Turn);
        }
        if self.position == self.n {
            return Err(Reason::Finished);
        }
        Ok(())
    }

    // Asking takes no clock and sets the action running. A refusal gives back the record.
    pub fn ask(self, order: &[u8], limits: &[i32], bounds: &[i32]) -> Asked
        ensures { answer_of result ≡ ask
            (record { order = order.now; limits = limits.now; worst = []; bounds = bounds.now }) (run_of self) }
    {
        if let Err(reason) = self.ask_refusal(order, limits, bounds) {
            return Asked {
                run: self,
                answer: Answer::Refused(Refusal::from(reason)),
            };
        }
        let position = self.position as usize;
        let action = u32::from(order[position]);
        if self.left == 0 {
            let made = self.decided(limits, bounds);
            let run = made.run;
            return Asked {
                run,
                answer: Answer::Given {
                    action,
                    level: run.level,
                    decided: true,
                    late: made.late,
                },
            };
        }
        Asked {
            run: self.coasted(),
            answer: Answer::Given {
                action,
                level: self.level,
                decided: false,
                late: false,
            },
        }
    }

    // Fields out of range 11, room 17, none runs 11, back 12, above the clock limit 13.
    fn report_refusal(self, clock: u32, worst: &[u32]) -> Result<(), Reason>
        ensures { number result ≡ report_refusal worst.now clock (run_of self) }
    {
        if !self.in_range() {
            return Err(Reason::Turn);
        }
        if worst.len() < self.n as usize * self.levels as usize {
            return Err(Reason::Room);
        }
        if !self.running {
            return Err(Reason::Turn);
        }
        if clock < self.clock {
            return Err(Reason::Back);
        }
        if rules::LAST_CLOCK < clock {
            return Err(Reason::Clock);
        }
        Ok(())
    }

    // The end of the running action, by the clock since the cycle began. A refusal gives back the record.
    pub fn report(self, clock: u32, worst: &[u32]) -> Reported
        ensures { next_of result ≡ report worst.now clock (run_of self) }
    {
        if let Err(reason) = self.report_refusal(clock, worst) {
            return Reported {
                run: self,
                refusal: Refusal::from(reason),
            };
        }
        let at = (self.position * self.levels + self.level) as usize;
        Reported {
            run: self.ended(worst[at], clock),
            refusal: Refusal { number: 0 },
        }
    }
}
