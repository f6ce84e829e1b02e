// The run record of a body repeated and its calls: start, ask and report, by the steps of a plain cycle. Each call takes the record and hands the
// next one back. What a turn is made of is public too, for `repeat_frame`, which runs a whole frame.
#![tactic(auto)]

ghost use Rattle.std.specs.Prelude.{◌≡◌, ◌+◌, ◌*◌, ◌<◌, ◌≤◌};
ghost use Rattle.rules.specs.Numbers.{most_positions, longest_coast};
ghost use Rattle.rules.specs.Reasons.{number_of, number};
ghost use Rattle.rules.specs.Limits.{Plan};
ghost use Rattle.rules.specs.Run.{begun, coast, decide, ended, refused};
ghost use Rattle.rules.specs.Repeat.{positions, body_in_range, body_start, body_ask_refusal, body_ask, body_report_refusal, body_report};
ghost use Rattle.repeat_decision.specs.Decision.{Chooses};
ghost use Rattle.repeat_run.specs.Calls.{steps_of, passed_by, cut_short, started_of, begins_of, asked_of, after_ask, asks_of, left_by, ends_of, reported_of};

use repeat_decision::{Choice, choose};
use repeat_limits::{body_refusal, known_refusal, spot_of};
use rules::{Body, Reason, Refusal};
use run::Answer;

// The fields and their ranges are `body_in_range` of the rules. The position and the decisions are those of the unrolled system. The clock has 64
// bits for a dry run, which goes on past the latest clock; between calls it is within it. No byte is left unused between the fields, so that a call
// copies the record without gaps. What an asking and a report store by turns, position, coast left and whether an action runs, has neighbours that
// are stored apart: fields that a call only hands on are read together, and that would wait for one stored alone a moment ago.
#[repr(C)]
#[derive(Clone, Copy, PartialEq, Eq)]
pub struct BodyRun {
    pub body: Body,
    pub level: u32,
    pub clock: u64,
    pub position: u32,
    pub left: u8,
    pub running: bool,
    pub overrun: bool,
    pub late: bool,
    pub decisions: u32,
}

// What a start answers: the record begun, and the refusal.
#[repr(C)]
#[derive(Clone, Copy)]
pub struct BodyStarted {
    pub run: BodyRun,
    pub refusal: Refusal,
}

// The same before it is known which record is the next: `begun` where it begins, else `run`, of zero actions. A host's record takes the one and then,
// nearly always, the other, so that no field of it is chosen between the two.
#[repr(C)]
#[derive(Clone, Copy)]
pub struct BodyBegins {
    pub run: BodyRun,
    pub refusal: Refusal,
    pub begun: BodyRun,
    pub begins: bool,
}

// What an asking answers, with the next record.
#[derive(Clone, Copy)]
pub struct BodyAsked {
    pub run: BodyRun,
    pub answer: Answer,
}

// The same before it is known which record is the next: `made`, with the decision, where one was made; `gone`, an action on in its coast, where it
// coasts; else `run`, as it was. A host's record takes what changes and no more: with a refusal nothing, in a coast neither level nor count nor late
// mark.
#[derive(Clone, Copy)]
pub struct BodyAsks {
    pub run: BodyRun,
    pub answer: Answer,
    pub gone: BodyRun,
    pub coasts: bool,
    pub made: BodyRun,
    pub decided: bool,
}

// What a report answers: the next record, and the refusal.
#[repr(C)]
#[derive(Clone, Copy)]
pub struct BodyReported {
    pub run: BodyRun,
    pub refusal: Refusal,
}

// The same before it is known which record is the next: `cut`, without its coast, where the action took too long, else `run`. A host's record takes
// the one and then, rarely, the other, so that an end within the worst time touches neither coast nor mark.
#[repr(C)]
#[derive(Clone, Copy)]
pub struct BodyEnds {
    pub run: BodyRun,
    pub refusal: Refusal,
    pub cut: BodyRun,
    pub over: bool,
}

// A start sets the body, all else 0 or no.
pub fn begun(body: Body) -> BodyRun
    ensures { (result.body ≡ body) × (steps_of result ≡ begun (positions body) body.levels 0) }
{
    BodyRun {
        body,
        level: 0,
        clock: 0,
        position: 0,
        left: 0,
        running: false,
        overrun: false,
        late: false,
        decisions: 0,
    }
}

impl BodyRun {
    // A refused start gives a record of zero actions, on which each later call answers 11.
    pub fn begins(body: Body) -> BodyBegins
        ensures { begins_of result ≡ body_start body }
    {
        let refused = known_refusal(body);
        let none = Body {
            n: 0,
            levels: 0,
            cycle: 0,
            repeats: 0,
            policy: 0,
        };
        BodyBegins {
            run: begun(none),
            refusal: Refusal::of(refused),
            begun: begun(body),
            begins: refused.is_ok(),
        }
    }

    // The same by value.
    pub fn start(body: Body) -> BodyStarted
        ensures { started_of result ≡ body_start body }
    {
        let out = BodyRun::begins(body);
        let refusal = out.refusal;
        if out.begins {
            let run = out.begun;
            return BodyStarted { run, refusal };
        }
        let run = out.run;
        BodyStarted { run, refusal }
    }

    // Whether each field is in its range. Too high a position is told first, so that what is asked and left after it does not wrap.
    fn in_range(self) -> bool
        ensures { result ≡ body_in_range self.body (steps_of self) }
    {
        let body = self.body;
        if body_refusal(body).is_err() {
            return false;
        }
        let n = body.repeats * body.n;
        let left = self.left as u32;
        if n < self.position {
            return false;
        }
        let asked = self.position + u32::from(self.running);
        if n < left + asked {
            return false;
        }
        if rules::LONGEST_COAST <= left as usize {
            return false;
        }
        if body.levels <= self.level {
            return false;
        }
        if (rules::LAST_CLOCK as u64) < self.clock {
            return false;
        }
        if asked < self.decisions {
            return false;
        }
        true
    }

    // A decision takes the level given, leaves r - 1 to coast, counts, and sets the late mark where no level fits. What it reads of the summaries is a
    // function apart, which is handed no record, so that an asking keeps its own in registers.
    pub fn decided(self, made: Choice) -> BodyRun
        requires { self.decisions ≤ most_positions }
        ensures { (result.body ≡ self.body)
            × ((P : Plan) → Chooses P self.clock self.position made → steps_of result ≡ decide longest_coast P (steps_of self)) }
    {
        let mut run = self;
        run.level = made.level;
        run.decisions = self.decisions + 1;
        run.left = made.left;
        run.running = true;
        run.late = self.late | made.late;
        run
    }

    // A coasted asking gives the same level undecided and lowers what is left by 1.
    pub fn coasted(self) -> BodyRun
        requires { 0 < self.left }
        ensures { (result.body ≡ self.body) × (steps_of result ≡ coast (steps_of self)) }
    {
        let mut run = self;
        run.left = self.left - 1;
        run.running = true;
        run
    }

    // The action ended at a clock, within its worst time.
    fn passed(self, clock: u64) -> BodyRun
        requires { self.position < most_positions }
        ensures { (result.body ≡ self.body) × (steps_of result ≡ passed_by clock (steps_of self)) }
    {
        let mut run = self;
        run.clock = clock;
        run.position = self.position + 1;
        run.running = false;
        run
    }

    // The rest of the coast cancelled, with the overrun mark.
    fn cut(self) -> BodyRun
        ensures { (result.body ≡ self.body) × (steps_of result ≡ cut_short (steps_of self)) }
    {
        let mut run = self;
        run.left = 0;
        run.overrun = true;
        run
    }

    // The action's end at a clock, where its worst time at its level is `worst`: a longer duration sets the overrun mark and cancels the rest of
    // the coast.
    pub fn ended(self, worst: u32, clock: u64) -> BodyRun
        requires { (self.position < most_positions) × (self.clock ≤ clock) }
        ensures { (result.body ≡ self.body) × (steps_of result ≡ ended worst clock (steps_of self)) }
    {
        let over = (worst as u64) < clock - self.clock;
        let run = self.passed(clock);
        if over {
            return run.cut();
        }
        run
    }

    // Fields out of range 11, room 17, an action runs 11, all done 10.
    fn ask_refusal(self, order: &[u8], summaries: &[u32], worst: &[u32]) -> Result<(), Reason>
        ensures { number result ≡ body_ask_refusal self.body
            (record { order = order.now; summaries = summaries.now; worst = worst.now }) (steps_of self) }
    {
        if !self.in_range() {
            return Err(Reason::Turn);
        }
        let body = self.body;
        let n = body.n as usize;
        let cells = n * body.levels as usize;
        if (order.len() < n)
            | (summaries.len() < cells * rules::SUMMARY_NUMBERS)
            | (worst.len() < cells)
        {
            return Err(Reason::Room);
        }
        if self.running {
            return Err(Reason::Turn);
        }
        if self.position == body.repeats * body.n {
            return Err(Reason::Finished);
        }
        Ok(())
    }

    // A refused asking gives back the record.
    fn refused(self, reason: Reason) -> BodyAsks
        ensures { ((after_ask result).body ≡ self.body) × (asks_of result ≡ refused (number_of reason) (steps_of self)) }
    {
        BodyAsks {
            run: self,
            answer: Answer::Refused(Refusal::from(reason)),
            gone: self,
            coasts: false,
            made: self,
            decided: false,
        }
    }

    // Asking takes no clock and sets the action running, told by its number in the unrolled system. What a decision alone needs is made ready where
    // it is called, so that a coasted asking has no part in it.
    pub fn asks(self, order: &[u8], summaries: &[u32], worst: &[u32]) -> BodyAsks
        ensures body { (after_ask result).body ≡ self.body }
        ensures answer { asks_of result ≡ body_ask self.body
            (record { order = order.now; summaries = summaries.now; worst = worst.now }) (steps_of self) }
    {
        if let Err(reason) = self.ask_refusal(order, summaries, worst) {
            return self.refused(reason);
        }
        let spot = spot_of(self.body, self.position as usize);
        let place = spot.place;
        let action = self.position - place as u32 + order[place] as u32;
        if self.left == 0 {
            let body = self.body;
            let made = choose(body, summaries, &worst[..], place, spot.after, self.clock);
            return BodyAsks {
                run: self,
                answer: Answer::Given {
                    action,
                    level: made.level,
                    decided: true,
                    late: made.late,
                },
                gone: self,
                coasts: false,
                made: self.decided(made),
                decided: true,
            };
        }
        BodyAsks {
            run: self,
            answer: Answer::Given {
                action,
                level: self.level,
                decided: false,
                late: false,
            },
            gone: self.coasted(),
            coasts: true,
            made: self,
            decided: false,
        }
    }

    // The same by value.
    pub fn ask(self, order: &[u8], summaries: &[u32], worst: &[u32]) -> BodyAsked
        ensures body { result.run.body ≡ self.body }
        ensures answer { asked_of result ≡ body_ask self.body
            (record { order = order.now; summaries = summaries.now; worst = worst.now }) (steps_of self) }
    {
        let out = self.asks(order, summaries, worst);
        let answer = out.answer;
        if out.decided {
            let run = out.made;
            return BodyAsked { run, answer };
        }
        if out.coasts {
            let run = out.gone;
            return BodyAsked { run, answer };
        }
        let run = out.run;
        BodyAsked { run, answer }
    }

    // Fields out of range 11, room 17, none runs 11, back 12, above the clock limit 13.
    fn report_refusal(self, clock: u32, worst: &[u32]) -> Result<(), Reason>
        ensures { number result ≡ body_report_refusal self.body worst.now clock (steps_of self) }
    {
        if !self.in_range() {
            return Err(Reason::Turn);
        }
        let body = self.body;
        if worst.len() < body.n as usize * body.levels as usize {
            return Err(Reason::Room);
        }
        if !self.running {
            return Err(Reason::Turn);
        }
        if (clock as u64) < self.clock {
            return Err(Reason::Back);
        }
        if rules::LAST_CLOCK < clock {
            return Err(Reason::Clock);
        }
        Ok(())
    }

    // The end of the running action, by the clock since the cycle began. A refusal gives back the record.
    pub fn ends(self, clock: u32, worst: &[u32]) -> BodyEnds
        ensures body { (left_by result).body ≡ self.body }
        ensures answer { ends_of result ≡ body_report self.body worst.now clock (steps_of self) }
    {
        if let Err(reason) = self.report_refusal(clock, worst) {
            return BodyEnds {
                run: self,
                refusal: Refusal::from(reason),
                cut: self,
                over: false,
            };
        }
        let body = self.body;
        let at = (self.position % body.n * body.levels + self.level) as usize;
        let over = (worst[at] as u64) < clock as u64 - self.clock;
        let run = self.passed(clock as u64);
        BodyEnds {
            run,
            refusal: Refusal { number: 0 },
            cut: run.cut(),
            over,
        }
    }

    // The same by value.
    pub fn report(self, clock: u32, worst: &[u32]) -> BodyReported
        ensures body { result.run.body ≡ self.body }
        ensures answer { reported_of result ≡ body_report self.body worst.now clock (steps_of self) }
    {
        let out = self.ends(clock, worst);
        let refusal = out.refusal;
        if out.over {
            let run = out.cut;
            return BodyReported { run, refusal };
        }
        let run = out.run;
        BodyReported { run, refusal }
    }
}
