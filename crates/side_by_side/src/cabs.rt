ghost use Rattle.std.specs.Prelude.{◌≡◌, ◌<◌, ◌+◌, length, vec_items, Ok, IfOk, IfErr, Decides};
ghost use Rattle.bench.specs.Both.{Laws};
ghost use Rattle.bench.specs.View.{ShownOn};
ghost use Rattle.side_by_side.specs.Cabs.{OneListAgrees, Planned, calls_planned, rows_planned, other_rows_of, plans_of, ran, rows_of, status_of};
ghost use Rattle.side_by_side.specs.Findings.{FindingOf, notes_of};

use crate::finding::{Finding, notes_agree};
use crate::ready::ReadyCabs;
use crate::status::Status;
use bench::{Ran, Ready};
use compare::{Compared, Verdict, compare_cabs};
use plan::Plans;
use std::alloc::{AllocError, Global};
use train_end::TrainEnd;

/// Both cabs after their runs, and what is found of these. The caller switches the units off.
pub struct BothCabs<'p, 'a, E, F> {
    /// The bus cab after its run.
    pub bus: Ran<'p, 'a, E>,
    /// The pulse cab after its run.
    pub pulse: Ran<'p, 'a, F>,
    /// What is found of both. Want of memory for it is the only error, comes only where a plan has
    /// a call or a row, and leaves the runs as they are.
    pub finding: Result<Finding<'a>, AllocError>,
}

// What is found beside a verdict.
fn find<'a>(
    heap: Global,
    plans: &Plans<'_>,
    verdict: Result<Verdict<'a>, AllocError>,
) -> Result<Finding<'a>, AllocError>
    ensures verdict { IfOk result (λ f. verdict.entry ≡ Ok f.verdict) }
    ensures notes { IfOk result (λ f. Decides f.notes_agree
        (notes_of (vec_items f.verdict.marks) (rows_of plans.now) ≡
        notes_of (vec_items f.verdict.marks) (other_rows_of plans.now))) }
    ensures memory { IfErr result (λ _. IfOk verdict.entry
        (λ v. 0 < length (vec_items v.marks) + rows_planned plans.now)) }
{
    let verdict = verdict?;
    let notes_agree = notes_agree(heap, &verdict.marks, &plans.bus.rows, &plans.pulse.rows)?;
    Ok(Finding {
        verdict,
        notes_agree,
    })
}

impl<'p, 'a, E: TrainEnd, F: TrainEnd> ReadyCabs<'p, 'a, E, F> {
    /// Both cabs with what their plans ask of them, on these ends, and with all places for answers
    /// and speeds.
    ///
    /// Want of memory is the only error. It gives both ends back as they were, and comes only where
    /// a plan has a call.
    pub fn new(
        heap: Global,
        plans: &'p Plans<'a>,
        bus: E,
        pulse: F,
    ) -> Result<ReadyCabs<'p, 'a, E, F>, (E, F)>
        ensures plans { IfOk result (λ c. plans_of c ≡ plans.entry.now) }
        ensures ends { IfOk result (λ c. (c.bus.end ≡ bus) × (c.pulse.end ≡ pulse)) }
        ensures back { IfErr result (λ ends. (ends.0 ≡ bus) × (ends.1 ≡ pulse)) }
        ensures memory { IfErr result (λ _. 0 < calls_planned plans.entry.now) }
    {
        let bus = match Ready::new(heap, bus, &plans.bus.calls) {
            Ok(ready) => ready,
            Err(end) => return Err((end, pulse)),
        };
        match Ready::new(heap, pulse, &plans.pulse.calls) {
            Ok(pulse) => Ok(ReadyCabs { plans, bus, pulse }),
            Err(end) => Err((bus.end, end)),
        }
    }

    /// Runs both cabs and compares what they were asked, what they answered and what they show.
    /// This always runs; want of memory stands in the place of the finding.
    pub fn run(self, heap: Global) -> BothCabs<'p, 'a, E, F>
        ensures planned { Planned (plans_of self.entry)
            (ran E.TrainEnd F.TrainEnd self.entry result) }
        ensures laws { Laws (ran E.TrainEnd F.TrainEnd self.entry result) }
        ensures on { ShownOn (ran E.TrainEnd F.TrainEnd self.entry result) result.bus.on
            result.pulse.on }
        ensures finding { IfOk result.finding
            (λ f. FindingOf (ran E.TrainEnd F.TrainEnd self.entry result)
            (rows_of (plans_of self.entry)) (other_rows_of (plans_of self.entry)) f) }
        ensures memory { IfErr result.finding
            (λ _. 0 < calls_planned (plans_of self.entry) + rows_planned (plans_of self.entry)) }
        ensures one_list { OneListAgrees (plans_of self.entry)
            (ran E.TrainEnd F.TrainEnd self.entry result) result }
    {
        let ReadyCabs { plans, bus, pulse } = self;
        let Compared {
            one,
            other,
            verdict,
        } = match compare_cabs(heap, bus, pulse) {
            Ok(compared) => compared,
            // Each cab has a place for every answer and speed.
            Err(_back) => unreachable!(),
        };
        let finding = find(heap, plans, verdict);
        BothCabs {
            bus: one,
            pulse: other,
            finding,
        }
    }
}

impl<E, F> BothCabs<'_, '_, E, F> {
    /// The status of the runs: `Trouble` where neither cab answered a call or memory for the
    /// finding was wanting, `Agree` where the finding agrees, and else `Differ`.
    pub fn status(&self) -> Status
        ensures { result ≡ status_of self.now }
    {
        if self.bus.answers.is_empty() && self.pulse.answers.is_empty() {
            return Status::Trouble;
        }
        match &self.finding {
            Ok(finding) if finding.agrees() => Status::Agree,
            Ok(_) => Status::Differ,
            Err(_) => Status::Trouble,
        }
    }
}
