//! The workload, step by step.
ghost use Rattle.std.specs.Prelude.{◌≡◌, ◌≤◌, ◌++◌, [], IfOk, IfSome, OnErr, option_to_list};
ghost use Rattle.workload.specs.Step.{FitsStep};
ghost use Rattle.workload.specs.Workload.{workload};

use crate::draws::Draws;
use crate::progress::{Phase, Progress};
use crate::step::Step;
use std::alloc::{AllocError, Global};
use std::marker::Model;

/// A workload, of which some steps may have been handed out. A contract sees it as the list of the
/// steps that are still to come.
#[derive(Drop)]
pub struct Workload {
    alloc: Global,
    progress: Progress,
}

impl Model for Workload {
    ghost use Rattle.std.specs.Prelude.{List};
    ghost use Rattle.workload.specs.declared.step.Step.{Step};
    ghost use Rattle.workload.specs.Progress.{IsSound, still_to_come};

    ghost Value = { List Step };

    ghost view = { λ w. still_to_come w.progress };

    ghost invariant = { λ w. IsSound w.progress };
}

impl Workload {
    /// The workload of a number of minutes, from 1 to 1,000, that is drawn from a seed.
    pub fn new(alloc: Global, count: u32, seed: u64) -> Workload
        requires some { 1 ≤ count }
        requires few { count ≤ 1000 }
        ensures { result ≡ workload count seed }
    {
        Workload {
            alloc,
            progress: Progress {
                minute: 0,
                left: count,
                phase: Phase::Metar { station: 0 },
                draws: Draws { state: seed },
                listed: Vec::new(alloc),
            },
        }
    }

    /// Hands out the next step, or `None` once there is none. After an error the same steps are
    /// still to come.
    pub fn next_step(&mut self) -> Result<Option<Step>, AllocError>
        ensures handed { IfOk result (λ step. self.old ≡ option_to_list step ++ self.new) }
        ensures end { result ≡ Ok None → self.old ≡ [] }
        ensures fits { IfOk result (λ step. IfSome step FitsStep) }
        ensures kept { OnErr result (self.new ≡ self.old) }
    {
        while self.progress.left > 0 {
            if let Some(step) = self.progress.advance(self.alloc)? {
                return Ok(Some(step));
            }
        }
        Ok(None)
    }
}
