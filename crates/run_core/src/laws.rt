//! Laws of runs and of tasks, for the crates above: each is the contract of a function that does
//! nothing.
ghost use Rattle.run_core.specs.Laws.{DecidedAgrees, RunAgrees, RunsComplete, RunsDecide};
ghost use Rattle.run_core.specs.Laws.{TasksAreStable};

/// A run of a task is a run of each task that has the same faults and the same outputs.
#[inline]
pub fn runs_agree()
    ensures run { RunAgrees }
    ensures decided { DecidedAgrees }
{}

/// A fault of a prefix of the input is the fault of the whole, whatever comes after it and
/// however the input ends. What a prefix gives is a prefix of the output, and all of it where
/// there is a fault.
#[inline]
pub fn stable_tasks()
    ensures { TasksAreStable }
{}

/// Where neither end failed, the answer of a run is the verdict on the whole input, and exactly its
/// output was written.
#[inline]
pub fn runs_decide()
    ensures { RunsDecide }
{}

/// Where no read failed and the sink has room for the whole output, a run has no fault of its ends,
/// and its answer is the verdict on the whole input.
#[inline]
pub fn runs_complete()
    ensures { RunsComplete }
{}
