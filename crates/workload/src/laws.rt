//! The laws of workloads, as functions that do nothing: a caller that needs a law calls one.
ghost use Rattle.workload.specs.Laws.{EveryStepFits, PlacesDiffer};

/// Every step of a workload is in its ranges.
pub fn every_step_fits()
    ensures { EveryStepFits }
{}

/// No byte of a block is changed twice in one hearing.
pub fn places_differ()
    ensures { PlacesDiffer }
{}
