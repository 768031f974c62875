//! Workloads against those that another program made from the rules: `bench/workload/script.py`,
//! which shares nothing with this crate, prints the numbers below by `--checks`.
ghost use Rattle.std.specs.Prelude.{◌≤◌};

use super::*;
use crate::draws::Draws;
use std::alloc::{AllocError, Global};
use std::test::Fail;

/// A step in one line.
fn line(alloc: Global, step: &Step) -> Result<String, AllocError> {
    match step {
        Step::Text { moment, text } => {
            let moment = moment.seconds();
            let text = text.all();
            format!(in alloc; "text {moment} {text}\n")
        }
        Step::Block {
            moment,
            number,
            cells,
        } => {
            let moment = moment.seconds();
            let mut line = format!(in alloc; "block {moment} {number} ")?;
            for place in 0..128 {
                let cell = cells.at(place);
                write!(line, "{cell}")?;
            }
            line.push('\n')?;
            Ok(line)
        }
        Step::Blanks { moment, numbers } => {
            let moment = moment.seconds();
            let mut line = format!(in alloc; "blanks {moment}")?;
            for number in numbers.all() {
                write!(line, " {number}")?;
            }
            line.push('\n')?;
            Ok(line)
        }
        Step::Turn { moment, slot } => {
            let moment = moment.seconds();
            format!(in alloc; "turn {moment} {slot}\n")
        }
        Step::Hear { moment, changes } => {
            let moment = moment.seconds();
            let mut line = format!(in alloc; "hear {moment}")?;
            for &(place, byte) in changes.all() {
                write!(line, " {place}^{byte:02x}")?;
            }
            line.push('\n')?;
            Ok(line)
        }
        Step::Show { moment } => {
            let moment = moment.seconds();
            format!(in alloc; "show {moment}\n")
        }
    }
}

/// The Adler-32 checksum of what was summed so far and of some bytes more, as its two halves.
fn checksum(so_far: (u32, u32), bytes: &[u8]) -> (u32, u32) {
    let (mut sum, mut sums) = so_far;
    for byte in bytes {
        sum = (sum % 65_521 + u32::from(*byte)) % 65_521;
        sums = (sums % 65_521 + sum) % 65_521;
    }
    (sum, sums)
}

/// How many steps a workload has, and the checksum of their lines.
fn summary(alloc: Global, count: u32, seed: u64) -> Result<(u32, (u32, u32)), AllocError>
    requires some { 1 ≤ count }
    requires few { count ≤ 1000 }
{
    let mut workload = Workload::new(alloc, count, seed);
    let mut halves = (1, 0);
    for steps in 0..100_000 {
        let Some(step) = workload.next_step()? else {
            return Ok((steps, halves));
        };
        let line = line(alloc, &step)?;
        halves = checksum(halves, line.as_str().as_bytes());
    }
    Ok((100_000, halves))
}

#[test]
fn draws_of_two_seeds(rt: HostRuntime) {
    for (seed, first, second) in [
        (1, 908_834_774, 1_093_944_153),
        (7, 1_059_165_278, 2_052_263_231),
    ] {
        let mut draws = Draws { state: seed };
        assert_eq!(rt; draws.next_number(), first, "of seed {seed}");
        assert_eq!(rt; draws.next_number(), second, "of seed {seed}");
    }
}

#[test]
fn steps_are_those_of_the_rules(rt: HostRuntime) -> Result<(), Fail> {
    for (count, seed, steps, halves) in [
        (1, 1, 575, (50_143, 2_698)),
        (2, 7, 684, (64_754, 16_983)),
        (6, u64::MAX, 1_607, (36_999, 12_751)),
    ] {
        assert_eq!(rt;
            summary(rt.alloc(), count, seed)?,
            (steps, halves),
            "{count} {seed}"
        );
    }
    Ok(())
}

#[test]
fn a_first_report_in_words(rt: HostRuntime) -> Result<(), Fail> {
    let mut workload = Workload::new(rt.alloc(), 1, 1);
    let step = workload.next_step()?.ok_or("a step")?;
    assert_eq!(rt;
        line(rt.alloc(), &step)?.as_str(),
        "text 1700000040 METAR K00X 44153 41196 92870 11034 39795 67130 86902 98089 46746 20123\n"
    );
    Ok(())
}
