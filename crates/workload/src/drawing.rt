//! The parts of a minute, each made with draws.
ghost use Rattle.std.specs.Prelude.{◌≡◌, ◌+◌, ◌<◌, [], ◌∷◌, ◌++◌, codes, flat_map, option_to_list};
ghost use Rattle.std.specs.Prelude.{All, IfOk, length};
ghost use Rattle.uplink_weave.specs.Woven.{block_bytes};
ghost use Rattle.workload.specs.Draws.{draws};
ghost use Rattle.workload.specs.Texts.{report, word};
ghost use Rattle.workload.specs.Blocks.{cells_of};
ghost use Rattle.workload.specs.Hearings.{block_changes, changes};
ghost use Rattle.workload.specs.Workload.{block, hearing, metar, taf};

use crate::changes::Changes;
use crate::draws::Draws;
use crate::report_text::ReportText;
use crate::step::Step;
use fisb_time::Moment;
use radar_core::Cells;
use std::alloc::{AllocError, Global};

/// The blocks of a frame.
const BLOCKS: u16 = 6;

impl Draws {
    /// Draws a METAR of a station.
    pub(crate) fn metar(
        &mut self,
        alloc: Global,
        moment: Moment,
        station: u32,
    ) -> Result<Step, AllocError>
        ensures { IfOk result (λ step.
            metar moment station self.old.state ≡ (step ∷ [], self.new.state)) }
    {
        let count = 4 + self.next_number() % 8;
        let text = self.report(alloc, "METAR", station, count)?;
        Ok(Step::Text { moment, text })
    }

    /// Draws a TAF of a station.
    pub(crate) fn taf(
        &mut self,
        alloc: Global,
        moment: Moment,
        station: u32,
    ) -> Result<Step, AllocError>
        ensures { IfOk result (λ step.
            taf moment station self.old.state ≡ (step ∷ [], self.new.state)) }
    {
        let count = 40 + self.next_number() % 60;
        let text = self.report(alloc, "TAF", station, count)?;
        Ok(Step::Text { moment, text })
    }

    /// Draws a report of a kind, with a number of words.
    fn report(
        &mut self,
        alloc: Global,
        kind: &str,
        station: u32,
        words: u32,
    ) -> Result<ReportText, AllocError>
        ensures text { IfOk result (λ text.
            text ≡ report kind.now station (draws 100000 words self.old.state).0) }
        ensures state { IfOk result (λ _.
            self.new.state ≡ (draws 100000 words self.old.state).1) }
    {
        let mut text = ReportText::of(alloc, kind)?;
        text.push_str(" K")?;
        text.push_two_digits(station)?;
        text.push('X')?;
        self.words(&mut text, words)?;
        Ok(text)
    }

    /// Draws a number of words, and puts them at the end of a text.
    fn words(&mut self, text: &mut ReportText, count: u32) -> Result<(), AllocError>
        ensures text { IfOk result (λ _.
            text.new ≡ text.old ++ flat_map word (draws 100000 count self.old.state).0) }
        ensures state { IfOk result (λ _.
            self.new.state ≡ (draws 100000 count self.old.state).1) }
    {
        for _ in 0..count {
            text.push(' ')?;
            text.push_five_digits(self.next_number() % 100_000)?;
        }
        Ok(())
    }

    /// Draws the cells of a block.
    pub(crate) fn block(&mut self, moment: Moment, number: u32) -> Step
        ensures { block moment number self.old.state ≡ (result ∷ [], self.new.state) }
    {
        let mut intensities = [0; 16];
        self.intensities(&mut intensities);
        Step::Block {
            moment,
            number,
            cells: cells_of(&intensities),
        }
    }

    /// Draws an intensity for each place.
    fn intensities(&mut self, intensities: &mut [u8])
        ensures numbers { intensities.new ≡ (draws 8 (length intensities.old) self.old.state).0 }
        ensures state { self.new.state ≡ (draws 8 (length intensities.old) self.old.state).1 }
    {
        for intensity in intensities.iter_mut() {
            *intensity = (self.next_number() % 8) as u8;
        }
    }

    /// Draws whether the frame that was sent last is heard, and with which changes.
    pub(crate) fn hearing(
        &mut self,
        alloc: Global,
        moment: Moment,
    ) -> Result<Option<Step>, AllocError>
        ensures { IfOk result (λ step.
            hearing moment self.old.state ≡ (option_to_list step, self.new.state)) }
    {
        if self.next_number() % 5 == 0 {
            return Ok(None);
        }
        let changes = self.changes(alloc)?;
        Ok(Some(Step::Hear { moment, changes }))
    }

    /// Draws the changes of all blocks.
    fn changes(&mut self, alloc: Global) -> Result<Changes, AllocError>
        ensures made { IfOk result (λ made. made ≡ (changes 0 6 self.old.state).0) }
        ensures state { IfOk result (λ _. self.new.state ≡ (changes 0 6 self.old.state).1) }
    {
        let mut changes = Changes::empty(alloc);
        for block in 0..BLOCKS {
            let count = (self.next_number() % 11) as u16;
            let first = (self.next_number() % 92) as u16;
            let byte = (1 + self.next_number() % 255) as u8;
            push_changes(&mut changes, block, count, first, byte)?;
        }
        Ok(changes)
    }
}

/// Puts the changes of a block at the end.
fn push_changes(
    changes: &mut Changes,
    block: u16,
    count: u16,
    first: u16,
    byte: u8,
) -> Result<(), AllocError>
    requires block { block < 6 }
    requires count { count < 11 }
    requires first { first < block_bytes }
    ensures { IfOk result (λ _. changes.new ≡ changes.old ++ block_changes block count first byte) }
{
    for t in 0..count {
        changes.push(6 * ((first + 9 * t) % 92) + block, byte)?;
    }
    Ok(())
}

/// The cells of sixteen intensities, each of which stands in eight cells.
fn cells_of(intensities: &[u8; 16]) -> Cells
    requires { All (λ intensity. intensity < 8) intensities.now }
    ensures { result ≡ cells_of intensities.now }
{
    let mut cells = [0; 128];
    spread(intensities, &mut cells);
    Cells::new(cells).unwrap()
}

/// Writes each of sixteen intensities into eight cells.
fn spread(intensities: &[u8], cells: &mut [u8])
    requires intensities { length intensities.now ≡ 16 }
    requires cells { length cells.old ≡ 128 }
    ensures { cells.new ≡ cells_of intensities.now }
{
    for place in 0..128 {
        cells[place] = intensities[place / 8];
    }
}
