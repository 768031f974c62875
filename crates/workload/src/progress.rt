//! How far a workload has come.
ghost use Rattle.std.specs.Prelude.{◌≡◌, ◌+◌, ◌*◌, ◌<◌, ◌≤◌, ◌++◌, [], OnOk, OnErr, IfOk};
ghost use Rattle.workload.specs.Workload.{moment_of_minute};
ghost use Rattle.workload.specs.Progress.{IsSound, HandsOut, distance, phase_after_taf};
ghost use Rattle.workload.specs.Progress.{still_to_come};

use crate::draws::Draws;
use crate::step::Step;
use fisb_time::Moment;
use fisb_wire::Numbers;
use std::alloc::{AllocError, Global};
use std::mem;

/// The first block.
const FIRST_BLOCK: u32 = 99_900;

/// The block after the last one.
const END_OF_BLOCKS: u32 = 100_800;

/// What comes next in a minute.
#[derive(Clone, Copy, Debug)]
pub(crate) enum Phase {
    /// The METAR of a station below 40, or none at 40.
    Metar { station: u32 },
    /// The TAF.
    Taf,
    /// A block of radar below 100,800, or the blank ones at 100,800.
    Block { number: u32 },
    /// The turn of a second below 60, or none at 60.
    Turn { second: u32 },
    /// The hearing of the frame of a second.
    Hearing { second: u32 },
    /// The picture.
    Picture,
}

/// How far a workload has come: the minute and what comes next in it, how many minutes are left
/// with it, the draws, and the blocks that are listed as blank.
#[derive(Drop)]
pub(crate) struct Progress {
    pub(crate) minute: u32,
    pub(crate) left: u32,
    pub(crate) phase: Phase,
    pub(crate) draws: Draws,
    pub(crate) listed: Vec<u32>,
}

impl Progress {
    /// Goes one step further, which mostly hands out a step of the workload. After an error all is
    /// as it was.
    pub(crate) fn advance(&mut self, alloc: Global) -> Result<Option<Step>, AllocError>
        requires sound { IsSound self.old }
        requires more { 0 < self.old.left }
        ensures sound { IsSound self.new }
        ensures handed { IfOk result (HandsOut self.old self.new) }
        ensures nearer { OnOk result (distance self.new < distance self.old) }
        ensures kept { OnErr result (still_to_come self.new ≡ still_to_come self.old) }
    {
        match self.phase {
            Phase::Metar { station } => self.metar(alloc, station),
            Phase::Taf => self.taf(alloc),
            Phase::Block { number } => self.block(alloc, number),
            Phase::Turn { second } => Ok(self.turn(second)),
            Phase::Hearing { second } => self.hearing(alloc, second),
            Phase::Picture => Ok(Some(self.picture())),
        }
    }

    /// The METAR of a station, if it has one in this minute.
    fn metar(&mut self, alloc: Global, station: u32) -> Result<Option<Step>, AllocError>
        requires sound { IsSound self.old }
        requires more { 0 < self.old.left }
        requires phase { self.old.phase ≡ Phase.Metar station }
        ensures sound { IsSound self.new }
        ensures handed { IfOk result (HandsOut self.old self.new) }
        ensures nearer { OnOk result (distance self.new < distance self.old) }
        ensures kept { OnErr result (still_to_come self.new ≡ still_to_come self.old) }
    {
        if station == 40 {
            self.phase = Phase::Taf;
            return Ok(None);
        }
        if station % 30 != self.minute % 30 {
            self.phase = Phase::Metar {
                station: station + 1,
            };
            return Ok(None);
        }
        let mut draws = self.draws;
        let step = draws.metar(alloc, self.moment(0), station)?;
        self.draws = draws;
        self.phase = Phase::Metar {
            station: station + 1,
        };
        Ok(Some(step))
    }

    /// The TAF, if there is one in this minute.
    fn taf(&mut self, alloc: Global) -> Result<Option<Step>, AllocError>
        requires sound { IsSound self.old }
        requires more { 0 < self.old.left }
        requires phase { self.old.phase ≡ Phase.Taf }
        ensures sound { IsSound self.new }
        ensures handed { IfOk result (HandsOut self.old self.new) }
        ensures nearer { OnOk result (distance self.new < distance self.old) }
        ensures kept { OnErr result (still_to_come self.new ≡ still_to_come self.old) }
    {
        let next = phase_after_taf(self.minute);
        let station = self.minute % 60;
        if station >= 40 {
            self.phase = next;
            return Ok(None);
        }
        let mut draws = self.draws;
        let step = draws.taf(alloc, self.moment(0), station)?;
        self.draws = draws;
        self.phase = next;
        Ok(Some(step))
    }

    /// A block of radar, or the blank ones after the last.
    fn block(&mut self, alloc: Global, number: u32) -> Result<Option<Step>, AllocError>
        requires sound { IsSound self.old }
        requires more { 0 < self.old.left }
        requires phase { self.old.phase ≡ Phase.Block number }
        ensures sound { IsSound self.new }
        ensures handed { IfOk result (HandsOut self.old self.new) }
        ensures nearer { OnOk result (distance self.new < distance self.old) }
        ensures kept { OnErr result (still_to_come self.new ≡ still_to_come self.old) }
    {
        if number == END_OF_BLOCKS {
            return Ok(self.blanks(alloc));
        }
        let mut draws = self.draws;
        let is_given = draws.next_number() % 2 == 0;
        if !is_given {
            self.listed.push(number)?;
            self.draws = draws;
            self.phase = Phase::Block { number: number + 1 };
            return Ok(None);
        }
        let step = draws.block(self.moment(0), number);
        self.draws = draws;
        self.phase = Phase::Block { number: number + 1 };
        Ok(Some(step))
    }

    /// The listed blocks as blank ones, if there are any.
    fn blanks(&mut self, alloc: Global) -> Option<Step>
        requires sound { IsSound self.old }
        requires more { 0 < self.old.left }
        requires phase { self.old.phase ≡ Phase.Block 100800 }
        ensures sound { IsSound self.new }
        ensures handed { HandsOut self.old self.new result }
        ensures nearer { distance self.new < distance self.old }
    {
        self.phase = Phase::Turn { second: 0 };
        if self.listed.is_empty() {
            return None;
        }
        let numbers = mem::replace(&mut self.listed, Vec::new(alloc));
        Some(Step::Blanks {
            moment: self.moment(0),
            numbers: Numbers::of(numbers),
        })
    }

    /// The turn of a second, if the minute has one more.
    fn turn(&mut self, second: u32) -> Option<Step>
        requires sound { IsSound self.old }
        requires more { 0 < self.old.left }
        requires phase { self.old.phase ≡ Phase.Turn second }
        ensures sound { IsSound self.new }
        ensures handed { HandsOut self.old self.new result }
        ensures nearer { distance self.new < distance self.old }
    {
        if second == 60 {
            self.phase = Phase::Picture;
            return None;
        }
        self.phase = Phase::Hearing { second };
        Some(Step::Turn {
            moment: self.moment(second),
            slot: (second % 32) as u8,
        })
    }

    /// The hearing of the frame of a second, if it is heard.
    fn hearing(&mut self, alloc: Global, second: u32) -> Result<Option<Step>, AllocError>
        requires sound { IsSound self.old }
        requires more { 0 < self.old.left }
        requires phase { self.old.phase ≡ Phase.Hearing second }
        ensures sound { IsSound self.new }
        ensures handed { IfOk result (HandsOut self.old self.new) }
        ensures nearer { OnOk result (distance self.new < distance self.old) }
        ensures kept { OnErr result (still_to_come self.new ≡ still_to_come self.old) }
    {
        let mut draws = self.draws;
        let step = draws.hearing(alloc, self.moment(second))?;
        self.draws = draws;
        self.phase = Phase::Turn { second: second + 1 };
        Ok(step)
    }

    /// The picture, which ends the minute.
    fn picture(&mut self) -> Step
        requires sound { IsSound self.old }
        requires more { 0 < self.old.left }
        requires phase { self.old.phase ≡ Phase.Picture }
        ensures sound { IsSound self.new }
        ensures handed { HandsOut self.old self.new (Some result) }
        ensures nearer { distance self.new < distance self.old }
    {
        let moment = self.moment(59);
        self.minute += 1;
        self.left -= 1;
        self.phase = Phase::Metar { station: 0 };
        Step::Show { moment }
    }

    /// The moment of a second of this minute.
    fn moment(&self, second: u32) -> Moment
        requires minute { self.now.minute < 1000 }
        requires second { second < 60 }
        ensures { result ≡ moment_of_minute self.now.minute + second }
    {
        Moment::new(1_700_000_040 + 60 * u64::from(self.minute) + u64::from(second)).unwrap()
    }
}

/// What comes after the TAF of a minute: the blocks of radar in every fifth one, and else the
/// turns.
fn phase_after_taf(minute: u32) -> Phase
    ensures { result ≡ phase_after_taf minute }
{
    if minute % 5 == 0 {
        Phase::Block {
            number: FIRST_BLOCK,
        }
    } else {
        Phase::Turn { second: 0 }
    }
}
