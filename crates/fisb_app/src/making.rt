//! What the steps of a workload make: a ground, a receiver, and the frame between them.
ghost use Rattle.std.specs.Prelude.{◌≡◌, ◌+◌, ◌<◌, Option, Some, [], IfOk, All, fold, is_some};
ghost use Rattle.std.specs.Prelude.{length};
ghost use Rattle.life_table.specs.LifeTable.{default_table};
ghost use Rattle.uplink_weave.specs.Woven.{frame_bytes};
ghost use Rattle.ground_core.specs.Airing.{Frame};
ghost use Rattle.workload.specs.Step.{FitsStep};
ghost use Rattle.workload.specs.declared.step.Step.TheVariants.{Text, Block, Blanks, Turn, Hear};
ghost use Rattle.workload.specs.declared.step.Step.TheVariants.{Show};
ghost use Rattle.fisb_app.specs.Reading.{earlier_than};
ghost use Rattle.fisb_app.specs.MakingHolds.{HasStepped, IsCounted, IsInAir, MakingHolds};
ghost use Rattle.fisb_app.specs.MakingHolds.{aired_one, sent_one};

use crate::counts::Counts;
use crate::ear::Ear;
use crate::sender::Sender;
use crate::sending;
use crate::sent_frame::SentFrame;
use crate::stopping::answer;
use fisb_time::Moment;
use ground_core::laws::histories_grow;
use life_table::{LifeTable, REGIONAL_RADAR};
use radar_core::{BlockKey, Cells};
use receiver_core::{HearFault, ShowFault};
use run_core::Stop;
use std::alloc::{AllocError, Global};
use uplink_frame::StationId;
use uplink_weave::FRAME_BYTES;
use workload::{Changes, Step};

/// The most frames of a run, as a count of turns.
const FRAME_LIMIT: u64 = sending::FRAME_LIMIT as u64;

/// What the steps acted on have made.
#[derive(Drop)]
pub(crate) struct Making<G: Sender, E: Ear> {
    pub(crate) ground: G,
    pub(crate) ear: E,
    /// How long after it was sent a frame may be heard.
    pub(crate) late: u64,
    /// The last moment of a step that concerns the receiver.
    pub(crate) clock: Option<Moment>,
    /// The frame that was sent last.
    pub(crate) last: Option<SentFrame>,
    pub(crate) counts: Counts,
}

impl<G: Sender, E: Ear> Making<G, E> {
    /// Before any step, under the default table.
    pub(crate) fn new(alloc: Global) -> Result<Making<G, E>, AllocError>
        ensures { IfOk result (MakingHolds G.stands E.stands default_table []) }
    {
        let station = StationId {
            lat: 0,
            lon: 0,
            position_valid: false,
            site: 0,
        };
        let table = LifeTable::default_table(alloc)?;
        let copy = table.copy(alloc)?;
        Ok(Making {
            late: table.late(),
            ground: G::new(alloc, station, table),
            ear: E::new(alloc, copy),
            clock: None,
            last: None,
            counts: Counts {
                updates: 0,
                turns: 0,
                heard: 0,
                corrected: 0,
                entries: 0,
            },
        })
    }

    /// Acts on a step, unless a reason stands against it.
    pub(crate) fn take(&mut self, alloc: Global, step: &Step) -> Result<(), AllocError>
        requires { FitsStep step.now }
        ensures { HasStepped G.stands E.stands self.old self.new step.now result }
    {
        match step {
            Step::Text { moment, text } => self.give_text(*moment, text.all()),
            Step::Block {
                moment,
                number,
                cells,
            } => self.give_block(*moment, *number, cells),
            Step::Blanks { moment, numbers } => self.give_blanks(*moment, numbers.all()),
            Step::Turn { moment, slot } => self.turn(*moment, *slot),
            Step::Hear { moment, changes } => self.hear(*moment, changes),
            Step::Show { moment } => self.show(alloc, *moment),
        }
    }

    fn give_text(&mut self, moment: Moment, text: &str) -> Result<(), AllocError>
        requires { length text.now < 1000 }
        ensures { HasStepped G.stands E.stands self.old self.new (Text moment text.now) result }
    {
        histories_grow();
        let given = answer(self.ground.give_text(moment, moment, text));
        self.count_update(given)
    }

    fn give_block(&mut self, moment: Moment, number: u32, cells: &Cells) -> Result<(), AllocError>
        ensures { HasStepped G.stands E.stands self.old self.new (Block moment number cells.now)
            result }
    {
        histories_grow();
        let key = BlockKey {
            product: REGIONAL_RADAR,
            scale: 0,
            south: false,
            number,
        };
        let given = answer(self.ground.give_cells(moment, moment, &key, cells));
        self.count_update(given)
    }

    fn give_blanks(&mut self, moment: Moment, numbers: &[u32]) -> Result<(), AllocError>
        ensures { HasStepped G.stands E.stands self.old self.new (Blanks moment numbers.now)
            result }
    {
        histories_grow();
        let given = answer(
            self.ground
                .give_blanks(moment, moment, REGIONAL_RADAR, 0, false, numbers),
        );
        self.count_update(given)
    }

    /// Counts an update that was given.
    fn count_update(&mut self, given: Result<(), Stop>) -> Result<(), AllocError>
        ensures { IsCounted self.old self.new given result }
    {
        match given {
            Ok(()) => {
                self.counts.updates = sum(self.counts.updates, 1)?;
                Ok(())
            }
            Err(Stop::Refused(_)) => Ok(()),
            Err(Stop::NoMemory) => Err(AllocError),
        }
    }

    /// Fills a frame, and keeps it.
    fn turn(&mut self, moment: Moment, slot: u8) -> Result<(), AllocError>
        requires { slot < 32 }
        ensures { HasStepped G.stands E.stands self.old self.new (Turn moment slot) result }
    {
        histories_grow();
        if self.counts.turns >= FRAME_LIMIT {
            return Ok(());
        }
        let Ok(frame) = self.ground.fill(moment, slot) else {
            return Ok(());
        };
        let air = frame.air;
        self.last = Some(SentFrame {
            moment: frame.moment,
            air,
        });
        self.counts.turns += 1;
        Ok(())
    }

    /// Hears the frame that was sent last, with its changes in it.
    fn hear(&mut self, moment: Moment, changes: &Changes) -> Result<(), AllocError>
        requires { All (λ change. change.0 < frame_bytes) changes.now }
        ensures { HasStepped G.stands E.stands self.old self.new (Hear moment changes.now) result }
    {
        if self.is_early(moment) {
            return Ok(());
        }
        let Some(mut air) = self.air_of_last(moment) else {
            return Ok(());
        };
        changes.add_to(&mut air);
        match self.ear.hear(moment, &air) {
            Ok(heard) => {
                self.counts.heard = sum(self.counts.heard, 1)?;
                self.counts.corrected = sum(self.counts.corrected, sum_of(heard.corrected))?;
                self.clock = Some(moment);
                Ok(())
            }
            Err(HearFault::Lost { .. }) => {
                self.clock = Some(moment);
                Ok(())
            }
            Err(HearFault::NoApplication) => {
                self.clock = Some(moment);
                Ok(())
            }
            Err(HearFault::Clock { .. }) => Ok(()),
            Err(HearFault::NoMemory) => Err(AllocError),
        }
    }

    /// Takes a picture, and counts its entries.
    fn show(&mut self, alloc: Global, moment: Moment) -> Result<(), AllocError>
        ensures { HasStepped G.stands E.stands self.old self.new (Show moment) result }
    {
        if self.is_early(moment) {
            return Ok(());
        }
        match self.ear.picture(alloc, moment) {
            Ok(entries) => {
                self.counts.entries = sum(self.counts.entries, entries.len() as u64)?;
                self.clock = Some(moment);
                Ok(())
            }
            Err(ShowFault::Clock { .. }) => Ok(()),
            Err(ShowFault::NoMemory) => Err(AllocError),
        }
    }

    /// Whether a moment is below the last one of the receiver.
    fn is_early(&self, moment: Moment) -> bool
        ensures { result ≡ is_some (earlier_than (Some moment) self.now.clock) }
    {
        match self.clock {
            Some(kept) => moment < kept,
            None => false,
        }
    }

    /// The bytes on the air of the frame that was sent last, in time.
    fn air_of_last(&self, moment: Moment) -> Option<[u8; FRAME_BYTES]>
        ensures { (sent : Option Frame) → sent_one self.now.last ≡ aired_one sent
            → IsInAir self.now.late moment sent result }
    {
        let Some(sent) = self.last else {
            return None;
        };
        if moment < sent.moment {
            return None;
        }
        let age = moment.seconds().saturating_sub(sent.moment.seconds());
        if age > self.late {
            return None;
        }
        Some(sent.air)
    }
}

/// The sum of two counts, where it is a count.
fn sum(one: u64, other: u64) -> Result<u64, AllocError>
    ensures { IfOk result (λ sum. sum ≡ one + other) }
{
    match one.checked_add(other) {
        Some(sum) => Ok(sum),
        None => Err(AllocError),
    }
}

/// The sum of the counts of the six blocks.
fn sum_of(counts: [u8; 6]) -> u64
    ensures { result ≡ fold (λ sum count. sum + count) 0 counts }
{
    let [first, second, third, fourth, fifth, sixth] = counts;
    u64::from(first)
        + u64::from(second)
        + u64::from(third)
        + u64::from(fourth)
        + u64::from(fifth)
        + u64::from(sixth)
}
