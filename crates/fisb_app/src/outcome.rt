//! What a line gave whose text has no bytes of a frame. It is small, since each line answers one.
ghost use Rattle.std.specs.Prelude.{◌≡◌, ℕ, [], List, IfOk};
ghost use Rattle.fisb_app.specs.Outcome.{event_text};
ghost use Rattle.fisb_app.specs.declared.outcome.Event.TheVariants.{Sent};

use fisb_time::Moment;
use fisb_wire::Bytes;
use ground_core::AirFrame;
use picture_core::Entries;
use receiver_core::Heard;
use run_core::Given;
use script_core::{print_heard, print_lost, print_noapp, print_picture, print_sent};
use std::alloc::{AllocError, Global};
use std::marker::Model;
use uplink_weave::FRAME_BYTES;

/// What was done for a line.
#[derive(Drop)]
pub(crate) enum Event {
    /// Nothing that is written.
    Nothing,
    /// A frame was sent. Its bytes are not written.
    Sent {
        index: u32,
        moment: Moment,
        slot: u8,
        bodies: u16,
        used: u16,
    },
    /// A frame was heard.
    Heard {
        moment: Moment,
        heard: Heard,
    },
    /// A frame was lost for a block.
    Lost {
        moment: Moment,
        block: u8,
    },
    /// A frame without valid application data came.
    NoApplication {
        moment: Moment,
    },
    /// A picture was shown.
    Picture {
        moment: Moment,
        entries: Entries,
    },
}

/// What was done for a line. In contracts it is the text of that.
#[derive(Drop)]
pub(crate) struct Outcome {
    event: Event,
}

impl Model for Outcome {
    ghost Value = { List ℕ };

    ghost view = { λ o. event_text o.event };
}

impl Outcome {
    pub(crate) fn of(event: Event) -> Outcome
        ensures { result ≡ event_text event }
    {
        Outcome { event }
    }
}

impl Given for Outcome {
    ghost text = { λ outcome. outcome };

    fn print(&self, alloc: Global) -> Result<Bytes, AllocError> {
        match &self.event {
            Event::Nothing => Ok(no_text(alloc)),
            Event::Sent {
                index,
                moment,
                slot,
                bodies,
                used,
            } => print_sent_alone(alloc, *index, *moment, *slot, *bodies, *used),
            Event::Heard { moment, heard } => print_heard(alloc, *moment, heard),
            Event::Lost { moment, block } => print_lost(alloc, *moment, *block),
            Event::NoApplication { moment } => print_noapp(alloc, *moment),
            Event::Picture { moment, entries } => print_picture(alloc, *moment, entries),
        }
    }
}

/// The text of a frame that was sent, without its bytes.
fn print_sent_alone(
    alloc: Global,
    index: u32,
    moment: Moment,
    slot: u8,
    bodies: u16,
    used: u16,
) -> Result<Bytes, AllocError>
    ensures { IfOk result (λ text. text ≡ event_text (Sent index moment slot bodies used)) }
{
    let frame = AirFrame {
        moment,
        slot,
        bodies,
        used,
        air: [0; FRAME_BYTES],
    };
    print_sent(alloc, index, &frame, false)
}

/// The text of a line that writes nothing.
pub(crate) fn no_text(alloc: Global) -> Bytes
    ensures { result ≡ [] }
{
    Bytes::of(Vec::new(alloc))
}
