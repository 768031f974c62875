//! Laws of the definitions: each is the contract of a function that calls the laws of lower crates.
ghost use Rattle.fisb_app.specs.Origin.{IsOrigin, Origin};
ghost use Rattle.fisb_app.specs.Work.{link_work, origin_work, promised_work, receive_work};
ghost use Rattle.run_core.specs.Laws.{Agrees};
ghost use Rattle.run_core.specs.Run.{task_of};

use fisb_link::laws::{hearings_stay, pictures_agree};
use ground_core::laws::frames_read_back;
use life_table::laws::tables_keep_rules;
use script_core::laws::ranges_of_lines;
use uplink_weave::laws::near_frame_gives_payload;

/// What a link promises is what it does, whatever bytes it reads. The pictures by the bytes that
/// were heard are those that follow from what was given, sent and heard alone, as long as no block
/// of a frame was heard with more than ten wrong bytes.
pub fn promises_are_kept()
    ensures { Agrees (task_of link_work) (task_of promised_work) }
{
    tables_keep_rules();
    ranges_of_lines();
    near_frame_gives_payload();
    frames_read_back();
    hearings_stay();
    pictures_agree();
}

/// What a receiver promises is what it does. Whatever bytes it reads, its pictures follow from what
/// a broadcast was given and sent, and from which of its frames were heard. The premise is that each
/// frame came from there in time, with at most ten wrong bytes in each block.
pub fn origins_are_told()
    ensures { (origin : Origin) → IsOrigin origin
        → Agrees (task_of receive_work) (task_of (origin_work origin)) }
{
    tables_keep_rules();
    ranges_of_lines();
    near_frame_gives_payload();
    frames_read_back();
    hearings_stay();
    pictures_agree();
}
