//! Frames on the air, and their payloads.
ghost use Rattle.std.specs.Prelude.{◌≡◌, ◌↔◌, ℕ, List, Some, None, is_ok, IsTrue, IfOk, IfErr};
ghost use Rattle.std.specs.Prelude.{OnOk, OnErr};
ghost use Rattle.uplink_weave.specs.Functions.{woven_frame, payload_in, counts_in, lost_block_in};
ghost use Rattle.uplink_weave.specs.Woven.{AllCorrectable, AreCorrected, HasCounts, HasPayload};
ghost use Rattle.uplink_weave.specs.Woven.{IsLostBlock, IsWoven};

use crate::blocks::{read_block, read_part, write_block, write_part};
use crate::laws::{functions_of_a_frame, woven_is_the_frame};
use rs_code::UplinkCode;
use uplink_frame::PAYLOAD_LENGTH;

/// The bytes of a frame on the air.
pub const FRAME_BYTES: usize = 552;

/// No code word is near the block of this number, which is from 0 to 5.
#[derive(Clone, Copy, Debug, PartialEq, Eq)]
pub struct Lost {
    pub block: u8,
}

/// Writes the frame that is woven of a payload.
pub fn weave(payload: &[u8; PAYLOAD_LENGTH], air: &mut [u8; FRAME_BYTES])
    ensures woven { IsWoven payload.now air.new }
    ensures only { (other : List ℕ) → IsWoven payload.now other → other ≡ air.new }
    ensures function { air.new ≡ woven_frame payload.now }
{
    woven_is_the_frame();
    let code = UplinkCode::new();
    for number in 0..6 {
        let mut word = read_part(payload, number);
        code.encode(&mut word);
        write_block(&word, number, air);
    }
}

// Corrects the words of the six blocks of a frame, and gives the number of bytes that were corrected in each.
fn correct_blocks(air: &[u8; FRAME_BYTES], words: &mut [[u8; 92]; 6]) -> Result<[u8; 6], Lost>
    ensures exactly { IsTrue (is_ok result) ↔ AllCorrectable air.now }
    ensures words { OnOk result (AreCorrected air.now words.new) }
    ensures counts { IfOk result (λ counts. HasCounts air.now counts) }
    ensures lost { IfErr result (λ lost. IsLostBlock air.now lost.block) }
{
    let code = UplinkCode::new();
    let mut counts = [0; 6];
    for number in 0..6 {
        let word = &mut words[number];
        read_block(air, number, word);
        match code.correct(word) {
            Ok(changed) => counts[number] = changed,
            Err(_) => return Err(Lost {
                block: number as u8,
            }),
        }
    }
    Ok(counts)
}

/// Writes the payload of a frame, and gives the number of bytes that were corrected in each of its six blocks. Where a
/// block is lost, the answer names the first such block and the payload stays as it is.
pub fn unweave(air: &[u8; FRAME_BYTES], payload: &mut [u8; PAYLOAD_LENGTH]) -> Result<[u8; 6], Lost>
    ensures exactly { IsTrue (is_ok result) ↔ AllCorrectable air.now }
    ensures payload { OnOk result (HasPayload air.now payload.new) }
    ensures counts { IfOk result (λ counts. HasCounts air.now counts) }
    ensures lost { IfErr result (λ lost. IsLostBlock air.now lost.block) }
    ensures unchanged { OnErr result (payload.new ≡ payload.old) }
    ensures function { OnOk result (payload_in air.now ≡ Some payload.new) }
    ensures counted { IfOk result (λ counts. counts ≡ counts_in air.now) }
    ensures none { OnErr result (payload_in air.now ≡ None) }
    ensures first_lost { IfErr result (λ lost. lost_block_in air.now ≡ Some lost.block) }
{
    functions_of_a_frame();
    let mut words = [[0; 92]; 6];
    let counts = correct_blocks(air, &mut words)?;
    for number in 0..6 {
        write_part(&words[number], number, payload);
    }
    Ok(counts)
}
