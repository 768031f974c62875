//! Frames of other types and products: they are passed on unread, in their order.
use crate::tests::{NOW, entries_at, hear_bytes, hear_digits, new_receiver};
use receiver_core::{Receiver, Unread, UnreadReason};
use std::alloc::Global;
use std::test::Fail;

/// A header with a valid position, in slot 5.
const OTHER_SLOT: &str = "000000000001a530";

/// A frame of type 2, and one of product 8.
const OTHERS: &str = "0202aabbccdd0200002058d0";

/// Whether these parts are one of a frame of type 2 and one of product 8, of four bytes each.
fn are_of_another_type_and_product(parts: &[Unread]) -> bool {
    match parts {
        [first, second] => {
            first.reason == UnreadReason::Kind
                && first.kind == 2
                && first.product == 0
                && first.length == 4
                && second.reason == UnreadReason::Product
                && second.kind == 0
                && second.product == 8
                && second.length == 4
        }
        _ => false,
    }
}

/// Whether frames of another type and product, after a header of another slot, are passed on.
fn are_others_passed_on(alloc: Global, receiver: &mut Receiver) -> Result<bool, Fail> {
    let answer = hear_digits(alloc, receiver, NOW, OTHER_SLOT, OTHERS)?;
    Ok(are_of_another_type_and_product(answer.unread.all()))
}

#[test]
fn frames_of_other_types_and_products_are_passed_on(rt: HostRuntime) -> Result<(), Fail> {
    let mut receiver = new_receiver(rt.alloc())?;
    assert!(rt; are_others_passed_on(rt.alloc(), &mut receiver)?);
    assert_eq!(rt; entries_at(&receiver, rt.alloc(), NOW)?, 0);
    Ok(())
}

/// Whether this part of a frame of another type, of two bytes, is passed on.
fn is_of_type(part: &Unread, kind: u8) -> bool {
    part.reason == UnreadReason::Kind && part.kind == kind && part.product == 0 && part.length == 2
}

/// Whether these are ten parts, of the types 1, 2 and so on.
fn are_ten_types_in_order(parts: &[Unread]) -> bool {
    let mut kind = 1u8;
    for part in parts {
        if !is_of_type(part, kind) {
            return false;
        }
        kind = kind.wrapping_add(1);
    }
    parts.len() == 10
}

/// Ten frames of the types 1, 2 and so on, of two bytes each.
fn ten_frames(alloc: Global) -> Result<Vec<u8>, Fail> {
    let mut data = Vec::new(alloc);
    for kind in 1..11 {
        data.extend_from_slice(&[0x01, kind, 0x00, 0x00])?;
    }
    Ok(data)
}

/// Whether they are passed on in their order.
fn are_ten_passed_on(receiver: &mut Receiver, frames: &[u8]) -> Result<bool, Fail> {
    let answer = hear_bytes(receiver, NOW, frames)?;
    Ok(answer.unread.len() == 10 && are_ten_types_in_order(answer.unread.all()))
}

#[test]
fn ten_unread_frames_are_passed_on_in_their_order(rt: HostRuntime) -> Result<(), Fail> {
    let mut receiver = new_receiver(rt.alloc())?;
    let frames = ten_frames(rt.alloc())?;
    assert!(rt; are_ten_passed_on(&mut receiver, frames.as_slice())?);
    Ok(())
}
