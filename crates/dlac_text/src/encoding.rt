//! From a text to the bytes of its payload.
ghost use Rattle.std.specs.Prelude.{◌≡◌, ℕ, ◌<◌, ◌↔◌, ◌^◌, length, IfOk, OnOk, MatchResult, None};
ghost use Rattle.std.specs.Prelude.{Some, map, [], ◌∷◌, ◌++◌};
ghost use Rattle.std.specs.Str.{chars};
ghost use Rattle.dlac_text.specs.Alphabet.{IsDlac, code_of};
ghost use Rattle.dlac_text.specs.Payload.{text_payload};
ghost use Rattle.dlac_text.specs.SixBits.{packed_bytes};
ghost use Rattle.dlac_text.specs.Refusal.{first_bad, longest_text, IsSendable, text_refusal};
ghost use Rattle.dlac_text.specs.Refusal.{told_of_text};

use crate::alphabet::{code_of, is_in_alphabet};
use crate::six_bits::packed_group;
use crate::text_fault::TextFault;
use fisb_wire::Bytes;
use std::alloc::{AllocError, Global};

/// The greatest number of characters of one text.
const LONGEST_TEXT: usize = 16_384;

/// The payload of a text: one six-bit code a character, the code 0, and zero bits to a whole byte.
///
/// # Errors
///
/// `BadCharacter` where a character is outside the alphabet, with the least place of one, counted in characters
/// from 0; else `TooLong` where there are more than 16,384 characters; else `NoMemory` where memory runs out.
pub fn encode_text(alloc: Global, text: &str) -> Result<Bytes, TextFault>
    requires { length text.now < 2 ^ 32 }
    ensures payload { IfOk result (λ bytes. bytes ≡ text_payload text.now) }
    ensures sendable { OnOk result (IsSendable text.now) }

    // Which text is refused, and why; the text is seen as its characters.
    ensures bad_character { (place : ℕ)
        → ((result ≡ Err (TextFault.BadCharacter place))
        ↔ (first_bad (chars text.now) ≡ Some place)) }
    ensures too_long { (result ≡ Err TextFault.TooLong)
        ↔ (IsDlac (chars text.now) × (longest_text < length (chars text.now))) }
    ensures no_memory { result ≡ Err TextFault.NoMemory → IsSendable text.now }

    // The same as one function of the text.
    ensures refusal { MatchResult result
        (λ _. text_refusal (chars text.now) ≡ None)
        (λ fault. text_refusal (chars text.now) ≡ told_of_text fault) }
{
    if let Some(place) = first_bad(text) {
        return Err(TextFault::BadCharacter {
            place: place as u32,
        });
    }
    if text.len() > LONGEST_TEXT {
        return Err(TextFault::TooLong);
    }
    match payload_bytes(alloc, text.as_bytes()) {
        Ok(bytes) => Ok(Bytes::of(bytes)),
        Err(_) => Err(TextFault::NoMemory),
    }
}

/// The least place of a character outside the alphabet.
fn first_bad(text: &str) -> Option<usize>
    ensures { result ≡ first_bad (chars text.now) }
{
    text.chars()
        .position(|character| !is_in_alphabet(character))
}

/// The bytes of the codes of some characters of the alphabet and the code 0 after them.
fn payload_bytes(alloc: Global, characters: &[u8]) -> Result<Vec<u8>, AllocError>
    requires { IsDlac characters.now }
    ensures { IfOk result (λ bytes. bytes.items ≡ text_payload characters.now) }
{
    let mut bytes = Vec::with_capacity(alloc, characters.len() / 4 * 3 + 3)?;
    let mut rest = characters;
    while let [first, second, third, fourth, more @ ..] = rest {
        let group = packed_group(
            code_of(*first),
            code_of(*second),
            code_of(*third),
            code_of(*fourth),
        );
        bytes.extend_from_slice(&group)?;
        rest = more;
    }
    push_last_group(&mut bytes, rest)?;
    Ok(bytes)
}

/// Puts the bytes of at most three characters and of the code 0 after them at the end.
fn push_last_group(bytes: &mut Vec<u8>, characters: &[u8]) -> Result<(), AllocError>
    requires alphabet { IsDlac characters.now }
    requires few { length characters.now < 4 }
    ensures { IfOk result (λ _. bytes.new.items
        ≡ bytes.old.items ++ packed_bytes (map code_of characters.now ++ 0 ∷ [])) }
{
    match characters {
        [first, second, third] => {
            let group = packed_group(code_of(*first), code_of(*second), code_of(*third), 0);
            bytes.extend_from_slice(&group)
        }
        [first, second] => {
            let group = packed_group(code_of(*first), code_of(*second), 0, 0);
            bytes.extend_from_slice(&group)
        }
        [first] => {
            let group = packed_group(code_of(*first), 0, 0, 0);
            bytes.extend_from_slice(&group[..2])
        }
        _ => {
            bytes.push(0)?;
            Ok(())
        }
    }
}
