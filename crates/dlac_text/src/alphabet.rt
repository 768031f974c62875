//! The characters of the six-bit alphabet, and their codes.
ghost use Rattle.std.specs.Prelude.{◌≡◌, ◌<◌, IsTrue};
ghost use Rattle.dlac_text.specs.Alphabet.{is_in_alphabet, code_of, character_or_zero};

/// Whether a character has a DLAC code.
pub fn is_in_alphabet(character: char) -> bool
    ensures { result ≡ is_in_alphabet character }
{
    if matches!(character, ' '..='?' | 'A'..='Z') {
        return true;
    }
    matches!(character, '\u{1A}' | '\n' | '|')
}

/// The six-bit code of a character of the alphabet, which is given as its ASCII byte.
pub fn code_of(character: u8) -> u8
    requires { IsTrue (is_in_alphabet character) }
    ensures code { result ≡ code_of character }
    ensures six_bits { result < 64 }
{
    if b' ' <= character && character <= b'Z' {
        return character % 64;
    }
    match character {
        0x1A => 27,
        b'\n' => 30,
        _ => 31,
    }
}

/// The characters of the codes, each as its ASCII byte; 0 stands for the codes 0, 28 and 29, which
/// are none.
const CHARACTERS: [u8; 64] = [
    0, 65, 66, 67, 68, 69, 70, 71, 72, 73, 74, 75, 76, 77, 78, 79, 80, 81, 82, 83, 84, 85, 86, 87,
    88, 89, 90, 26, 0, 0, 10, 124, 32, 33, 34, 35, 36, 37, 38, 39, 40, 41, 42, 43, 44, 45, 46, 47,
    48, 49, 50, 51, 52, 53, 54, 55, 56, 57, 58, 59, 60, 61, 62, 63,
];

/// The same table, which is read where it stands.
static CHARACTERS_IN_PLACE: [u8; 64] = CHARACTERS;

/// The character that a six-bit code stands for, as its ASCII byte; 0 where it stands for none.
#[inline]
#[tactic(auto, using(crate::proofs::CharacterRows::row_is_character))]
pub fn character_or_zero(code: u8) -> u8
    requires { code < 64 }
    ensures { result ≡ character_or_zero code }
{
    CHARACTERS_IN_PLACE[usize::from(code)]
}
