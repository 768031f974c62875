//! Laws of the definitions, for the crates above: each is the contract of a function that does nothing.
ghost use Rattle.std.specs.Prelude.{◌≡◌, ℕ, ◌+◌, ◌*◌, ◌/◌, ◌<◌, List, [], ◌∷◌, length, All, None};
ghost use Rattle.std.specs.Prelude.{Some};
ghost use Rattle.std.specs.Str.{chars, IsUtf8};
ghost use Rattle.dlac_text.specs.Alphabet.{IsDlac};
ghost use Rattle.dlac_text.specs.Payload.{text_payload};
ghost use Rattle.dlac_text.specs.Pieces.{IsCutInOneWay};
ghost use Rattle.dlac_text.specs.Plain.{plain_text, text_of_plain};
ghost use Rattle.dlac_text.specs.Refusal.{IsSendable, text_refusal};
ghost use Rattle.bit_fields.specs.Bits.{AreBytes};
ghost use Rattle.dlac_text.specs.SixBits.{packed_bytes, six_bit_groups};
ghost use Rattle.dlac_text.specs.SixBitFields.{AreRead, AreWritten};
ghost use Rattle.dlac_text.specs.Reports.{reports_of, HasReportsOfItsPieces};

/// Every list of codes is cut into pieces in exactly one way, and the reports of a payload are the texts between the
/// ends of its pieces, the empty ones left out.
pub fn codes_are_pieces()
    ensures one_way { (codes : List ℕ) → IsCutInOneWay codes }
    ensures reports { (payload : List ℕ) → HasReportsOfItsPieces payload }
{}

/// Code k stands at bit 6 k: the codes of some bytes are their fields of six bits, and the bytes of
/// some codes have them as such fields, with zero bits to a whole byte.
pub fn codes_are_fields()
    ensures read { (bytes : List ℕ) → AreBytes bytes → AreRead bytes (six_bit_groups bytes) }
    ensures written { (codes : List ℕ) → All (λ code. code < 64) codes →
        AreWritten codes (packed_bytes codes) }
{}

/// Reading undoes writing: the reports of the payload of a text are that text alone.
pub fn reading_undoes_writing()
    ensures text { (text : List ℕ)
        → IsDlac text → 0 < length text → reports_of (text_payload text) ≡ text ∷ [] }
    ensures empty { reports_of (text_payload []) ≡ [] }
{}

/// The size of a payload: six bits a character and for the end, in whole bytes.
pub fn payload_size()
    ensures size { (text : List ℕ) → length (text_payload text) ≡ (6 * (length text + 1) + 7) / 8 }
    ensures bytes { (text : List ℕ) → IsDlac text → All (λ byte. byte < 256) (text_payload text) }
{}

/// Reading a plain text undoes showing a report as one.
pub fn plain_text_reads_back()
    ensures { (text : List ℕ) → IsDlac text → text_of_plain (plain_text text) ≡ Some text }
{}

/// What a plain text shows is UTF-8, as the plain text is.
pub fn shown_texts()
    ensures { (text shown : List ℕ) → IsUtf8 text → text_of_plain text ≡ Some shown → IsUtf8 shown }
{}

/// A text that is not refused can be sent.
pub fn refused_texts()
    ensures { (text : List ℕ) → IsUtf8 text → text_refusal (chars text) ≡ None → IsSendable text }
{}
