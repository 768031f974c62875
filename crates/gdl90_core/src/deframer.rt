//! Messages from a stream of bytes.
ghost use Rattle.std.specs.Prelude.{◌≢◌, ℕ, List, [], ◌∷◌, ◌++◌, Option, Some};
ghost use Rattle.std.specs.Borrow.{sem};
ghost use Rattle.gdl90_core.specs.Framing.{escaped_bytes};
ghost use Rattle.gdl90_core.specs.Stream.{if_not_empty};

use crate::framing::{ESCAPE, ESCAPED_ESCAPE, ESCAPED_FLAG, FLAG};
use crate::piece_bytes::PieceBytes;
use crate::{Damage, Framed};

/// Where the stream stands.
#[derive(Clone, Copy)]
enum Stage {
    /// Before the first flag.
    Outside,
    /// At a flag. What is kept of an ended piece may still be lent.
    Start,
    /// Within a piece.
    Inside,
    /// Within a piece, at a control-escape.
    Escaping,
    /// Within a piece that has a bad escape.
    Broken,
}

/// Reads the messages of a stream byte by byte.
#[derive(Drop)]
pub struct Deframer {
    stage: Stage,
    kept: PieceBytes,
}

impl Deframer {
    ghost use Rattle.gdl90_core.specs.StandsFor.{Answers, EndsAs, GoesOn, IsAt, Keeps};
    ghost use Rattle.gdl90_core.specs.StandsFor.{PieceAnswers, StandsFor};

    /// A deframer before any byte.
    pub fn new() -> Deframer
        ensures { StandsFor result [] }
    {
        Deframer {
            stage: Stage::Outside,
            kept: PieceBytes::new(),
        }
    }

    /// Takes the stream's next byte, and tells what the piece says that it ends.
    pub fn feed(&mut self, byte: u8) -> Option<Framed<'_>>
        ensures* stands { sem 𝓛 (EndsAs self.entry (λ new. GoesOn self.old byte new)) }
        ensures answer { (stream : List ℕ) → StandsFor self.old stream
            → Answers stream byte result }
    {
        if byte != FLAG {
            self.take(byte);
            return None;
        }
        let ended = self.stage;
        self.stage = Stage::Start;
        self.reading_at(ended)
    }

    /// What the piece says that ended at this stage.
    fn reading_at(&self, ended: Stage) -> Option<Framed<'_>>
        ensures { (piece : Option (List ℕ)) → IsAt ended self.now.kept piece
            → PieceAnswers (if_not_empty piece) result }
    {
        match ended {
            Stage::Outside | Stage::Start => None,
            Stage::Inside => Some(self.kept.reading()),
            Stage::Escaping | Stage::Broken => Some(Framed::Damaged(Damage::BadEscape)),
        }
    }

    /// Takes a byte that is no flag.
    fn take(&mut self, byte: u8)
        requires { byte ≢ 0x7E }
        ensures { GoesOn self.old byte self.new }
    {
        match self.stage {
            Stage::Outside | Stage::Broken => {}
            Stage::Start => {
                self.kept.clear();
                self.take_unescaped(byte);
            }
            Stage::Inside => self.take_unescaped(byte),
            Stage::Escaping => self.take_escaped(byte),
        }
    }

    /// Takes a byte after whole bytes of a piece.
    fn take_unescaped(&mut self, byte: u8)
        requires { byte ≢ 0x7E }
        ensures { (bytes : List ℕ) → Keeps self.old.kept bytes
            → IsAt self.new.stage self.new.kept (Some (escaped_bytes bytes ++ byte ∷ [])) }
    {
        if byte == ESCAPE {
            self.stage = Stage::Escaping;
        } else {
            self.stage = Stage::Inside;
            self.kept.push(byte);
        }
    }

    /// Takes the byte after a control-escape.
    fn take_escaped(&mut self, byte: u8)
        ensures { (bytes : List ℕ) → Keeps self.old.kept bytes
            → IsAt self.new.stage self.new.kept (Some (escaped_bytes bytes ++ 0x7D ∷ byte ∷ [])) }
    {
        if byte == ESCAPED_FLAG {
            self.stage = Stage::Inside;
            self.kept.push(FLAG);
        } else if byte == ESCAPED_ESCAPE {
            self.stage = Stage::Inside;
            self.kept.push(ESCAPE);
        } else {
            self.stage = Stage::Broken;
        }
    }
}
