// The letters by which the books are known.
ghost use Rattle.std.specs.Prelude.{◌≡◌, Some, [], ◌∷◌};
ghost use Rattle.books.specs.Letters.{byte_of, ReadsByte, ReadsWord};

use std::fmt;
use std::str::FromStr;

#[derive(Clone, Copy, PartialEq, Eq, Debug)]
pub enum Letter {
    // Outgoing receipts.
    P,
    // Returned receipts.
    Q,
    // Recurring charges.
    S,
}

// A byte or a word by which no book is known.
#[derive(Clone, Copy, PartialEq, Eq, Debug)]
pub struct NoLetter;

impl TryFrom<u8> for Letter {
    type Error = NoLetter;

    ghost try_from_gives = { ReadsByte };

    // The letter that the byte is, if it is one.
    fn try_from(byte: u8) -> Result<Letter, NoLetter> {
        match byte {
            b'P' => Ok(Letter::P),
            b'Q' => Ok(Letter::Q),
            b'S' => Ok(Letter::S),
            _ => Err(NoLetter),
        }
    }
}

impl From<Letter> for u8 {
    ghost from_gives = { λ letter byte. byte ≡ byte_of letter };

    fn from(letter: Letter) -> u8 {
        match letter {
            Letter::P => b'P',
            Letter::Q => b'Q',
            Letter::S => b'S',
        }
    }
}

impl FromStr for Letter {
    type Err = NoLetter;

    ghost from_str_gives = { ReadsWord };

    // The letter that a word is, if it is one.
    fn from_str(word: &str) -> Result<Letter, NoLetter> {
        let [byte] = word.as_bytes() else {
            return Err(NoLetter);
        };
        Letter::try_from(*byte)
    }
}

impl fmt::Display for Letter {
    ghost output = { λ letter. Some (byte_of letter ∷ []) };

    fn fmt<W: fmt::Write>(&self, f: &mut fmt::Formatter<W>) -> fmt::Result {
        f.write_str(match self {
            Letter::P => "P",
            Letter::Q => "Q",
            Letter::S => "S",
        })
    }
}
