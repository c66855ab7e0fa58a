// The words for the forms.
ghost use Rattle.std.specs.Prelude.{◌≡◌, MatchResult, Some};
ghost use Rattle.transcribe.specs.Transcribed.{word_of, NoWord};

use std::fmt;
use std::str::FromStr;

#[derive(Clone, Copy, PartialEq, Eq, Debug)]
pub enum FormName {
    Flat,
    Lined,
    Hexadecimal,
}

// The word is no form's.
#[derive(Clone, Copy, PartialEq, Eq, Debug)]
pub struct UnknownForm;

impl FormName {
    pub fn word(self) -> &'static str
        ensures { result.now ≡ word_of self }
    {
        match self {
            FormName::Flat => "flat",
            FormName::Lined => "lined",
            FormName::Hexadecimal => "hexadecimal",
        }
    }
}

impl fmt::Display for FormName {
    ghost output = { λ f. Some (word_of f) };

    fn fmt<W: fmt::Write>(&self, f: &mut fmt::Formatter<W>) -> fmt::Result {
        f.write_str(self.word())
    }
}

impl FromStr for FormName {
    type Err = UnknownForm;

    ghost from_str_gives = { λ word r. MatchResult r (λ f. word ≡ word_of f) (λ _. NoWord word) };

    fn from_str(word: &str) -> Result<FormName, UnknownForm> {
        match word {
            "flat" => Ok(FormName::Flat),
            "lined" => Ok(FormName::Lined),
            "hexadecimal" => Ok(FormName::Hexadecimal),
            _ => Err(UnknownForm),
        }
    }
}
