// Whether a content may stand in its field: it is filled where it must be, and its list or the calendar has it.
ghost use Rattle.std.specs.Prelude.{◌≡◌, map, Ok, Err, MatchResult};
ghost use Rattle.fields.specs.Field.{any_of, one_of, same, filled, listed, gate, family};
ghost use Rattle.fields.specs.Meaning.{sort_of, cell_of};

use crate::bytes::has_nonzero;
use crate::field::{Content, Sort};
use crate::flaws::Flaw;
use numbers::dates::is_date;

fn has_code(codes: &[u64], number: u64) -> bool
    ensures { result ≡ any_of codes.now number }
{
    codes.contains(&number)
}

// Whether two texts have the same bytes.
#[tactic(auto, using(crate::proofs::Lists::same_texts))]
pub fn is_same(word: &[u8], text: &[u8]) -> bool
    ensures { result ≡ same word.now text.now }
{
    word == text
}

fn has_word(words: &[&[u8]], text: &[u8]) -> bool
    ensures { result ≡ one_of (map (λ w. w.now) words.now) text.now }
{
    words.contains(&text)
}

impl Sort {
    // Whether a content of this sort is more than nothing: 0, an empty text and digits that are all zeros are not.
    pub fn is_filled(self, content: Content) -> bool
        ensures { result ≡ filled (family (sort_of self)) (cell_of content.entry) }
    {
        match (self, content) {
            (Sort::Text | Sort::Word(_), Content::Text(text)) => !text.is_empty(),
            (Sort::LongDigits, Content::Text(digits)) => has_nonzero(digits),
            (Sort::Number | Sort::Code(_) | Sort::Date | Sort::Amount, Content::Number(number)) =>
                number > 0,
            _ => true,
        }
    }
}

fn is_listed(sort: Sort, content: Content) -> bool
    ensures { result ≡ listed (sort_of sort) (cell_of content.entry) }
{
    match (sort, content) {
        (Sort::Word(words), Content::Text(text)) => has_word(words, text),
        (Sort::Code(codes), Content::Number(number)) => has_code(codes, number),
        (Sort::Date, Content::Number(number)) => is_date(number),
        _ => true,
    }
}

// Whether a content is filled where it must be, and listed where it is filled.
pub fn check_value(sort: Sort, required: bool, content: Content) -> Result<(), Flaw>
    ensures { MatchResult result (λ _. gate (sort_of sort) required (cell_of content.entry) ≡ Ok (cell_of content.entry)) (λ e. gate (sort_of sort) required (cell_of content.entry) ≡ Err e) }
{
    let filled = sort.is_filled(content);
    if required && !filled {
        return Err(Flaw::Empty);
    }
    if filled && !is_listed(sort, content) {
        return Err(Flaw::Unfit);
    }
    Ok(())
}
