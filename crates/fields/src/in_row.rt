// A field in its row of 750 bytes.
ghost use Rattle.std.specs.Prelude.{◌≡◌, ◌+◌, ◌^◌, ◌<◌, IfOk, Some, MatchResult};
ghost use Rattle.refusals.specs.Refusals.{of_field, refusal_in};
ghost use Rattle.refusals.specs.Faults.{in_row, fault_in};
ghost use Rattle.fields.specs.Field.{wide, fits, read_field, write_field};
ghost use Rattle.fields.specs.InRow.{offset, located, at_field, part, ReadAs, WrittenAs};
ghost use Rattle.fields.specs.Meaning.{sort_of, field_of, cell_of};

use crate::field::{Content, Field, Sort, Working};
use crate::flaws::Flaw;
use crate::parts::{read_part, write_part};
use refusals::FieldFault;

// Whether a width is one of the sort.
fn is_wide(sort: Sort, width: usize) -> bool
    ensures { result ≡ wide (sort_of sort) width }
{
    match sort {
        Sort::Constant(content) => content.len() <= width,
        Sort::Blank | Sort::Text | Sort::Word(_) => true,
        Sort::Number | Sort::Code(_) => matches!(width, 1..=18),
        Sort::Date => width == 8,
        Sort::Amount => width == 17,
        Sort::LongDigits => width == 20,
        Sort::Worked(Working::RowNumber | Working::OwnerNumber) => width == 6,
        Sort::Worked(Working::Total) => width == 17,
        Sort::Worked(Working::Count) => matches!(width, 6..=18),
    }
}

impl Field {
    // Whether the field lies in a row and its width is one of its sort. The fields of a lawful book all do.
    pub fn fits(self) -> bool
        ensures { result ≡ fits (field_of self) }
    {
        self.width <= 750
            && (1..=751 - self.width).contains(&self.start)
            && is_wide(self.sort, self.width)
    }

    // The fault of a flaw, at its position.
    fn fault(self, row: usize, flaw: Flaw) -> FieldFault
        requires { self.start + offset flaw < 2 ^ 64 }
        ensures { Some (of_field result) ≡ in_row row (Some (located (field_of self) flaw)) }
    {
        let start = self.start;
        match flaw {
            Flaw::Differs(at) => FieldFault::Differs {
                row,
                position: start + at,
            },
            Flaw::Byte(at) => FieldFault::BadByte {
                row,
                position: start + at,
            },
            Flaw::Empty => FieldFault::NotFilled {
                row,
                position: start,
            },
            Flaw::Unfit => FieldFault::Unfit {
                row,
                position: start,
            },
        }
    }

    // What the row holds in this field. A text is that part of the row itself.
    pub fn read<'a>(self, row_number: usize, row: &'a [u8; 750]) -> Result<Content<'a>, FieldFault>
        ensures refused { refusal_in of_field result ≡ in_row row_number (fault_in (at_field (field_of self) (read_field (field_of self) (part (field_of self) row.now)))) }
        ensures held { IfOk result (λ content. ReadAs (field_of self) row.entry.ref_ptr row.now content) }
    {
        if !self.fits() {
            return Err(self.fault(row_number, Flaw::Unfit));
        }
        let from = self.start - 1;
        read_part(self, &row[from..from + self.width]).map_err(|flaw| self.fault(row_number, flaw))
    }

    // Writes a content into the field's own positions. A refused write leaves the row as it was.
    pub fn write(
        self,
        row_number: usize,
        row: &mut [u8; 750],
        content: Content,
    ) -> Result<(), FieldFault>
        ensures refused { refusal_in of_field result ≡ in_row row_number (fault_in (at_field (field_of self) (write_field (field_of self) (cell_of content.entry)))) }
        ensures written { MatchResult result (λ _. WrittenAs (field_of self) row.old row.new (cell_of content.entry)) (λ _. row.new ≡ row.old) }
    {
        if !self.fits() {
            return Err(self.fault(row_number, Flaw::Unfit));
        }
        let from = self.start - 1;
        write_part(self, &mut row[from..from + self.width], content).map_err(|flaw| self.fault(
            row_number, flaw,
        ))
    }
}
