// A field with its place in a row.
ghost use Rattle.std.specs.Prelude.{◌≡◌, ◌+◌, ◌-◌, ◌≤◌};
ghost use Rattle.fields.specs.InRow.{part};
ghost use Rattle.fields.specs.Meaning.{field_of};

use fields::field::Field;

// A field that lies within a row, as each field of a book does.
#[derive(Clone, Copy)]
pub struct Placed {
    pub field: Field,
    ghost from: { 1 ≤ field.start },
    ghost to: { field.start + field.width ≤ 751 },
}

impl Placed {
    // The last position, which is before the first where the field has no width.
    pub fn last(self) -> usize
        ensures { result ≡ self.field.start + self.field.width - 1 }
    {
        self.field.start + self.field.width - 1
    }

    // What a row holds in the field.
    pub fn content(self, row: &[u8; 750]) -> &[u8]
        ensures { result.now ≡ part (field_of self.field) row.now }
    {
        &row[self.field.start - 1..self.last()]
    }
}
