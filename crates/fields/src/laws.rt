// The law of one field.
ghost use Rattle.fields.specs.Field.{FieldLaw, OneValue, ReadIsWritten};

// Bytes are read as a content exactly when that content is written as them, whatever the field.
pub fn field_law()
    ensures law { FieldLaw }
    ensures one { OneValue }
    ensures back { ReadIsWritten }
{}
