// The law of one row.
ghost use Rattle.records.specs.Row.{RowsKeepTheLaw, OneEntry, EqualRows};

// In every lawful book a row is read as an entry and worked digits exactly when the entry is acceptable and is printed,
// with these digits, as the row.
pub fn row_law()
    ensures law { RowsKeepTheLaw }
    ensures one { OneEntry }
    ensures equal { EqualRows }
{}
