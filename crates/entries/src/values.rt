// Whether the values of an entry are those that its kind asks for.
ghost use Rattle.std.specs.Prelude.{◌≡◌, map};
ghost use Rattle.refusals.specs.Refusals.{refusal, refusal_in, of_value};
ghost use Rattle.refusals.specs.Faults.{unless};
ghost use Rattle.entries.specs.Asked.{asks_for, asked_by};
ghost use Rattle.records.specs.Cells.{first_other};
ghost use Rattle.records.specs.Entries.{handed_of, suits, handed31, value_fault};

use crate::origins::{Asked, asked_of, count_entered};
use fields::field::Field;
use layouts::book::Book;
use layouts::kinds::Kind;
use records::{Entry, Value};
use refusals::ValueFault;

// One value: of the sort that is asked for, and not past the pool.
fn check_value(asked: Asked, number: usize, value: Value, pool: &[u8]) -> Result<(), ValueFault>
    ensures { refusal_in of_value result ≡ unless (suits pool.now (asks_for asked) value) (refusal 31 number 0) }
{
    match asked {
        Asked::Number => {
            let Value::Number(_) = value else {
                return Err(ValueFault { number });
            };
        }
        Asked::Text => {
            let Value::Text { place, length } = value else {
                return Err(ValueFault { number });
            };
            if place > pool.len() || length > pool.len() - place {
                return Err(ValueFault { number });
            }
        }
    }
    Ok(())
}

// The values one by one, each with its number from 1.
fn check_each(fields: &[Field], values: &[Value], pool: &[u8]) -> Result<(), ValueFault>
    ensures { refusal_in of_value result ≡ value_fault (first_other 1 (map (suits pool.now) (asked_by fields.now)) values.now) }
{
    let asked_values = fields
        .iter()
        .filter_map(|field| asked_of(field))
        .zip(values);
    for (place, (asked, value)) in asked_values.enumerate() {
        check_value(asked, place + 1, *value, pool)?;
    }
    Ok(())
}

// Too few or too many values are refused with the lesser count plus 1, else the first that does not suit.
pub fn check_values<B: Book>(book: &B, entry: Entry) -> Result<(), ValueFault>
    ensures { refusal_in of_value result ≡ value_fault (handed31 B.Meant.meaning (handed_of entry.entry)) }
{
    let fields = book.fields(Kind { mark: entry.mark });
    let asked = count_entered(fields);
    let given = entry.values.len();
    if asked != given {
        return Err(ValueFault {
            number: asked.min(given) + 1,
        });
    }
    check_each(fields, entry.values, entry.pool)
}
