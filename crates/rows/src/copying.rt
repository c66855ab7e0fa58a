// Rows that move from any source to any carrier.
ghost use Rattle.std.specs.Prelude.{◌≡◌, ℕ, ◌+◌, ◌^◌, ◌<◌, ◌≤◌, length};
ghost use Rattle.rows.specs.Rows.{Moved, MovedBytes};

use crate::carriers::{Carrier, Source};
use refusals::CarrierFault;

// Every row of the source behind the rows that the carrier holds; where places run out, as many as fitted, and the refusal.
pub fn copy_all<S: Source, C: Carrier>(from: &S, to: &mut C) -> Result<usize, CarrierFault>
    ensures moved { Moved (S.Source.rows from.now) (C.Source.rows to.old) (C.Source.rows to.new) (C.Carrier.places to.old) result }
    ensures memory { MovedBytes C.Carrier.size C.Carrier.line (S.Source.rows from.now) (length (C.Source.rows to.old)) (C.Carrier.memory to.old) (C.Carrier.memory to.new) (length (C.Source.rows to.new)) }
    ensures places { C.Carrier.places to.new ≡ C.Carrier.places to.old }
    ensures lenders { C.Carrier.lenders to.new ≡ C.Carrier.lenders to.old }
{
    let count = from.count();
    let mut row = [0u8; 750];
    // By their numbers: a source is asked for a row, and hands out no iterator.
    for n in 1..=count {
        from.copy_row(n, &mut row)?;
        to.push(&row)?;
    }
    Ok(count)
}
