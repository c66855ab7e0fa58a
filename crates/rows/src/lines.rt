// One line of a form, in memory that is cut into such lines.
ghost use Rattle.std.specs.Prelude.{◌≡◌, ℕ, ◌+◌, ◌*◌, ◌/◌, ◌<◌, ◌≤◌, length};
ghost use Rattle.rows.specs.Lines.{line_at, rows_of, written};
ghost use Rattle.rows.specs.Rows.{Copied};

use forms::Form;
use refusals::CarrierFault;

// How many whole lines there are.
pub(crate) fn line_count<F: Form>(memory: &[u8]) -> usize
    ensures { result ≡ length memory.now / F.Form.size }
{
    memory.len() / F::line_len()
}

// Writes `row` as line `k`, from 0.
pub(crate) fn put_line<F: Form>(memory: &mut [u8], k: usize, row: &[u8; 750])
    requires { k < length memory.old / F.Form.size }
    ensures { memory.new ≡ written memory.old (k * F.Form.size) F.Form.size (F.Form.encoded row.now) }
{
    let size = F::line_len();
    let at = k * size;
    F::write(row, &mut memory[at..at + size]);
}

// Reads line `k`, from 0.
fn copy_line<F: Form>(memory: &[u8], k: usize, out: &mut [u8; 750])
    requires { k < length memory.now / F.Form.size }
    ensures { out.new ≡ F.Form.decoded (line_at F.Form.size memory.now k) }
{
    let size = F::line_len();
    let at = k * size;
    F::read(&memory[at..at + size], out);
}

// Row `n`, from 1, of the rows that the first `count` lines hold.
pub(crate) fn copy_held<F: Form>(
    memory: &[u8],
    count: usize,
    n: usize,
    out: &mut [u8; 750],
) -> Result<(), CarrierFault>
    requires { count ≤ length memory.now / F.Form.size }
    ensures { Copied (rows_of F.Form.decoded F.Form.size count memory.now) n out.old out.new result }
{
    if n == 0 || n > count {
        return Err(CarrierFault::NoSuchRow(n));
    }
    copy_line::<F>(memory, n - 1, out);
    Ok(())
}
