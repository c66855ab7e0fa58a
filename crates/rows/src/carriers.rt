// Where rows come from and where they go.
ghost use Rattle.std.specs.Prelude.{◌≡◌, ℕ, ◌<◌, List, [], length, slice_index_or};
ghost use Rattle.rows.specs.Rows.{Copied, Pushed, Kept, PutDown};

use refusals::CarrierFault;

// A source means a list of rows of 750 bytes. No question changes it.
pub trait Source {
    ghost rows: { Self → List (List ℕ) };

    // Every row has 750 bytes.
    ghost whole: { (s : Self) (k : ℕ) → k < length (rows s) → length (slice_index_or (rows s) k []) ≡ 750 };

    fn count(&self) -> usize
        ensures { result ≡ length (rows self.now) };

    // Row `n`, from 1, into the caller's bytes.
    fn copy_row(&self, n: usize, out: &mut [u8; 750]) -> Result<(), CarrierFault>
        ensures { Copied (rows self.now) n out.old out.new result };
}

// A carrier is a source that also has a number of places, and takes a row while one is free.
pub trait Carrier: Source {
    ghost places: { Self → ℕ };

    // The memory below, and how a row lies in it: the bytes of a line, and what a row is written as.
    ghost memory: { Self → List ℕ };

    ghost size: { ℕ };

    ghost line: { List ℕ → List ℕ };

    // The names of the loans that it stands on, outermost first: no call changes them,
    // so whoever lent the memory knows what it holds when the loan ends.
    ghost lenders: { Self → List ℕ };

    fn places(&self) -> usize
        ensures { result ≡ places self.now };

    fn push(&mut self, row: &[u8; 750]) -> Result<(), CarrierFault>
        ensures pushed { Pushed (Self.Source.rows self.old) (Self.Source.rows self.new) (places self.old) row.now result }
        ensures kept { Kept self.old self.new result }
        ensures memory { PutDown size line (length (Self.Source.rows self.old)) (memory self.old) (memory self.new) row.now result }
        ensures places { places self.new ≡ places self.old }
        ensures lenders { lenders self.new ≡ lenders self.old };
}
