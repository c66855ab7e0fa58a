// A form: how a row is written as a line of bytes.
ghost use Rattle.std.specs.Prelude.{◌≡◌, ℕ, ◌-◌, ◌^◌, ◌<◌, ◌≤◌, Bool, true, List, length, slice_index};
ghost use Rattle.forms.specs.Forms.{Sized};

pub trait Form {
    // The bytes of a line.
    ghost size: { ℕ };

    // What a row is written as.
    ghost encoded: { List ℕ → List ℕ };

    // What a line is read as.
    ghost decoded: { List ℕ → List ℕ };

    ghost whole: { (l : List ℕ) → length l ≡ size → length (decoded l) ≡ 750 };

    // Whether a byte may stand at a place of a line, from 0.
    ghost good: { ℕ → ℕ → Bool };

    fn line_len() -> usize
        ensures { result ≡ size };

    // Bytes that have not a line's length are left as they are.
    fn write(row: &[u8; 750], out: &mut [u8])
        ensures { Sized (length out.old ≡ size) (encoded row.now) out.old out.new };

    // Where `from` has not a line's length, `out` is left as it is.
    fn read(from: &[u8], out: &mut [u8; 750])
        ensures { Sized (length from.now ≡ size) (decoded from.now) out.old out.new };

    fn allows(place: usize, byte: u8) -> bool
        ensures { result ≡ good place byte };

    ghost sizes: { (0 < size) × (size < 2 ^ 32) };

    ghost fills: { (r : List ℕ) → length r ≡ 750 → length (encoded r) ≡ size };

    ghost back: { (r : List ℕ) → length r ≡ 750 → ((k : ℕ) → slice_index r k < 256) → decoded (encoded r) ≡ r };

    // A written line is good, and a good line is what its row is written as.
    ghost sound: { (r : List ℕ) → length r ≡ 750 → ((k : ℕ) → slice_index r k < 256) → (p : ℕ) → p < size → good p (slice_index (encoded r) p) ≡ true };

    ghost forth: { (l : List ℕ) → length l ≡ size → ((p : ℕ) → p < size → good p (slice_index l p) ≡ true) → encoded (decoded l) ≡ l };
}
