//! Which receipts are own.

ghost use Rattle.std.specs.Prelude.{ℕ, ℤ};
ghost use Rattle.pool_words.specs.Views.{ReceiptState};

/// Who owns files of shared memory. No value is needed of it: the laws speak of any owner.
pub trait Owner {
    // Which receipts are of its files: by its own number for a file, and by the file's segment.
    ghost own: { ℤ → ℕ → ReceiptState → Type 0 };
}
