// What follows from the definitions of rows. Each law is the contract of a function that does nothing.
ghost use Rattle.std.specs.Prelude.{◌≡◌, ℕ};
ghost use Rattle.item_store.specs.Rows.{IsRising, Rows, row_at};

/// Rows by rising id are the same list if they have the same row for each id. So there is only one list that
/// loading given items can make.
pub fn rising_rows_are_one_list()
    ensures { (one other : Rows) → IsRising one → IsRising other
        → ((id : ℕ) → row_at id one ≡ row_at id other) → one ≡ other }
{}
