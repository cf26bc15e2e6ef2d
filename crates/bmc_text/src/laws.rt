ghost use Rattle.std.specs.Prelude.{◌≡◌, ◌<◌, ◌^◌, ◌*ℤ◌, ℕ, ℤ, pos, nat_abs, List, ◌++◌, Some, decimal};
ghost use Rattle.std.specs.Fmt.{signed_decimal};
ghost use Rattle.bmc_text.specs.Items.{Item, items_of, whole_items, unfinished};
ghost use Rattle.bmc_text.specs.Words.{number, number_digits, raw, raw_digits, decimal_units, whole_digits};

/// Whatever follows bytes of a script, the items that are whole in them come first, and the unfinished rest
/// goes on with what follows. No other items do so: those that come first whatever follows, and end at the
/// same place, are whole.
pub fn whole_items_stay()
    ensures first { (bytes more : List ℕ) → items_of (bytes ++ more) ≡ whole_items bytes ++ items_of (unfinished bytes ++ more) }
    ensures all { (bytes rest : List ℕ) (found : List Item)
        → ((more : List ℕ) → items_of (bytes ++ more) ≡ found ++ items_of (rest ++ more))
        → (others : List Item) × (whole_items bytes ≡ found ++ others) }
{}

/// The text of a number is read as that number: of a number in a line, of a raw reading, and of a decimal.
pub fn numbers_are_read_back()
    ensures number { (n : ℕ) → n < 10 ^ number_digits → number (decimal n) ≡ Some n }
    ensures raw { (z : ℤ) → nat_abs z < 10 ^ raw_digits → raw (signed_decimal z) ≡ Some z }
    ensures decimal { (places : ℕ) (z : ℤ) → nat_abs z < 10 ^ whole_digits
        → decimal_units places (signed_decimal z) ≡ Some (z *ℤ pos (10 ^ places)) }
{}
