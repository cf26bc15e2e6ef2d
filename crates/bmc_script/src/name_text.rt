ghost use Rattle.std.specs.Prelude.{◌≡◌};
ghost use Rattle.std.specs.Result.{result_ok};
ghost use Rattle.bmc_base.specs.Names.{name_of};

use bmc_base::LONGEST_NAME;
use std::marker::Model;

/// A name that a line gives: 1 to 64 bytes of UTF-8, borrowed from the line.
#[derive(Drop)]
pub struct NameText<'l> {
    text: &'l str,
}

impl<'l> Model for NameText<'l> {
    ghost use Rattle.std.specs.Prelude.{ℕ, List, ◌≤◌, ◌<◌, length};
    ghost use Rattle.bmc_base.specs.Names.{longest_name};

    ghost Value = { List ℕ };

    ghost view = { λ n. n.text.now };

    ghost invariant = { λ n. (0 < length n.text.now) × (length n.text.now ≤ longest_name) };
}

impl<'l> NameText<'l> {
    // Returns a text as a name, if it is one.
    pub(crate) fn new(text: &'l str) -> Option<NameText<'l>>
        ensures { result ≡ result_ok (name_of text.now) }
    {
        if text.is_empty() || text.len() > LONGEST_NAME {
            return None;
        }
        Some(NameText { text })
    }

    /// Borrows the name as text.
    pub fn as_str(&self) -> &'l str
        ensures { result.now ≡ self.now }
    {
        self.text
    }
}
