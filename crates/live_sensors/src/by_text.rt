use bmc_base::Name;
use indexmap::Equivalent;

/// Looks a name up by its text, which is not copied.
#[derive(Clone, Copy, PartialEq, Eq, Hash)]
pub(crate) struct ByText<'t> {
    pub(crate) text: &'t str,
}

impl Equivalent<Name> for ByText<'_> {
    ghost use Rattle.std.proofs.Common.{ap};
    ghost use Rattle.std.specs.Cmp.Lexicographic.{bytes_decides, nat_list_eq_equiv};
    ghost use Rattle.std.specs.Hash as fed;
    ghost use Rattle.std.specs.Str.{bytes_eq};

    ghost equivalent = { λ by name. bytes_eq by.text.now name };

    ghost respects_hash = { λ by name same. ap fed.str ((bytes_decides by.text.now name).0 same) };

    ghost respects_eq = { λ by name other. nat_list_eq_equiv.congr by.text.now name other };

    fn equivalent(&self, name: &Name) -> bool {
        self.text == name.as_str()
    }
}
