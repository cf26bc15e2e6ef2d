ghost use Rattle.std.specs.Prelude.{◌≡◌, ◌-◌, ◌^◌, codes, pos, negsuc};
ghost use Rattle.bmc_base.specs.Milli.{milli_text};

use std::fmt;

/// A whole number of thousandths. Its text is a `-` where it is negative, the whole part, a point and
/// three digits.
#[derive(Clone, Copy, Debug, PartialEq, Eq, PartialOrd, Ord)]
pub struct Milli(pub i64);

impl fmt::Display for Milli {
    ghost use Rattle.std.specs.Prelude.{Some};

    ghost output = { λ m. Some (milli_text m.0) };

    fn fmt<W: fmt::Write>(&self, f: &mut fmt::Formatter<W>) -> fmt::Result {
        let sign = if self.0 < 0 { "-" } else { "" };
        let size = self.0.unsigned_abs();
        let (tenths, hundredths, thousandths) = (size / 100 % 10, size / 10 % 10, size % 10);
        write!(f, "{sign}{}.{tenths}{hundredths}{thousandths}", size / 1000)
    }
}

/// The texts of some numbers.
pub fn milli_examples()
    ensures none { milli_text (pos 0) ≡ codes "0.000" }
    ensures five { milli_text (pos 5) ≡ codes "0.005" }
    ensures minus_five { milli_text (negsuc 4) ≡ codes "-0.005" }
    ensures one { milli_text (pos 1000) ≡ codes "1.000" }
    ensures minus_twelve { milli_text (negsuc 12344) ≡ codes "-12.345" }
    ensures lowest { milli_text (negsuc (2 ^ 63 - 1)) ≡ codes "-9223372036854775.808" }
{}
