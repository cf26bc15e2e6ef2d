ghost use Rattle.std.specs.Prelude.{◌≡◌, ◌*◌, ◌^◌, ◌≤◌, pos, ◌+ℤ◌, ◌-ℤ◌, ◌*ℤ◌, ◌≤ℤ◌};
ghost use Rattle.ctl_face.specs.Floors.{floor_div, clamped};
ghost use Rattle.ctl_face.specs.Ranges.{IsWithin, IsMicro, IsMilli};

use bmc_base::Milli;

// Thousandths on the way to a result: 128 bits hold each product and each sum of a step.
#[derive(Clone, Copy)]
pub(crate) struct Wide(pub(crate) i128);

// A coefficient in millionths.
#[derive(Clone, Copy)]
pub(crate) struct Micro(pub(crate) i64);

impl Wide {
    // The number, as it is.
    #[tactic(auto, using(std::proofs::lemmas::Int::ints))]
    pub(crate) fn of(number: Milli) -> Wide
        ensures value { result.0 ≡ number.0 }
        ensures small { IsWithin (2 ^ 64) result.0 }
    {
        Wide(number.0 as i128)
    }

    // The sum of two numbers.
    #[tactic(auto, using(std::proofs::lemmas::Int::ints))]
    pub(crate) fn sum(a: Milli, b: Milli) -> Wide
        ensures value { result.0 ≡ a.0 +ℤ b.0 }
        ensures small { IsWithin (2 ^ 64) result.0 }
    {
        Wide(a.0 as i128 + b.0 as i128)
    }

    // The first number less the second.
    #[tactic(auto, using(std::proofs::lemmas::Int::ints))]
    pub(crate) fn difference(a: Milli, b: Milli) -> Wide
        ensures value { result.0 ≡ a.0 -ℤ b.0 }
        ensures small { IsWithin (2 ^ 64) result.0 }
    {
        Wide(a.0 as i128 - b.0 as i128)
    }

    // The sum of the four parts of an output.
    #[tactic(auto, using(std::proofs::lemmas::Int::ints))]
    pub(crate) fn total(p: Wide, i: Milli, d: Wide, f: Wide) -> Wide
        requires p { IsWithin (2 ^ 110) p.0 }
        requires d { IsWithin (2 ^ 110) d.0 }
        requires f { IsWithin (2 ^ 110) f.0 }
        ensures { result.0 ≡ p.0 +ℤ i.0 +ℤ d.0 +ℤ f.0 }
    {
        Wide(p.0 + i.0 as i128 + d.0 + f.0)
    }

    // The number with this one added to it.
    #[tactic(auto, using(std::proofs::lemmas::Int::ints))]
    pub(crate) fn added_to(self, number: Milli) -> Wide
        requires { IsWithin (2 ^ 110) self.0 }
        ensures { result.0 ≡ number.0 +ℤ self.0 }
    {
        Wide(number.0 as i128 + self.0)
    }

    // The number with this one taken away.
    #[tactic(auto, using(std::proofs::lemmas::Int::ints))]
    pub(crate) fn taken_from(self, number: Milli) -> Wide
        requires { IsWithin (2 ^ 110) self.0 }
        ensures { result.0 ≡ number.0 -ℤ self.0 }
    {
        Wide(number.0 as i128 - self.0)
    }

    // As many times this number.
    #[tactic(auto, using(std::proofs::lemmas::Int::ints))]
    pub(crate) fn times(self, n: u8) -> Wide
        requires n { n ≤ 10 }
        requires number { IsWithin (2 ^ 64) self.0 }
        ensures value { result.0 ≡ self.0 *ℤ pos n }
        ensures small { IsWithin (2 ^ 68) result.0 }
    {
        Wide(self.0 * n as i128)
    }

    // The number of the range that is nearest.
    #[tactic(auto, using(std::proofs::lemmas::Int::ints))]
    pub(crate) fn clamped(self, low: Milli, high: Milli) -> Milli
        requires low { IsMilli low.0 }
        requires high { IsMilli high.0 }
        requires ordered { low.0 ≤ℤ high.0 }
        ensures value { result.0 ≡ clamped low.0 high.0 self.0 }
        ensures small { IsMilli result.0 }
    {
        Milli(self.0.clamp(low.0 as i128, high.0 as i128) as i64)
    }
}

impl Micro {
    // The coefficient times a number, divided by n and rounded down.
    pub(crate) fn share(self, number: Wide, n: u8) -> Wide
        requires coefficient { IsMicro self.0 }
        requires number { IsWithin (2 ^ 68) number.0 }
        requires n { 1 ≤ n }
        ensures value { result.0 ≡ floor_div (self.0 *ℤ number.0) (n * 1000000) }
        ensures small { IsWithin (2 ^ 110) result.0 }
    {
        Wide(divided(self.0 as i128 * number.0, n))
    }
}

// The number divided by n million and rounded down. Most numbers fit in 64 bits, where a division is one instruction.
#[tactic(auto, using(std::proofs::lemmas::Int::ints))]
fn divided(number: i128, n: u8) -> i128
    requires { 1 ≤ n }
    ensures { result ≡ floor_div number (n * 1000000) }
{
    match i64::try_from(number) {
        Ok(number) => i128::from(number.div_euclid(i64::from(n) * 1_000_000)),
        Err(_) => number.div_euclid(i128::from(n) * 1_000_000),
    }
}
