ghost use Rattle.std.specs.Prelude.{◌≡◌, ℕ, Bool, List};
ghost use Rattle.bmc_base.specs.Steps.{with_evals};
ghost use Rattle.probe_lang.specs.Values.{value, operand, joined, AreFew};

use crate::probe::Probe;
use crate::word::Word;
use bmc_base::{Ledger, Name, Steps};

/// Tells which patterns of a probe are true, and which configurations are found.
pub trait Truths {
    ghost use Rattle.std.specs.Prelude.{ℕ, Bool, List};

    /// Which patterns are true, by number.
    ghost patterns: { Self → ℕ → Bool };

    /// Which configurations are found, by name.
    ghost founds: { Self → List ℕ → Bool };

    /// Whether the pattern of this number is true.
    fn pattern(&self, n: u32) -> bool
        ensures { result ≡ patterns self.now n };

    /// Whether the configuration of this name is found.
    fn found(&self, name: &Name) -> bool
        ensures { result ≡ founds self.now name.now };
}

// Tells the value of an operand. An operator has none, and answers false.
fn operand<T: Truths>(word: &Word, truths: &T) -> bool
    ensures { result ≡ operand word.now (T.patterns truths.now) (T.founds truths.now) }
{
    match word {
        Word::Always => true,
        Word::Never => false,
        Word::Found(name) => truths.found(name),
        Word::Fru(n) => truths.pattern(*n),
        Word::And => false,
        Word::Or => false,
    }
}

// Joins two values by an operator. A word that is none leaves the left one.
fn joined(op: &Word, left: bool, right: bool) -> bool
    ensures { result ≡ joined op.now left right }
{
    match op {
        Word::And => left && right,
        Word::Or => left || right,
        _ => left,
    }
}

/// Tells the value of a probe, from left to right and without precedence, and counts one evaluation. A
/// probe without words is false. Takes no memory.
pub fn holds<T: Truths, L: Ledger>(probe: &Probe<L>, truths: &T, steps: &mut Steps<L>) -> bool
    ensures value { result ≡ value probe.now.words (T.patterns truths.now) (T.founds truths.now) }
    ensures few { AreFew probe.now.words }
    ensures counted { steps.new ≡ with_evals steps.old 1 }
{
    steps.evaluated();
    let words = probe.words().as_slice();
    if words.is_empty() {
        return false;
    }
    let mut value = operand(&words[0], truths);
    let pairs = (words.len() - 1) / 2;
    for k in 0..pairs {
        value = joined(&words[2 * k + 1], value, operand(&words[2 * k + 2], truths));
    }
    value
}
