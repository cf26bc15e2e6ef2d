ghost use Rattle.std.specs.Prelude.{◌≡◌, ℕ, List, [], length};
ghost use Rattle.bmc_text.specs.Items.{Item, items_of};
ghost use Rattle.cfg_json.specs.Verdicts.{Verdict};
ghost use Rattle.bmc_machine.specs.Histories.{Step};
ghost use Rattle.bmc_report.specs.declared.refusal.Origin.{Origin};
ghost use Rattle.bmc_machine.specs.Answers.{Answer, answers, out_after};
ghost use Rattle.bmc_machine.specs.Ties.{AreTied, large_texts};

/// The texts of patterns alone decide what is answered and printed: verdicts that are tied to the same items, one each,
/// and call no text too large, answer the same.
pub fn verdicts_decide()
    ensures items { (origin : Origin) (number : ℕ) (past : List Step) (items : List Item) (verdicts others : List Verdict) → AreTied items verdicts → AreTied items others
        → length verdicts ≡ length items → length others ≡ length items → large_texts verdicts ≡ [] → large_texts others ≡ []
        → answers origin number past verdicts items ≡ answers origin number past others items }
    ensures script { (first : Answer) (script : List ℕ) (verdicts others : List Verdict) → AreTied (items_of script) verdicts → AreTied (items_of script) others
        → length verdicts ≡ length (items_of script) → length others ≡ length (items_of script) → large_texts verdicts ≡ [] → large_texts others ≡ []
        → out_after first verdicts script ≡ out_after first others script }
{}
