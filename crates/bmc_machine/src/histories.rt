ghost use Rattle.std.specs.Prelude.{◌≡◌, ◌≤◌, ◌∷◌, true, ℕ, ℤ, List, [], map, length, Some};
ghost use Rattle.std.specs.List.{IsDistinct};
ghost use Rattle.std.specs.List.Sorted.{IsStrictlySortedBy};
ghost use Rattle.bmc_base.specs.Places.{Place, place_cmp, place_eq};
ghost use Rattle.bmc_text.specs.Items.{Item};
ghost use Rattle.bmc_report.specs.declared.refusal.Origin.{Origin};
ghost use Rattle.bmc_report.specs.declared.refusal.Refusal.{Refusal};
ghost use Rattle.cfg_json.specs.Configs.{Config};
ghost use Rattle.cfg_json.specs.Verdicts.{Verdict};
ghost use Rattle.bmc_machine.specs.Histories.{Options, Step, Configure, Plug, RefusedPlug, Unplug, Read, Lose, standing};
ghost use Rattle.bmc_machine.specs.Indexes.{kept};
ghost use Rattle.bmc_machine.specs.Refusals.{refusal_after, most_frus, IsLegal};
ghost use Rattle.bmc_machine.specs.Answers.{Answer, answer_step, answer, answers, answer_files, answer_after, whole_answer_after};

/// Each step of a history is one that may follow those before it: items leave a legal history of a legal one,
/// and so do the files of a run that is started, a whole script behind them, and the items that are whole in what was taken of one, whatever
/// the verdicts are.
pub fn histories_are_legal()
    ensures items { (origin : Origin) (number : ℕ) (past : List Step) (verdicts : List Verdict) (items : List Item)
        → IsLegal past → IsLegal (answers origin number past verdicts items).past }
    ensures files { (options : Options) (verdicts : List Verdict) (files : List Item) → IsLegal (answer_files options verdicts files).past }
    ensures script { (first : Answer) (verdicts : List Verdict) (script : List ℕ) → IsLegal first.past → IsLegal (answer_after first verdicts script).past }
    ensures whole { (first : Answer) (verdicts : List Verdict) (bytes : List ℕ) → IsLegal first.past → IsLegal (whole_answer_after first verdicts bytes).past }
{}

/// After a legal history no two FRUs that are present have one place, and they stand in order of place.
pub fn frus_by_place()
    ensures one { (past : List Step) → IsLegal past → IsDistinct place_eq (map (λ fru. fru.place) (standing past).frus) }
    ensures order { (past : List Step) → IsLegal past → IsStrictlySortedBy place_cmp (map (λ fru. fru.place) (standing past).frus) }
{}

/// After a legal history at most 256 FRUs are present.
pub fn frus_are_few()
    ensures { (past : List Step) → IsLegal past → length (standing past).frus ≤ most_frus }
{}

/// A plug that is refused joins the history with its reason, and leaves the configurations, the FRUs that are present
/// and the indexes as they are. No other step joins that is refused.
pub fn refused_plugs_are_idle()
    ensures standing { (past : List Step) (place : Place) (bytes : List ℕ) (refusal : Refusal)
        → standing (RefusedPlug place bytes refusal ∷ past) ≡ standing past }
    ensures kept { (past : List Step) (place : Place) (bytes : List ℕ) (refusal : Refusal) (number : ℕ)
        → kept (RefusedPlug place bytes refusal ∷ past) number ≡ kept past number }
    ensures plug { (line : Refusal → List ℕ) (past : List Step) (place : Place) (bytes : List ℕ) (refusal : Refusal)
        → refusal_after past (Plug place bytes) ≡ Some refusal
        → (answer_step line past (Plug place bytes)).past ≡ RefusedPlug place bytes refusal ∷ past }
    ensures configuration { (line : Refusal → List ℕ) (past : List Step) (config : Config) (refusal : Refusal)
        → refusal_after past (Configure config) ≡ Some refusal
        → (answer_step line past (Configure config)).past ≡ past }
    ensures unplug { (line : Refusal → List ℕ) (past : List Step) (place : Place) (refusal : Refusal)
        → refusal_after past (Unplug place) ≡ Some refusal
        → (answer_step line past (Unplug place)).past ≡ past }
    ensures reading { (line : Refusal → List ℕ) (past : List Step) (name : List ℕ) (raw : ℤ) (refusal : Refusal)
        → refusal_after past (Read name raw) ≡ Some refusal
        → (answer_step line past (Read name raw)).past ≡ past }
    ensures loss { (line : Refusal → List ℕ) (past : List Step) (name : List ℕ) (refusal : Refusal)
        → refusal_after past (Lose name) ≡ Some refusal
        → (answer_step line past (Lose name)).past ≡ past }
{}

/// An item that is refused leaves the configurations, the FRUs that are present and the indexes as they are.
pub fn refused_items_are_idle()
    ensures standing { (line : Refusal → List ℕ) (past : List Step) (verdict : Verdict) (item : Item) → (answer line past verdict item).refused ≡ 1
        → standing (answer line past verdict item).past ≡ standing past }
    ensures kept { (line : Refusal → List ℕ) (past : List Step) (verdict : Verdict) (item : Item) (number : ℕ)
        → (answer line past verdict item).refused ≡ 1 → kept (answer line past verdict item).past number ≡ kept past number }
{}
