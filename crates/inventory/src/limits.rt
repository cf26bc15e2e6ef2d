ghost use Rattle.std.specs.Prelude.{◌≡◌, ◌++◌, ◌+◌, ◌-◌, ℕ, map, min, option_map, option_to_list, sum_by};
ghost use Rattle.inventory.specs.Limits.{
  board_counts,
  fans_of,
  limit_of,
  no_totals,
  pids_of,
  sensors_of,
  steps_of,
  totals_after,
  totals_of,
  zones_of,
  GivesTotals,
};

use crate::configs::config_at;
use crate::{Board, BoardKey, Difference, InventoryFault};
use bmc_base::Ledger;
use cfg_json::{Config, Counts, Shelf};

// The most boards, and the most exposes of boards of each kind.
const MOST_BOARDS: usize = 1024;

const MOST_SENSORS: usize = 4096;

const MOST_ZONES: usize = 32;

const MOST_FANS: usize = 128;

const MOST_PIDS: usize = 128;

const MOST_STEPS: usize = 64;

/// How many boards there are, and how many of their exposes are of each kind, whether they are rendered or not.
#[derive(Clone, Copy, Debug, PartialEq, Eq)]
pub struct Totals {
    /// The boards, at most 1,024.
    pub boards: usize,
    /// The sensors, at most 4,096.
    pub sensors: usize,
    /// The zones, at most 32.
    pub zones: usize,
    /// The fans, at most 128.
    pub fans: usize,
    /// The PID controllers, at most 128.
    pub pids: usize,
    /// The stepwise controllers, at most 64.
    pub steps: usize,
}

// The counts of no exposes.
const NO_COUNTS: Counts = Counts {
    sensors: 0,
    zones: 0,
    fans: 0,
    pids: 0,
    steps: 0,
};

// Counts the exposes of a board; there are none where no configuration has its number.
pub(crate) fn counts_at<L: Ledger>(
    shelf: &Shelf<L>,
    plus: Option<&Config<L>>,
    key: &BoardKey,
) -> Counts
    ensures { result ≡ board_counts (shelf.now ++ option_to_list (option_map (λ config. config.now) plus.entry)) key.now }
{
    match config_at(shelf, plus, key.config as usize) {
        Some(config) => config.counts(),
        None => NO_COUNTS,
    }
}

// Adds two counts, up to the greatest number.
fn add_counts(sums: Counts, counts: Counts) -> Counts
    ensures sensors { result.sensors ≡ min (sums.sensors + counts.sensors) usize.MAX }
    ensures zones { result.zones ≡ min (sums.zones + counts.zones) usize.MAX }
    ensures fans { result.fans ≡ min (sums.fans + counts.fans) usize.MAX }
    ensures pids { result.pids ≡ min (sums.pids + counts.pids) usize.MAX }
    ensures steps { result.steps ≡ min (sums.steps + counts.steps) usize.MAX }
{
    Counts {
        sensors: sums.sensors.saturating_add(counts.sensors),
        zones: sums.zones.saturating_add(counts.zones),
        fans: sums.fans.saturating_add(counts.fans),
        pids: sums.pids.saturating_add(counts.pids),
        steps: sums.steps.saturating_add(counts.steps),
    }
}

// Counts the exposes of the boards with these keys, up to the greatest number.
fn sum_counts<L: Ledger>(shelf: &Shelf<L>, plus: Option<&Config<L>>, keys: &[BoardKey]) -> Counts
    ensures sensors { result.sensors ≡ min (sensors_of (shelf.now ++ option_to_list (option_map (λ config. config.now) plus.entry)) keys.now) usize.MAX }
    ensures zones { result.zones ≡ min (zones_of (shelf.now ++ option_to_list (option_map (λ config. config.now) plus.entry)) keys.now) usize.MAX }
    ensures fans { result.fans ≡ min (fans_of (shelf.now ++ option_to_list (option_map (λ config. config.now) plus.entry)) keys.now) usize.MAX }
    ensures pids { result.pids ≡ min (pids_of (shelf.now ++ option_to_list (option_map (λ config. config.now) plus.entry)) keys.now) usize.MAX }
    ensures steps { result.steps ≡ min (steps_of (shelf.now ++ option_to_list (option_map (λ config. config.now) plus.entry)) keys.now) usize.MAX }
{
    let mut sums = NO_COUNTS;
    for key in keys {
        sums = add_counts(sums, counts_at(shelf, plus, key));
    }
    sums
}

// Takes some away and adds others, up to the greatest number.
fn replaced(count: usize, gone: usize, new: usize) -> usize
    ensures { result ≡ min (count - gone + new) usize.MAX }
{
    count.saturating_sub(gone).saturating_add(new)
}

impl Totals {
    /// Returns the totals of no boards.
    pub fn none() -> Totals
        ensures { result ≡ no_totals }
    {
        Totals {
            boards: 0,
            sensors: 0,
            zones: 0,
            fans: 0,
            pids: 0,
            steps: 0,
        }
    }

    // Returns the first limit that is passed, if one is.
    fn passed(&self) -> Option<InventoryFault>
        ensures { result ≡ limit_of self.now }
    {
        if self.boards > MOST_BOARDS {
            Some(InventoryFault::BoardLimit)
        } else if self.sensors > MOST_SENSORS {
            Some(InventoryFault::SensorLimit)
        } else if self.zones > MOST_ZONES {
            Some(InventoryFault::ZoneLimit)
        } else if self.fans > MOST_FANS {
            Some(InventoryFault::FanLimit)
        } else if self.pids > MOST_PIDS {
            Some(InventoryFault::PidLimit)
        } else if self.steps > MOST_STEPS {
            Some(InventoryFault::StepLimit)
        } else {
            None
        }
    }

    // Returns these totals, or the first limit that they pass.
    fn checked(self) -> Result<Totals, InventoryFault>
        ensures { GivesTotals result self }
    {
        match self.passed() {
            Some(fault) => Err(fault),
            None => Ok(self),
        }
    }

    /// Returns the totals where some boards go and others come, or the first limit that they pass. What it costs
    /// follows the boards that differ. The shelf has the configurations; one more may be accepted now, with their count
    /// for its number. Takes no memory.
    pub fn after<L: Ledger>(
        self,
        shelf: &Shelf<L>,
        plus: Option<&Config<L>>,
        difference: &Difference,
    ) -> Result<Totals, InventoryFault>
        ensures { let all = shelf.now ++ option_to_list (option_map (λ config. config.now) plus.entry) in
            GivesTotals result (totals_after all self difference.now.gone_boards difference.now.new_boards) }
    {
        let gone_keys = difference.gone_boards.as_slice();
        let new_keys = difference.new_boards.as_slice();
        let gone = sum_counts(shelf, plus, gone_keys);
        let new = sum_counts(shelf, plus, new_keys);
        let totals = Totals {
            boards: replaced(self.boards, gone_keys.len(), new_keys.len()),
            sensors: replaced(self.sensors, gone.sensors, new.sensors),
            zones: replaced(self.zones, gone.zones, new.zones),
            fans: replaced(self.fans, gone.fans, new.fans),
            pids: replaced(self.pids, gone.pids, new.pids),
            steps: replaced(self.steps, gone.steps, new.steps),
        };
        totals.checked()
    }
}
