ghost use Rattle.std.specs.Prelude.{◌≡◌, ◌++◌, length, option_to_list, option_map, slice_get};
ghost use Rattle.std.specs.List.{All};
ghost use Rattle.cfg_json.specs.Configs.{IsValidConfig};

use bmc_base::Ledger;
use cfg_json::{Config, Shelf};

/// Counts the configurations of a shelf and one more, if one is given. What they expose is valid.
pub fn config_count<L: Ledger>(shelf: &Shelf<L>, plus: Option<&Config<L>>) -> usize
    ensures value { result ≡ length (shelf.now ++ option_to_list (option_map (λ config. config.now) plus.entry)) }
    ensures valid { All IsValidConfig (shelf.now ++ option_to_list (option_map (λ config. config.now) plus.entry)) }
{
    let count = shelf.len();
    match plus {
        Some(config) => {
            // what it exposes is valid, which is said with it
            let _exposes = config.exposes();
            count + 1
        }
        None => count,
    }
}

/// Borrows the configuration with this number, if there is one, where one more may stand behind those of a shelf.
pub fn config_at<'s, L: Ledger>(
    shelf: &'s Shelf<L>,
    plus: Option<&'s Config<L>>,
    number: usize,
) -> Option<&'s Config<L>>
    ensures { option_map (λ config. config.now) result
        ≡ slice_get (shelf.now ++ option_to_list (option_map (λ config. config.now) plus.entry)) number }
{
    let count = shelf.len();
    if number < count {
        return shelf.at(number);
    }
    if number > count {
        return None;
    }
    plus
}
