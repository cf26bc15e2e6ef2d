ghost use Rattle.std.specs.Prelude.{◌≡◌, [], ◌∷◌, ◌++◌, codes, pos};
ghost use Rattle.bmc_report.specs.declared.topic.Topic.TheVariants.{Frus, Inventory, Sensors, Zones, Log, Indexes};
ghost use Rattle.bmc_script.specs.Commands.{command_of};
ghost use Rattle.bmc_script.specs.Examples.{configured, plugged, unplugged, nothing, unknown, malformed, out_of_range, not_hexadecimal};
ghost use Rattle.bmc_script.specs.Examples.{read_as, frost, lost, name_of_size, shown, ticked, ticks_out_of_range};

/// The commands of lines, computed from the definition: lines that do nothing, one of each command, with leading
/// zeros, lines that break each of the rules, and lines that break two of them.
pub fn commands_of_lines()
    ensures empty { command_of [] ≡ nothing }
    ensures comment { command_of (codes "#unplug 1 80") ≡ nothing }
    ensures config_zeros { command_of (codes "config 000000007") ≡ configured }
    ensures plug { command_of (codes "plug 1 80 0aFF") ≡ plugged }
    ensures unplug_zeros { command_of (codes "unplug 000000001 080") ≡ unplugged }
    ensures first_space { command_of (codes " unplug 1 80") ≡ unknown }
    ensures tab { command_of (codes "unplug\t1 80") ≡ unknown }
    ensures upper_case { command_of (codes "PLUG 1 80 0aFF") ≡ unknown }
    ensures longer_verb { command_of (codes "unplugs 1 80") ≡ unknown }
    ensures shorter_verb { command_of (codes "conf 7") ≡ unknown }
    ensures verb_alone { command_of (codes "plug") ≡ malformed }
    ensures verb_and_space { command_of (codes "config ") ≡ malformed }
    ensures no_address { command_of (codes "unplug 1") ≡ malformed }
    ensures no_digits { command_of (codes "plug 1 80 ") ≡ malformed }
    ensures second_space { command_of (codes "unplug 1  80") ≡ malformed }
    ensures last_space { command_of (codes "unplug 1 80 ") ≡ malformed }
    ensures two_words_of_digits { command_of (codes "plug 1 80 00 00") ≡ malformed }
    ensures ten_digits { command_of (codes "unplug 0000000001 80") ≡ malformed }
    ensures config_ten_digits { command_of (codes "config 0000000007") ≡ malformed }
    ensures bus_256 { command_of (codes "unplug 256 80") ≡ out_of_range }
    ensures address_128 { command_of (codes "plug 1 128 00") ≡ out_of_range }
    ensures one_digit { command_of (codes "plug 1 80 0") ≡ not_hexadecimal }
    ensures no_digit { command_of (codes "plug 1 80 zz") ≡ not_hexadecimal }
    ensures words_before_range { command_of (codes "plug 256 80") ≡ malformed }
    ensures numerals_before_range { command_of (codes "unplug 256 x") ≡ malformed }
    ensures space_before_range { command_of (codes "plug 256 80 00 ") ≡ malformed }
    ensures space_before_digits { command_of (codes "plug 1 80 zz zz") ≡ malformed }
    ensures range_before_digits { command_of (codes "plug 256 80 zz") ≡ out_of_range }
{}

/// The same of lines that speak of sensors and of lists: names with spaces, names that are empty, too long or no UTF-8,
/// the longest numbers, and words that are no list.
pub fn commands_of_sensor_lines()
    ensures read { command_of (codes "read Card 2 Temp -41000") ≡ read_as (codes "Card 2 Temp") frost }
    ensures read_zeros { command_of (codes "read T 007") ≡ read_as (codes "T") (pos 7) }
    ensures read_no_sign_of_zero { command_of (codes "read T -0") ≡ read_as (codes "T") (pos 0) }
    ensures read_longest { command_of (codes "read T 999999999999999999") ≡ read_as (codes "T") (pos 999999999999999999) }
    ensures read_to_last_space { command_of (codes "read T  5") ≡ read_as (codes "T ") (pos 5) }
    ensures read_numbers { command_of (codes "read 1 2 3") ≡ read_as (codes "1 2") (pos 3) }
    ensures read_alone { command_of (codes "read") ≡ malformed }
    ensures read_no_name { command_of (codes "read 5") ≡ malformed }
    ensures read_empty_name { command_of (codes "read  5") ≡ malformed }
    ensures read_no_number { command_of (codes "read T ") ≡ malformed }
    ensures read_plus { command_of (codes "read T +5") ≡ malformed }
    ensures read_two_signs { command_of (codes "read T --5") ≡ malformed }
    ensures read_19_digits { command_of (codes "read T 0000000000000000005") ≡ malformed }
    ensures read_return { command_of (codes "read T 5\r") ≡ malformed }
    ensures lose { command_of (codes "lose Card 2 Temp") ≡ lost (codes "Card 2 Temp") }
    ensures lose_spaces { command_of (codes "lose  T ") ≡ lost (codes " T ") }
    ensures lose_64_bytes { command_of (codes "lose " ++ name_of_size 64) ≡ lost (name_of_size 64) }
    ensures lose_65_bytes { command_of (codes "lose " ++ name_of_size 65) ≡ malformed }
    ensures lose_no_name { command_of (codes "lose ") ≡ malformed }
    ensures lose_two_bytes { command_of (codes "lose " ++ 195 ∷ 169 ∷ []) ≡ lost (195 ∷ 169 ∷ []) }
    ensures lose_half_a_character { command_of (codes "lose " ++ 195 ∷ []) ≡ malformed }
    ensures show_frus { command_of (codes "show frus") ≡ shown Frus }
    ensures show_inventory { command_of (codes "show inventory") ≡ shown Inventory }
    ensures show_sensors { command_of (codes "show sensors") ≡ shown Sensors }
    ensures show_indexes { command_of (codes "show indexes") ≡ shown Indexes }
    ensures show_other { command_of (codes "show fans") ≡ malformed }
    ensures show_space { command_of (codes "show frus ") ≡ malformed }
    ensures show_nothing { command_of (codes "show") ≡ malformed }
{}

/// The same of lines that let ticks pass, and of those that ask for the zones: the least and the greatest number of ticks,
/// numbers beside these, and lines that have not the form.
pub fn commands_of_tick_lines()
    ensures least { command_of (codes "tick 1") ≡ ticked 1 }
    ensures greatest { command_of (codes "tick 36000") ≡ ticked 36000 }
    ensures nine_digits { command_of (codes "tick 000000001") ≡ ticked 1 }
    ensures zero { command_of (codes "tick 0") ≡ ticks_out_of_range }
    ensures zero_in_nine_digits { command_of (codes "tick 000000000") ≡ ticks_out_of_range }
    ensures one_too_many { command_of (codes "tick 36001") ≡ ticks_out_of_range }
    ensures most_digits { command_of (codes "tick 999999999") ≡ ticks_out_of_range }
    ensures ten_digits { command_of (codes "tick 0000000001") ≡ malformed }
    ensures alone { command_of (codes "tick") ≡ malformed }
    ensures no_number { command_of (codes "tick ") ≡ malformed }
    ensures sign { command_of (codes "tick -1") ≡ malformed }
    ensures two_numbers { command_of (codes "tick 1 1") ≡ malformed }
    ensures no_digit { command_of (codes "tick x") ≡ malformed }
    ensures form_before_limit { command_of (codes "tick 36001 ") ≡ malformed }
    ensures first_space { command_of (codes " tick 1") ≡ unknown }
    ensures upper_case { command_of (codes "Tick 1") ≡ unknown }
    ensures longer_verb { command_of (codes "ticks 1") ≡ unknown }
    ensures show_zones { command_of (codes "show zones") ≡ shown Zones }
    ensures show_log { command_of (codes "show log") ≡ shown Log }
    ensures show_logs { command_of (codes "show logs") ≡ malformed }
    ensures show_zones_space { command_of (codes "show zones ") ≡ malformed }
    ensures show_zone { command_of (codes "show zone") ≡ malformed }
{}
