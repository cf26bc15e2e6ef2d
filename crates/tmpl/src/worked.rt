ghost use Rattle.std.specs.Prelude.{◌≡◌, [], ◌∷◌, codes, replicate, true, false, Some, None};
ghost use Rattle.fru_area.specs.declared.fault.Area.TheVariants.{Board};
ghost use Rattle.fru_area.specs.declared.name.FieldName.TheVariants.{Custom};
ghost use Rattle.tmpl.specs.Templates.{Plain, Substitution, pieces_of};
ghost use Rattle.tmpl.specs.Templates.{is_template, is_fixed, is_single, uses_index};
ghost use Rattle.tmpl.specs.Numbers.{fixed_number};
ghost use Rattle.tmpl.specs.Words.{word_of};
ghost use Rattle.tmpl.specs.Worked.{bare, full, full_number};
ghost use Rattle.tmpl.specs.declared.operation.Operator.TheVariants.{Add};
ghost use Rattle.tmpl.specs.declared.word.Word.TheVariants.{Bus, Index, Field};

/// Templates and other texts, computed from the definitions: the word is the longest run, a number
/// has at most five digits, and nothing is divided by 0.
pub fn worked_templates()
    ensures plain { is_template (codes "CPU 1") ≡ true }
    ensures empty { is_template [] ≡ false }
    ensures longest { is_template (replicate 128 65) ≡ true }
    ensures too_long { is_template (replicate 129 65) ≡ false }
    ensures no_word { pieces_of (codes "$5") ≡ Plain 36 ∷ Plain 53 ∷ [] }
    ensures two_dollars { pieces_of (codes "$$bus") ≡ Plain 36 ∷ Substitution (Some Bus) [] ∷ [] }
    ensures unknown_word { is_template (codes "$foo") ≡ false }
    ensures longer_word { is_template (codes "$bus_1") ≡ false }
    ensures by_zero { is_template (codes "$bus / 0") ≡ false }
    ensures by_zeros { is_template (codes "$bus + 1 % 000") ≡ false }
    ensures no_operation { pieces_of (codes "$bus +1") ≡
        Substitution (Some Bus) [] ∷ Plain 32 ∷ Plain 43 ∷ Plain 49 ∷ [] }
    ensures five_digits { pieces_of (codes "$index + 123456") ≡
        Substitution (Some Index) (record { operator = Add; number = 12345 } ∷ []) ∷ Plain 54 ∷ [] }
{}

/// Words, computed from the definitions: custom fields have numbers from 1 to 2,040 without leading
/// zeros.
pub fn worked_words()
    ensures upper_case { word_of (codes "BUS") ≡ Some Bus }
    ensures first { word_of (codes "BOARD_INFO_AM1") ≡ Some (Field (Custom Board 1)) }
    ensures last { word_of (codes "BOARD_INFO_AM2040") ≡ Some (Field (Custom Board 2040)) }
    ensures past_last { word_of (codes "BOARD_INFO_AM2041") ≡ None }
    ensures zero { word_of (codes "BOARD_INFO_AM0") ≡ None }
    ensures leading_zero { word_of (codes "BOARD_INFO_AM01") ≡ None }
    ensures no_number { word_of (codes "BOARD_INFO_AM") ≡ None }
    ensures index_in_capitals { word_of (codes "INDEX") ≡ None }
{}

/// Kinds of templates, computed from the definitions.
pub fn worked_kinds()
    ensures fixed { is_fixed (codes "$5 index") ≡ true }
    ensures not_fixed { is_fixed (codes "A$bus") ≡ false }
    ensures single { is_single (codes "$index + 1") ≡ true }
    ensures not_single { is_single (codes "$index +1") ≡ false }
    ensures index { uses_index (codes "A $bus $index") ≡ true }
    ensures no_index { uses_index (codes "$bus index") ≡ false }
{}

/// Names that are rendered at address 80 of bus 1 under index 3, computed from the definitions.
pub fn worked_names()
    ensures left_to_right { bare (codes "A $address / 7 * 2") ≡ Some (codes "A 22") }
    ensures below_zero { bare (codes "$bus - 2 + 5") ≡ None }
    ensures above_range { bare (codes "$address * 53687 * 1001") ≡ None }
    ensures highest { bare (codes "$address * 53687 * 1000 + 7295") ≡ Some (codes "4294967295") }
    ensures behind_word { bare (codes "$index%") ≡ Some (codes "3%") }
    ensures text { bare (codes "$5") ≡ Some (codes "$5") }
    ensures no_operation { bare (codes "$bus +1") ≡ Some (codes "1 +1") }
    ensures no_record { bare (codes "$BOARD_PART_NUMBER") ≡ None }
    ensures field { full (codes "$BOARD_PRODUCT_NAME") ≡ Some (codes "RSR1") }
    ensures number { full (codes "$BOARD_SERIAL_NUMBER + 0") ≡ Some (codes "7") }
    ensures ten_digits { full (codes "$BOARD_PART_NUMBER + 0") ≡ None }
    ensures no_number { full (codes "$BOARD_PRODUCT_NAME + 0") ≡ None }
    ensures longest { bare (replicate 64 65) ≡ Some (replicate 64 65) }
    ensures too_long { bare (replicate 65 65) ≡ None }
{}

/// Numbers that are rendered there, and a number without substitutions, computed from the
/// definitions.
pub fn worked_numbers()
    ensures fixed { full_number (codes "12") 12 ≡ Some 12 }
    ensures above { full_number (codes "12") 11 ≡ None }
    ensures computed { full_number (codes "$address - 60") 255 ≡ Some 20 }
    ensures leading_zeros { full_number (codes "$BOARD_SERIAL_NUMBER") 127 ≡ Some 7 }
    ensures ten_digits { full_number (codes "$BOARD_PART_NUMBER") 4294967295 ≡ Some 1234567890 }
    ensures no_number { full_number (codes "$BOARD_PRODUCT_NAME") 255 ≡ None }
    ensures hexadecimal { fixed_number (codes "0x4C") ≡ Some 76 }
{}
