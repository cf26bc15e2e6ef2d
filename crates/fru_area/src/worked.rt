ghost use Rattle.std.specs.Prelude.{◌≡◌, [], ◌∷◌, ◌++◌, Bool, true, false, codes, length, map, Ok};
ghost use Rattle.fru_area.specs.Areas.{area_fields};
ghost use Rattle.fru_area.specs.Headers.{checksum};
ghost use Rattle.fru_area.specs.Names.{name_text};
ghost use Rattle.fru_area.specs.Texts.{binary, bcd_plus, six_bit, by_language, is_english_language, text_of};
ghost use Rattle.fru_area.specs.WorkedNames.{chassis_names, chassis_texts, board_names, board_texts, product_names, product_texts};
ghost use Rattle.fru_area.specs.WorkedNames.{chassis_area, chassis_fields};
ghost use Rattle.fru_area.specs.WorkedTexts.{field_of, packed_ipmi, y_diaeresis, e_acute, first_past_ascii, euro_sign};
ghost use Rattle.fru_area.specs.WorkedTexts.{no_character, grinning_face, last_character};
ghost use Rattle.fru_area.specs.declared.fault.Area.TheVariants.{Chassis};
ghost use Rattle.fru_area.specs.declared.name.FieldName.TheVariants.{ChassisPartNumber, ChassisSerialNumber};

/// Binary fields, computed from the definitions: two lower-case hexadecimal digits a byte.
pub fn worked_binary()
    ensures empty { (english : Bool) → text_of english (field_of binary []) ≡ [] }
    ensures two { (english : Bool) → text_of english (field_of binary (0x0A ∷ 0xFF ∷ [])) ≡ codes "0aff" }
    ensures letters { (english : Bool) → text_of english (field_of binary (codes "AZ")) ≡ codes "415a" }
{}

/// BCD plus, computed from the definitions: the high nibble first, and six marks above the digits.
pub fn worked_bcd_plus()
    ensures empty { (english : Bool) → text_of english (field_of bcd_plus []) ≡ [] }
    ensures digits { (english : Bool) → text_of english (field_of bcd_plus (0x01 ∷ 0x23 ∷ 0x45 ∷ 0x67 ∷ 0x89 ∷ [])) ≡ codes "0123456789" }
    ensures marks { (english : Bool) → text_of english (field_of bcd_plus (0xAB ∷ 0xCD ∷ 0xEF ∷ [])) ≡ codes " -.:,_" }
    ensures mixed { (english : Bool) → text_of english (field_of bcd_plus (0x1B ∷ 0x90 ∷ [])) ≡ codes "1-90" }
{}

/// 6-bit ASCII, computed from the definitions: four characters in three bytes, packed from the low bits
/// up. Bits that are left over are dropped.
pub fn worked_six_bit()
    ensures empty { (english : Bool) → text_of english (field_of six_bit []) ≡ [] }
    ensures ipmi { (english : Bool) → text_of english (field_of six_bit packed_ipmi) ≡ codes "IPMI" }
    ensures one { (english : Bool) → text_of english (field_of six_bit (0x29 ∷ [])) ≡ codes "I" }
    ensures two { (english : Bool) → text_of english (field_of six_bit (0x29 ∷ 0xDC ∷ [])) ≡ codes "IP" }
    ensures four { (english : Bool) → text_of english (field_of six_bit (packed_ipmi ++ 0x29 ∷ [])) ≡ codes "IPMII" }
    ensures first { (english : Bool) → text_of english (field_of six_bit (0x00 ∷ 0x00 ∷ 0x00 ∷ [])) ≡ codes "    " }
    ensures last { (english : Bool) → text_of english (field_of six_bit (0xFF ∷ 0xFF ∷ 0xFF ∷ [])) ≡ codes "____" }
{}

/// English text, computed from the definitions: a character of Latin 1 for each byte.
pub fn worked_latin()
    ensures empty { text_of true (field_of by_language []) ≡ [] }
    ensures ascii { text_of true (field_of by_language (codes "A B")) ≡ codes "A B" }
    ensures control { text_of true (field_of by_language (0x00 ∷ 0x1F ∷ 0x7F ∷ [])) ≡ 0x00 ∷ 0x1F ∷ 0x7F ∷ [] }
    ensures high { text_of true (field_of by_language (0x80 ∷ 0xE9 ∷ 0xFF ∷ [])) ≡ first_past_ascii ++ e_acute ++ y_diaeresis }
{}

/// 2-byte Unicode, computed from the definitions: the low byte first, and a surrogate pair is one
/// character. U+FFFD stands for a surrogate alone and for an odd byte at the end.
pub fn worked_unicode()
    ensures empty { text_of false (field_of by_language []) ≡ [] }
    ensures two { text_of false (field_of by_language (0x41 ∷ 0x00 ∷ 0xAC ∷ 0x20 ∷ [])) ≡ codes "A" ++ euro_sign }
    ensures pair { text_of false (field_of by_language (0x3D ∷ 0xD8 ∷ 0x00 ∷ 0xDE ∷ [])) ≡ grinning_face }
    ensures last_pair { text_of false (field_of by_language (0xFF ∷ 0xDB ∷ 0xFF ∷ 0xDF ∷ [])) ≡ last_character }
    ensures high_alone { text_of false (field_of by_language (0x3D ∷ 0xD8 ∷ 0x41 ∷ 0x00 ∷ [])) ≡ no_character ++ codes "A" }
    ensures low_alone { text_of false (field_of by_language (0x00 ∷ 0xDE ∷ 0x41 ∷ 0x00 ∷ [])) ≡ no_character ++ codes "A" }
    ensures odd { text_of false (field_of by_language (0x41 ∷ 0x00 ∷ 0x42 ∷ [])) ≡ codes "A" ++ no_character }
{}

/// Languages, computed from the definitions: 0 and 25 count as English.
pub fn worked_languages()
    ensures unspecified { is_english_language 0 ≡ true }
    ensures other { is_english_language 1 ≡ false }
    ensures before { is_english_language 24 ≡ false }
    ensures english { is_english_language 25 ≡ true }
    ensures behind { is_english_language 26 ≡ false }
{}

/// The names of each area and their texts, computed from the definitions.
pub fn worked_names()
    ensures chassis { map name_text chassis_names ≡ chassis_texts }
    ensures board { map name_text board_names ≡ board_texts }
    ensures product { map name_text product_names ≡ product_texts }
{}

/// The fields of a chassis area, computed from the definitions: named ones, then custom ones from 1, up to
/// the end mark and not to the bytes that pad the area.
pub fn worked_area()
    ensures sum { checksum chassis_area ≡ 0 }
    ensures fields { area_fields Chassis true (ChassisPartNumber ∷ ChassisSerialNumber ∷ []) chassis_area 3 ≡ Ok chassis_fields }
{}
