ghost use Rattle.std.specs.Prelude.{◌≡◌, ◌++◌, [], ◌∷◌, codes, replicate, Some, None, Ok, Err};
ghost use Rattle.fru_area.specs.declared.fault.Area.TheVariants.{Chassis, Board};
ghost use Rattle.fru_area.specs.declared.fault.FruFault.TheVariants.{FruShort, FruTooLong, HeaderVersion, HeaderChecksum};
ghost use Rattle.fru_area.specs.declared.fault.FruFault.TheVariants.{AreaOutside, AreaVersion, AreaLength, AreaChecksum, FieldOutside, NoEnd};
ghost use Rattle.fru_record.specs.Building.{Builds, build_fault};
ghost use Rattle.fru_record.specs.Dates.{date_text};
ghost use Rattle.fru_record.specs.Parts.{fields_of_parts};
ghost use Rattle.fru_record.specs.Records.{record_of};
ghost use Rattle.fru_record.specs.WorkedParts.{whole_parts, board_of_minutes, board_made_by, letters, last_of_latin, first_past_latin};
ghost use Rattle.fru_record.specs.WorkedParts.{long_chassis, bare_board};
ghost use Rattle.fru_record.specs.WorkedParts.{last_minute_bytes, latin_bytes, space_bytes, low_line_bytes, longest_bytes};
ghost use Rattle.fru_record.specs.WorkedParts.{all_rules_broken, early_minutes, early_latin, early_latin_short, only_too_many};
ghost use Rattle.fru_record.specs.WorkedRecords.{board_bytes, board_fields, dated_bytes, dated_fields, whole_bytes, whole_fields, board_record, two_faults};
ghost use Rattle.fru_record.specs.declared.builder.BuildFault.TheVariants.{DateRange, TextNotLatin, TextTooLong, OneByte, AreaTooLong, RecordTooLong};

/// Records and their fields, computed from the definitions.
pub fn worked_records()
    ensures board { record_of board_bytes ≡ Ok board_fields }
    ensures dated { record_of dated_bytes ≡ Ok dated_fields }
    ensures whole { record_of whole_bytes ≡ Ok whole_fields }
{}

/// The records of parts, computed from the definitions: all three areas, and a board at each bound of its
/// date and of a text.
pub fn worked_parts()
    ensures whole { Builds whole_parts whole_bytes }
    ensures whole_fields { fields_of_parts whole_parts ≡ whole_fields }
    ensures last_minute { Builds (board_of_minutes 16777215) last_minute_bytes }
    ensures late { build_fault (board_of_minutes 16777216) ≡ Some DateRange }
    ensures last_latin { Builds (board_made_by last_of_latin) latin_bytes }
    ensures past_latin { build_fault (board_made_by first_past_latin) ≡ Some TextNotLatin }
    ensures longest { Builds (board_made_by (letters 63)) longest_bytes }
    ensures too_long { build_fault (board_made_by (letters 64)) ≡ Some TextTooLong }
    ensures control { build_fault (board_made_by (0x1F ∷ [])) ≡ Some OneByte }
    ensures space { Builds (board_made_by (codes " ")) space_bytes }
    ensures low_line { Builds (board_made_by (codes "_")) low_line_bytes }
    ensures grave { build_fault (board_made_by (codes "`")) ≡ Some OneByte }
{}

/// The first of the rules that parts break, computed from the definitions.
pub fn worked_build_faults()
    ensures date { build_fault all_rules_broken ≡ Some DateRange }
    ensures latin { build_fault early_minutes ≡ Some TextNotLatin }
    ensures length { build_fault early_latin ≡ Some TextTooLong }
    ensures single { build_fault early_latin_short ≡ Some OneByte }
    ensures area { build_fault only_too_many ≡ Some AreaTooLong }
    ensures full { build_fault (long_chassis 50 None) ≡ None }
    ensures over { build_fault (long_chassis 51 None) ≡ Some AreaTooLong }
    ensures last_start { build_fault (long_chassis 42 bare_board) ≡ None }
    ensures past_start { build_fault (long_chassis 43 bare_board) ≡ Some RecordTooLong }
{}

/// The dates of minutes, computed from the definitions: the first and the last, the ends of years and the
/// leap days.
pub fn worked_dates()
    ensures first { date_text 0 ≡ codes "1996-01-01 00:00" }
    ensures minute { date_text 1 ≡ codes "1996-01-01 00:01" }
    ensures month { date_text 43200 ≡ codes "1996-01-31 00:00" }
    ensures leap { date_text 84960 ≡ codes "1996-02-29 00:00" }
    ensures century { date_text 2103839 ≡ codes "1999-12-31 23:59" }
    ensures next { date_text 2103840 ≡ codes "2000-01-01 00:00" }
    ensures leap_century { date_text 2190239 ≡ codes "2000-02-29 23:59" }
    ensures year { date_text 2629440 ≡ codes "2000-12-31 00:00" }
    ensures later { date_text 14812560 ≡ codes "2024-02-29 12:00" }
    ensures last { date_text 16777215 ≡ codes "2027-11-24 20:15" }
{}

/// The first of the rules that bytes break, computed from the definitions: each of these breaks a later
/// rule too, but for the last two of an area.
pub fn worked_faults()
    ensures short { record_of (replicate 7 0) ≡ Err FruShort }
    ensures long { record_of (replicate 4097 0) ≡ Err FruTooLong }
    ensures version { record_of (2 ∷ replicate 7 0) ≡ Err HeaderVersion }
    ensures sum { record_of (1 ∷ 0 ∷ 0 ∷ 9 ∷ replicate 4 0) ≡ Err HeaderChecksum }
    ensures outside { record_of (board_record (2 ∷ 2 ∷ replicate 6 0)) ≡ Err (AreaOutside Board) }
    ensures area_version { record_of (board_record (2 ∷ 0 ∷ replicate 6 0)) ≡ Err (AreaVersion Board) }
    ensures length { record_of (board_record (1 ∷ 0 ∷ replicate 6 0)) ≡ Err (AreaLength Board) }
    ensures area_sum { record_of (board_record (1 ∷ 1 ∷ replicate 4 0 ++ 0xC2 ∷ 0 ∷ [])) ≡ Err (AreaChecksum Board) }
    ensures field { record_of (board_record (1 ∷ 1 ∷ replicate 4 0 ++ 0xC2 ∷ 0x3C ∷ [])) ≡ Err (FieldOutside Board) }
    ensures end_mark { record_of (board_record (1 ∷ 1 ∷ replicate 4 0 ++ 0xC0 ∷ 0x3E ∷ [])) ≡ Err (NoEnd Board) }
    ensures chassis { record_of two_faults ≡ Err (FieldOutside Chassis) }
{}
