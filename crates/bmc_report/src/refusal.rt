ghost use Rattle.std.specs.Prelude.{◌≡◌, ◌≤◌, ◌+◌, ◌++◌, OnOk, IfOk, length, string_bytes};
ghost use Rattle.bmc_report.specs.Refusals.{area_text, refusal_name, area_of, area_ending, refusal_text, origin_text, refused_line};

use arrayvec::ArrayString;
use bmc_base::{OutOfMemory, Text};
use fru_area::Area;
use std::alloc::Global;

/// Why a file or a line is refused. Each variant has the name that is printed. A rule of records that an area breaks has
/// that area, whose name is printed too.
#[derive(Clone, Copy, Debug, PartialEq, Eq)]
pub enum Refusal {
    /// The line has more than 9,000 bytes.
    LineTooLong,
    /// The first word of the line is no command.
    UnknownCommand,
    /// What stands behind the command has not its form.
    BadArguments,
    /// The bus is above 255, or the address above 127.
    PlaceRange,
    /// The number of ticks is 0 or above 36,000.
    TickLimit,
    /// The record is not written in pairs of hexadecimal digits.
    BadHex,
    /// The block has more than 262,144 bytes.
    ConfigTooLong,
    /// The script ends within the block.
    ConfigShort,
    /// The block is no JSON text in UTF-8, or nests deeper than 127.
    NotJson,
    /// A number of the document is no whole number of 64 bits.
    Fraction,
    /// The document lacks a member that it has to have.
    MissingKey,
    /// The document or a member of it has another JSON kind than it has to have.
    WrongKind,
    /// A length or a number in the document is out of its range.
    OutOfRange,
    /// A text of the probe is no word, or stands in a wrong place.
    ProbeSyntax,
    /// A name or a number in the document is no template, or a channel of a multiplexer asks for the index.
    TemplateSyntax,
    /// The probe ends with MATCH_ONE, and a channel of a multiplexer has a substitution.
    MuxMatchOne,
    /// A text of a pattern is no regular expression, or nests too deep.
    PatternSyntax,
    /// A text of a pattern is too large to be compiled.
    PatternTooLarge,
    /// A FRU was plugged before the configuration.
    ConfigAfterPlug,
    /// An earlier configuration has the name.
    DuplicateName,
    /// There are 256 configurations already.
    ConfigLimit,
    /// A FRU is at the place already.
    Occupied,
    /// The record has fewer than 8 bytes.
    FruShort,
    /// The record has more than 4,096 bytes.
    FruTooLong,
    /// The version of the common header is not 1 (FRU definition 1.0, section 8).
    HeaderVersion,
    /// The bytes of the common header do not sum to zero modulo 256.
    HeaderChecksum,
    /// The area reaches past the end of the record.
    AreaOutside(Area),
    /// The version of the area is not 1 (FRU definition 1.0, sections 10 to 12).
    AreaVersion(Area),
    /// The length of the area is zero.
    AreaLength(Area),
    /// The bytes of the area do not sum to zero modulo 256.
    AreaChecksum(Area),
    /// A field of the area reaches its checksum or past it (section 13).
    FieldOutside(Area),
    /// No end mark C1h stands before the checksum of the area.
    NoEnd(Area),
    /// 256 FRUs are present already.
    FruLimit,
    /// There would be more than 1,024 boards.
    BoardLimit,
    /// The boards would have more than 4,096 exposes of sensors.
    SensorLimit,
    /// The boards would have more than 32 exposes of fan zones.
    ZoneLimit,
    /// The boards would have more than 128 exposes of fans.
    FanLimit,
    /// The boards would have more than 128 exposes of PID controllers.
    PidLimit,
    /// The boards would have more than 64 exposes of stepwise controllers.
    StepLimit,
    /// No FRU is at the place.
    NotPresent,
    /// No live sensor has the name.
    UnknownSensor,
    /// The raw number is above 1,000,000,000, or below -1,000,000,000.
    ReadingRange,
}

impl Refusal {
    // The name, without the area.
    #[tactic(auto, unfolding(crate::specs::Refusals::refusal_name))]
    fn name(self) -> &'static str
        ensures text { result.now ≡ refusal_name self }
        ensures short { length result.now ≤ 16 }
    {
        match self {
            Refusal::LineTooLong => "LineTooLong",
            Refusal::UnknownCommand => "UnknownCommand",
            Refusal::BadArguments => "BadArguments",
            Refusal::PlaceRange => "PlaceRange",
            Refusal::TickLimit => "TickLimit",
            Refusal::BadHex => "BadHex",
            Refusal::ConfigTooLong => "ConfigTooLong",
            Refusal::ConfigShort => "ConfigShort",
            Refusal::NotJson => "NotJson",
            Refusal::Fraction => "Fraction",
            Refusal::MissingKey => "MissingKey",
            Refusal::WrongKind => "WrongKind",
            Refusal::OutOfRange => "OutOfRange",
            Refusal::ProbeSyntax => "ProbeSyntax",
            Refusal::TemplateSyntax => "TemplateSyntax",
            Refusal::MuxMatchOne => "MuxMatchOne",
            Refusal::PatternSyntax => "PatternSyntax",
            Refusal::PatternTooLarge => "PatternTooLarge",
            Refusal::ConfigAfterPlug => "ConfigAfterPlug",
            Refusal::DuplicateName => "DuplicateName",
            Refusal::ConfigLimit => "ConfigLimit",
            Refusal::Occupied => "Occupied",
            Refusal::FruShort => "FruShort",
            Refusal::FruTooLong => "FruTooLong",
            Refusal::HeaderVersion => "HeaderVersion",
            Refusal::HeaderChecksum => "HeaderChecksum",
            Refusal::AreaOutside(_) => "AreaOutside",
            Refusal::AreaVersion(_) => "AreaVersion",
            Refusal::AreaLength(_) => "AreaLength",
            Refusal::AreaChecksum(_) => "AreaChecksum",
            Refusal::FieldOutside(_) => "FieldOutside",
            Refusal::NoEnd(_) => "NoEnd",
            Refusal::FruLimit => "FruLimit",
            Refusal::BoardLimit => "BoardLimit",
            Refusal::SensorLimit => "SensorLimit",
            Refusal::ZoneLimit => "ZoneLimit",
            Refusal::FanLimit => "FanLimit",
            Refusal::PidLimit => "PidLimit",
            Refusal::StepLimit => "StepLimit",
            Refusal::NotPresent => "NotPresent",
            Refusal::UnknownSensor => "UnknownSensor",
            Refusal::ReadingRange => "ReadingRange",
        }
    }

    // The area that breaks a rule, if the rule is one on areas.
    fn area(self) -> Option<Area>
        ensures { result ≡ area_of self }
    {
        match self {
            Refusal::AreaOutside(area)
            | Refusal::AreaVersion(area)
            | Refusal::AreaLength(area)
            | Refusal::AreaChecksum(area)
            | Refusal::FieldOutside(area)
            | Refusal::NoEnd(area) => Some(area),
            _ => None,
        }
    }
}

// The name of an area.
#[tactic(auto, unfolding(crate::specs::Refusals::area_text))]
fn area_name(area: Area) -> &'static str
    ensures text { result.now ≡ area_text area }
    ensures short { length result.now ≤ 7 }
{
    match area {
        Area::Chassis => "Chassis",
        Area::Board => "Board",
        Area::Product => "Product",
    }
}

// Puts the area that breaks a rule behind its name.
fn add_area<const ROOM: usize>(line: &mut ArrayString<ROOM>, area: Option<Area>)
    requires { length line.old.bytes + 8 ≤ ROOM }
    ensures text { line.new.bytes ≡ line.old.bytes ++ area_ending area }
    ensures size { length line.new.bytes ≤ length line.old.bytes + 8 }
{
    if let Some(area) = area {
        line.push_str(" ");
        line.push_str(area_name(area));
    }
}

// Puts what is printed of a refusal behind what is there.
#[tactic(auto, using(std::proofs::Common::append_assoc), unfolding(crate::specs::Refusals::refusal_text))]
pub(crate) fn add_refusal<const ROOM: usize>(line: &mut ArrayString<ROOM>, refusal: Refusal)
    requires { length line.old.bytes + 24 ≤ ROOM }
    ensures text { line.new.bytes ≡ line.old.bytes ++ refusal_text refusal }
    ensures size { length line.new.bytes ≤ length line.old.bytes + 24 }
{
    line.push_str(refusal.name());
    add_area(line, refusal.area());
}

/// Where an item comes from that may be refused.
#[derive(Clone, Copy, Debug, PartialEq, Eq)]
pub enum Origin {
    /// It is a configuration file of the command line.
    File,
    /// It is a line of the script, with its block.
    Line,
}

impl Origin {
    // The word that is printed before the number.
    fn word(self) -> &'static str
        ensures text { result.now ≡ origin_text self }
        ensures short { length result.now ≤ 5 }
    {
        match self {
            Origin::File => "file ",
            Origin::Line => "line ",
        }
    }
}

// The most bytes of the line of a refusal: two words, a number of 20 digits, and the refusal.
const LONGEST_LINE: usize = 59;

/// Appends the line that is printed of a refused file or line. `number` counts the files, or the lines of the script,
/// from 1.
#[tactic(auto, using(std::proofs::Common::append_assoc), unfolding(crate::specs::Refusals::refusal_text))]
pub fn push_refused_line(
    out: &mut String,
    origin: Origin,
    number: u64,
    refusal: Refusal,
) -> Result<(), OutOfMemory>
    ensures { OnOk result (string_bytes out.new ≡ string_bytes out.old ++ refused_line origin number refusal) }
{
    // The line is short, so it is put together first and appended at once.
    let mut line = ArrayString::<LONGEST_LINE>::new();
    line.push_str(origin.word());
    line.push_str(itoa::Buffer::new().format(number));
    line.push_str(" refused ");
    add_refusal(&mut line, refusal);
    line.push_str("\n");
    out.push_str(line.as_str())?;
    Ok(())
}

/// Returns what is printed of a refusal: its name, and the area if it is a rule of one. Fails only for want of
/// memory.
pub fn refusal_text(alloc: Global, refusal: &Refusal) -> Result<Text, OutOfMemory>
    ensures { IfOk result (λ text. text ≡ refusal_text refusal.now) }
{
    let mut line = ArrayString::<LONGEST_LINE>::new();
    add_refusal(&mut line, *refusal);
    Text::copy(alloc, line.as_str())
}
