use crate::{Origin, Refusal, push_refused_line, refusal_text};
use fru_area::Area;
use std::fmt::Write;
use std::test::Fail;

#[test]
fn lines_of_refusals(rt: HostRuntime) -> Result<(), Fail> {
    let rows = &[
        (Refusal::LineTooLong, "LineTooLong"),
        (Refusal::UnknownCommand, "UnknownCommand"),
        (Refusal::BadArguments, "BadArguments"),
        (Refusal::PlaceRange, "PlaceRange"),
        (Refusal::TickLimit, "TickLimit"),
        (Refusal::BadHex, "BadHex"),
        (Refusal::ConfigTooLong, "ConfigTooLong"),
        (Refusal::ConfigShort, "ConfigShort"),
        (Refusal::NotJson, "NotJson"),
        (Refusal::Fraction, "Fraction"),
        (Refusal::MissingKey, "MissingKey"),
        (Refusal::WrongKind, "WrongKind"),
        (Refusal::OutOfRange, "OutOfRange"),
        (Refusal::ProbeSyntax, "ProbeSyntax"),
        (Refusal::TemplateSyntax, "TemplateSyntax"),
        (Refusal::MuxMatchOne, "MuxMatchOne"),
        (Refusal::PatternSyntax, "PatternSyntax"),
        (Refusal::PatternTooLarge, "PatternTooLarge"),
        (Refusal::ConfigAfterPlug, "ConfigAfterPlug"),
        (Refusal::DuplicateName, "DuplicateName"),
        (Refusal::ConfigLimit, "ConfigLimit"),
        (Refusal::Occupied, "Occupied"),
        (Refusal::FruShort, "FruShort"),
        (Refusal::FruTooLong, "FruTooLong"),
        (Refusal::HeaderVersion, "HeaderVersion"),
        (Refusal::HeaderChecksum, "HeaderChecksum"),
        (Refusal::AreaOutside(Area::Chassis), "AreaOutside Chassis"),
        (Refusal::AreaVersion(Area::Board), "AreaVersion Board"),
        (Refusal::AreaLength(Area::Product), "AreaLength Product"),
        (Refusal::AreaChecksum(Area::Chassis), "AreaChecksum Chassis"),
        (Refusal::FieldOutside(Area::Board), "FieldOutside Board"),
        (Refusal::NoEnd(Area::Product), "NoEnd Product"),
        (Refusal::FruLimit, "FruLimit"),
        (Refusal::BoardLimit, "BoardLimit"),
        (Refusal::SensorLimit, "SensorLimit"),
        (Refusal::ZoneLimit, "ZoneLimit"),
        (Refusal::FanLimit, "FanLimit"),
        (Refusal::PidLimit, "PidLimit"),
        (Refusal::StepLimit, "StepLimit"),
        (Refusal::NotPresent, "NotPresent"),
        (Refusal::UnknownSensor, "UnknownSensor"),
        (Refusal::ReadingRange, "ReadingRange"),
    ];
    for &(refusal, name) in rows {
        for number in ["1", "30", "18446744073709551615"] {
            let mut out = String::from_str(rt.alloc(), "before")?;
            push_refused_line(&mut out, Origin::Line, number.parse::<u64>()?, refusal)?;
            push_refused_line(&mut out, Origin::File, 7, refusal)?;
            let mut line = String::new(rt.alloc());
            write!(
                line,
                "beforeline {number} refused {name}\nfile 7 refused {name}\n"
            )?;
            assert_eq!(rt; out.as_str(), line.as_str());
        }
    }
    Ok(())
}

#[test]
fn texts_of_refusals(rt: HostRuntime) -> Result<(), Fail> {
    let rows = &[
        (Refusal::SensorLimit, "SensorLimit"),
        (Refusal::NoEnd(Area::Product), "NoEnd Product"),
    ];
    for &(refusal, name) in rows {
        let text = refusal_text(rt.alloc(), &refusal)?;
        assert_eq!(rt; text.as_str(), name);
    }
    Ok(())
}
