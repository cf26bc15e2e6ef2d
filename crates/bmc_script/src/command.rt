ghost use Rattle.std.specs.Prelude.{◌≡◌, ◌<◌, ◌==◌, [], Err, length, IfSome, option_map, position};
ghost use Rattle.bmc_text.specs.Words.{split_space};
ghost use Rattle.bmc_script.specs.Commands.{GivesCommand, command_of, verb_command, plug_of, unplug_of, config_of, place_named};
ghost use Rattle.bmc_script.specs.Commands.{is_blank, split_last_space, name_in, read_of, lose_of, ticks_of, topic_of, show_of};

use crate::NameText;
use crate::reading::split_reading;
use bmc_base::{Bytes, Place};
use bmc_report::Topic;
use bmc_text::{HexFault, hex_bytes, read_number};
use std::alloc::Global;
use std::str;
use thiserror::Error;

// How many ticks a line lets pass at the most: those of an hour.
const MOST_TICKS: u32 = 36_000;

/// What a line asks for. Names are borrowed from the line. A numeral, as B, A and N here, has 1 to 9 decimal digits, leading
/// zeros among them.
#[derive(Drop)]
pub enum Command<'l> {
    /// `config N`: the block of N bytes behind the line is the configuration from now on. The block itself is no part
    /// of the line.
    Config(u32),
    /// `plug B A HEX`: a FRU with these bytes appears at a place. HEX is two digits of either case for each byte,
    /// and at least one byte.
    Plug(Place, Bytes),
    /// `unplug B A`: the FRU at a place goes away.
    Unplug(Place),
    /// `read NAME RAW`: the sensor of this name was read, and gave this raw number. RAW is an optional `-` and 1 to 18
    /// decimal digits. NAME is 1 to 64 bytes of UTF-8 and goes on to the last space, so that it may have spaces itself.
    Good(NameText<'l>, i64),
    /// `lose NAME`: a reading of the sensor of this name was lost. NAME is all that stands behind the first space.
    Lost(NameText<'l>),
    /// `tick N`: N ticks of 100 ms pass. N is 1 to 36,000.
    Ticks(u32),
    /// `show TOPIC`: a list is asked for. TOPIC is `frus`, `inventory`, `sensors`, `zones`, `log` or `indexes`.
    Show(Topic),
    /// An empty line, or a comment, which begins with `#`.
    Nothing,
}

/// Why a line has no command: the first rule, in this order, that the line breaks.
#[derive(Clone, Copy, Debug, PartialEq, Eq, Error)]
pub enum ScriptFault {
    /// The first word is no command. It is the text before the first space or else the whole line.
    #[error("unknown command")]
    UnknownCommand,
    /// What stands behind the command has not its form: the number of words, a numeral that has not 1 to 9 digits, a
    /// HEX that is empty or has a space in it, a NAME that is empty, longer than 64 bytes or no UTF-8, a RAW that is not
    /// an optional `-` and 1 to 18 digits, or a TOPIC that is none of the six. A command that stands alone is such a
    /// line.
    #[error("bad arguments")]
    BadArguments,
    /// A bus above 255 or an address above 127.
    #[error("place out of range")]
    PlaceRange,
    /// A number of ticks that is 0 or above 36,000.
    #[error("number of ticks out of range")]
    TickLimit,
    /// A HEX that is an odd number of characters, or has one that is no hexadecimal digit.
    #[error("bad hexadecimal digits")]
    BadHex,
    /// There was no memory. It says nothing of the line.
    #[error("out of memory")]
    OutOfMemory,
}

// Returns where the first space is.
fn space(bytes: &[u8]) -> Option<usize>
    ensures first { result ≡ position (λ byte. byte == 32) bytes.now }
    ensures within { IfSome result (λ at. at < length bytes.now) }
{
    bytes.iter().position(|byte| *byte == b' ')
}

// Splits bytes at the first space: a word, and what stands behind it.
fn word(bytes: &[u8]) -> Option<(&[u8], &[u8])>
    ensures { option_map (λ parts. (parts.0.now, parts.1.now)) result ≡ split_space bytes.now }
{
    match space(bytes) {
        Some(at) => Some((&bytes[..at], &bytes[at + 1..])),
        None => None,
    }
}

// Reads a place, from a bus of 0 to 255 and an address of 0 to 127.
#[inline(always)]
#[tactic(auto, unfolding(crate::specs::Commands::place_named))]
fn read_place(bus: &[u8], address: &[u8]) -> Result<Place, ScriptFault>
    ensures { result ≡ place_named bus.now address.now }
{
    let bus = read_number(bus).ok_or(ScriptFault::BadArguments)?;
    let address = read_number(address).ok_or(ScriptFault::BadArguments)?;
    Place::new(bus, address).ok_or(ScriptFault::PlaceRange)
}

// Reads what stands behind `plug `.
#[inline(always)]
#[tactic(auto, unfolding(crate::specs::Commands::plug_of))]
fn read_plug(alloc: Global, rest: &[u8]) -> Result<Command<'_>, ScriptFault>
    ensures { GivesCommand result (plug_of rest.now) }
{
    let (bus, rest) = word(rest).ok_or(ScriptFault::BadArguments)?;
    let (address, digits) = word(rest).ok_or(ScriptFault::BadArguments)?;
    if digits.is_empty() || digits.contains(&b' ') {
        return Err(ScriptFault::BadArguments);
    }
    let place = read_place(bus, address)?;
    match hex_bytes(alloc, digits) {
        Ok(bytes) => Ok(Command::Plug(place, bytes)),
        Err(HexFault::BadHex) => Err(ScriptFault::BadHex),
        Err(HexFault::OutOfMemory) => Err(ScriptFault::OutOfMemory),
    }
}

// Reads what stands behind `unplug `.
#[inline(always)]
#[tactic(auto, unfolding(crate::specs::Commands::unplug_of))]
fn read_unplug(rest: &[u8]) -> Result<Command<'_>, ScriptFault>
    ensures { result ≡ unplug_of rest.now }
{
    let (bus, address) = word(rest).ok_or(ScriptFault::BadArguments)?;
    Ok(Command::Unplug(read_place(bus, address)?))
}

// Reads what stands behind `config `.
#[inline(always)]
#[tactic(auto, unfolding(crate::specs::Commands::config_of))]
fn read_config(rest: &[u8]) -> Result<Command<'_>, ScriptFault>
    ensures { result ≡ config_of rest.now }
{
    let size = read_number(rest).ok_or(ScriptFault::BadArguments)?;
    Ok(Command::Config(size))
}

// Reads a name: 1 to 64 bytes of UTF-8.
#[inline(always)]
#[tactic(auto, using(crate::proofs::NamesLemmas::name_in_text, crate::proofs::NamesLemmas::name_in_other))]
fn read_name(bytes: &[u8]) -> Option<NameText<'_>>
    ensures { result ≡ name_in bytes.now }
{
    let text = str::from_utf8(bytes).ok()?;
    NameText::new(text)
}

// Reads what stands behind `read `.
#[inline(always)]
#[tactic(auto, unfolding(crate::specs::Commands::read_of))]
fn read_read(rest: &[u8]) -> Result<Command<'_>, ScriptFault>
    ensures { result ≡ read_of rest.now }
{
    let (name, raw) = split_reading(rest).ok_or(ScriptFault::BadArguments)?;
    let name = read_name(name).ok_or(ScriptFault::BadArguments)?;
    Ok(Command::Good(name, raw))
}

// Reads what stands behind `lose `.
#[inline(always)]
#[tactic(auto, unfolding(crate::specs::Commands::lose_of))]
fn read_lose(rest: &[u8]) -> Result<Command<'_>, ScriptFault>
    ensures { result ≡ lose_of rest.now }
{
    let name = read_name(rest).ok_or(ScriptFault::BadArguments)?;
    Ok(Command::Lost(name))
}

// Reads what stands behind `tick `.
#[inline(always)]
#[tactic(auto, unfolding(crate::specs::Commands::ticks_of))]
fn read_ticks(rest: &[u8]) -> Result<Command<'_>, ScriptFault>
    ensures { result ≡ ticks_of rest.now }
{
    let count = read_number(rest).ok_or(ScriptFault::BadArguments)?;
    if count == 0 || count > MOST_TICKS {
        return Err(ScriptFault::TickLimit);
    }
    Ok(Command::Ticks(count))
}

// Returns the topic of a word, if there is one.
fn topic_of(word: &[u8]) -> Option<Topic>
    ensures { result ≡ topic_of word.now }
{
    match word {
        b"frus" => Some(Topic::Frus),
        b"inventory" => Some(Topic::Inventory),
        b"sensors" => Some(Topic::Sensors),
        b"zones" => Some(Topic::Zones),
        b"log" => Some(Topic::Log),
        b"indexes" => Some(Topic::Indexes),
        _ => None,
    }
}

// Reads what stands behind `show `.
#[inline(always)]
#[tactic(auto, unfolding(crate::specs::Commands::show_of))]
fn read_show(rest: &[u8]) -> Result<Command<'_>, ScriptFault>
    ensures { result ≡ show_of rest.now }
{
    let topic = topic_of(rest).ok_or(ScriptFault::BadArguments)?;
    Ok(Command::Show(topic))
}

// Returns the fault of a line that begins with no verb and a space: a verb that stands alone has no arguments.
#[cold]
#[inline(never)]
fn other_fault(line: &[u8]) -> ScriptFault
    ensures { verb_command line.now [] ≡ Err result }
{
    match line {
        b"plug" | b"unplug" | b"config" | b"read" | b"lose" | b"tick" | b"show" => {
            ScriptFault::BadArguments
        }
        _ => ScriptFault::UnknownCommand,
    }
}

/// Whether a line, without its newline, asks for nothing: it is empty, or a comment, which begins with `#`. [`Command::read`]
/// answers [`Command::Nothing`] of such a line.
#[inline(always)]
pub fn is_blank(line: &[u8]) -> bool
    ensures { result ≡ is_blank line.now }
{
    matches!(line, [] | [b'#', ..])
}

impl<'l> Command<'l> {
    /// Reads the command of a line, without its newline. The line may hold any bytes.
    #[inline(always)]
    #[tactic(auto, unfolding(crate::specs::Commands::command_of))]
    pub fn read(alloc: Global, line: &'l [u8]) -> Result<Command<'l>, ScriptFault>
        ensures { GivesCommand result (command_of line.now) }
    {
        // Each of these is inlined, and so is the caller's match: a command is then never put together in memory.
        match line {
            [] | [b'#', ..] => Ok(Command::Nothing),
            // told apart in place: a verb and a space cost no search for the space
            [b'r', b'e', b'a', b'd', b' ', rest @ ..] => read_read(rest),
            [b'p', b'l', b'u', b'g', b' ', rest @ ..] => read_plug(alloc, rest),
            [b'u', b'n', b'p', b'l', b'u', b'g', b' ', rest @ ..] => read_unplug(rest),
            [b'c', b'o', b'n', b'f', b'i', b'g', b' ', rest @ ..] => read_config(rest),
            [b'l', b'o', b's', b'e', b' ', rest @ ..] => read_lose(rest),
            [b't', b'i', b'c', b'k', b' ', rest @ ..] => read_ticks(rest),
            [b's', b'h', b'o', b'w', b' ', rest @ ..] => read_show(rest),
            _ => Err(other_fault(line)),
        }
    }
}
