ghost use Rattle.std.specs.Prelude.{◌≡◌, ◌≢◌, ◌↔◌, ◌<◌, ◌≤◌, ◌^◌, true, false, codes, map, string_bytes};
ghost use Rattle.std.specs.Prelude.{IfOk, IfSome, IsErrOf, OnOk};
ghost use Rattle.clap.specs.Words.{found_of, kind_of, rows_of};
ghost use Rattle.clap.specs.declared.error.kind.ErrorKind.TheVariants as kind;
ghost use Rattle.bmc_words.specs.Numbers.{IsNumberIn, number_of};
ghost use Rattle.bmc_words.specs.Settings.{settings_in, settings_of, view_of, is_strict};
ghost use Rattle.bmc_words.specs.Settings.{has_sample_and_config, are_refused};
ghost use Rattle.bmc_words.specs.declared.settings.WordsFault.TheVariants.{Usage, OutOfMemory};

use crate::command::parse;
use clap::ArgMatches;
use clap::error::ErrorKind;
use std::alloc::{AllocError, Global};
use thiserror::Error;

/// The usage line, with its newline.
pub const USAGE: &str = "usage: bmcreplay [--strict] [--log-cap N] [--sample N] [CONFIG]..\n";

// The cap of the log where the words give none.
const DEFAULT_LOG_CAP: u32 = 200;

/// Why words give no settings.
#[derive(Clone, Copy, Debug, PartialEq, Eq, Error)]
pub enum WordsFault {
    /// The words are refused: they are no use of the command, or they ask for its help, or a sample stands with a
    /// configuration.
    #[error("usage")]
    Usage,
    /// There was no memory. It says nothing of the words.
    #[error("out of memory")]
    OutOfMemory,
}

impl From<clap::Error> for WordsFault {
    ghost from_gives = { λ error fault. (fault ≡ Usage) ↔ (kind_of error ≢ kind.OutOfMemory) };

    fn from(error: clap::Error) -> Self {
        match error.kind() {
            ErrorKind::OutOfMemory => WordsFault::OutOfMemory,
            _ => WordsFault::Usage,
        }
    }
}

impl From<AllocError> for WordsFault {
    ghost from_gives = { λ _ fault. fault ≡ OutOfMemory };

    fn from(_: AllocError) -> Self {
        WordsFault::OutOfMemory
    }
}

/// What the words of the command line ask for.
#[derive(Debug, Drop)]
pub struct Settings<'a> {
    /// Whether a zone in failsafe commands exactly its failsafe duty: `--strict`.
    pub strict: bool,
    /// How many errors the log keeps: `--log-cap N`, 1 to 1,000, and 200 where the words give none.
    pub log_cap: u32,
    /// The seed of the sample script that is run in place of the input: `--sample N`, 0 to 2,147,483,647.
    pub sample: Option<u32>,
    /// The names of the configuration files, in the order of the words. There are none beside a sample.
    pub configs: Vec<&'a str>,
}

// Returns whether the flag was given.
#[tactic(auto, using(crate::proofs::ReadLemmas::strict_read))]
fn is_strict(matches: &ArgMatches<'_>) -> bool
    ensures { result ≡ is_strict (rows_of (found_of matches.now)) }
{
    matches.get_one("strict").unwrap_or(false)
}

// Returns the number of an option, where it was given.
fn number_of(matches: &ArgMatches<'_>, option: &str) -> Option<u32>
    requires { IsNumberIn option.now 0 4294967295 (rows_of (found_of matches.now)) }
    ensures { result ≡ number_of option.now (rows_of (found_of matches.now)) }
{
    matches.get_one(option)
}

impl<'a> Settings<'a> {
    // Takes the settings out of the matches.
    #[tactic(auto, using(crate::proofs::ReadLemmas::configs_read))]
    fn from_matches(alloc: Global, matches: &ArgMatches<'a>) -> Result<Settings<'a>, AllocError>
        requires log_cap { IsNumberIn (codes "log_cap") 1 1000 (rows_of (found_of matches.now)) }
        requires sample { IsNumberIn (codes "sample") 0 2147483647 (rows_of (found_of matches.now)) }
        ensures { IfOk result (λ settings. view_of settings ≡ settings_in (rows_of (found_of matches.now))) }
    {
        let names = matches.get_strs("config").unwrap_or(&[]);
        Ok(Settings {
            strict: is_strict(matches),
            log_cap: number_of(matches, "log_cap").unwrap_or(DEFAULT_LOG_CAP),
            sample: number_of(matches, "sample"),
            configs: Vec::from_slice(alloc, names)?,
        })
    }

    fn has_sample_and_config(&self) -> bool
        ensures { result ≡ has_sample_and_config (view_of self.now) }
    {
        self.sample.is_some() && !self.configs.is_empty()
    }

    /// Reads the words after the program's name. An option stands before its number, as `--sample 7` or `--sample=7`,
    /// and at most once. A number is decimal digits, with zeros or a plus sign before them or without. Options and
    /// names may be mixed. Each word behind `--` is a name.
    pub fn read(alloc: Global, words: &'a [String]) -> Result<Settings<'a>, WordsFault>
        ensures settings { IfOk result (λ settings. view_of settings ≡ settings_of (map string_bytes words.entry.now)) }
        ensures taken { OnOk result (are_refused (map string_bytes words.entry.now) ≡ false) }
        ensures usage { IsErrOf result WordsFault.Usage → are_refused (map string_bytes words.entry.now) ≡ true }
        ensures log_cap { IfOk result (λ settings. (1 ≤ settings.log_cap) × (settings.log_cap ≤ 1000)) }
        ensures sample { IfOk result (λ settings. IfSome settings.sample (λ seed. seed < 2 ^ 31)) }
    {
        let matches = parse(alloc, words)?;
        let settings = Settings::from_matches(alloc, &matches)?;
        if settings.has_sample_and_config() {
            return Err(WordsFault::Usage);
        }
        Ok(settings)
    }
}
