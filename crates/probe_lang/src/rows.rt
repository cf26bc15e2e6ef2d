ghost use Rattle.std.specs.Prelude.{◌≡◌, ◌∷◌, ◌++◌, [], IfOk, OnOk, OnErr};
ghost use Rattle.probe_lang.specs.Sights.{has_config};

use bmc_base::{OutOfMemory, Place};
use fru_record::FruRecord;
use std::alloc::Global;
use std::marker::Model;

/// A match of a record: the configuration and the pattern of its probe that matches, by their numbers.
#[derive(Clone, Copy, Debug, PartialEq, Eq)]
pub struct Hit {
    /// The number of the configuration.
    pub config: u32,
    /// The number of the pattern in its probe.
    pub pattern: u32,
}

/// Hits, by configuration and pattern.
#[derive(Drop)]
pub struct Hits {
    hits: Vec<Hit>,
}

impl Model for Hits {
    ghost use Rattle.std.specs.Prelude.{List};
    ghost use Rattle.probe_lang.specs.declared.rows.Hit.{Hit};

    ghost Value = { List Hit };

    ghost view = { λ h. h.hits.items };
}

impl Hits {
    /// Returns a list of no hits, which takes no memory.
    pub fn new(alloc: Global) -> Hits
        ensures { result ≡ [] }
    {
        Hits {
            hits: Vec::new(alloc),
        }
    }

    /// Appends a hit, or changes nothing for want of memory.
    pub fn push(&mut self, alloc: Global, item: Hit) -> Result<(), OutOfMemory>
        ensures ok { OnOk result (self.new ≡ self.old ++ item ∷ []) }
        ensures err { OnErr result (self.new ≡ self.old) }
    {
        let _ = alloc;
        self.hits.push(item)?;
        Ok(())
    }

    /// Borrows the hits.
    pub fn as_slice(&self) -> &[Hit]
        ensures { result.now ≡ self.now }
    {
        &self.hits
    }

    /// Copies the hits.
    pub fn copy(&self, alloc: Global) -> Result<Hits, OutOfMemory>
        ensures { IfOk result (λ hits. hits ≡ self.now) }
    {
        let hits = Vec::from_slice(alloc, self.hits.as_slice())?;
        Ok(Hits { hits })
    }

    /// Whether a pattern of the configuration with this number is among them.
    pub fn has_config(&self, config: u32) -> bool
        ensures { result ≡ has_config self.now config }
    {
        self.hits.iter().any(|hit| hit.config == config)
    }
}

/// A bus to which a moving channel of a configuration leads.
#[derive(Clone, Copy, Debug, PartialEq, Eq)]
pub struct Channel {
    /// The number of the configuration.
    pub config: u32,
    /// The bus.
    pub bus: u8,
}

/// Channels, by configuration.
#[derive(Drop)]
pub struct Channels {
    channels: Vec<Channel>,
}

impl Model for Channels {
    ghost use Rattle.std.specs.Prelude.{List};
    ghost use Rattle.probe_lang.specs.declared.rows.Channel.{Channel};

    ghost Value = { List Channel };

    ghost view = { λ c. c.channels.items };
}

impl Channels {
    /// Returns a list of no channels, which takes no memory.
    pub fn new(alloc: Global) -> Channels
        ensures { result ≡ [] }
    {
        Channels {
            channels: Vec::new(alloc),
        }
    }

    /// Appends a channel, or changes nothing for want of memory.
    pub fn push(&mut self, alloc: Global, item: Channel) -> Result<(), OutOfMemory>
        ensures ok { OnOk result (self.new ≡ self.old ++ item ∷ []) }
        ensures err { OnErr result (self.new ≡ self.old) }
    {
        let _ = alloc;
        self.channels.push(item)?;
        Ok(())
    }

    /// Borrows the channels.
    pub fn as_slice(&self) -> &[Channel]
        ensures { result.now ≡ self.now }
    {
        &self.channels
    }

    /// Copies the channels.
    pub fn copy(&self, alloc: Global) -> Result<Channels, OutOfMemory>
        ensures { IfOk result (λ channels. channels ≡ self.now) }
    {
        let channels = Vec::from_slice(alloc, self.channels.as_slice())?;
        Ok(Channels { channels })
    }
}

/// A FRU that is present, with what matches it.
#[derive(Drop)]
pub struct Entry {
    /// Where it is.
    pub place: Place,
    /// Its record.
    pub fru: FruRecord,
    /// The patterns that match it.
    pub hits: Hits,
    /// The buses to which moving channels lead from it.
    pub channels: Channels,
}

/// The entries after an event: those before it, with the one that comes or without the one that goes.
#[derive(Drop)]
pub struct Present<'a> {
    /// The entries before the event, by place.
    pub kept: &'a [Entry],
    /// The entry that comes.
    pub plus: Option<&'a Entry>,
    /// The place of the entry that goes.
    pub minus: Option<Place>,
}
