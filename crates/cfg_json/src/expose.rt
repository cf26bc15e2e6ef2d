ghost use Rattle.std.specs.Prelude.{◌≡◌, ◌∷◌, ◌++◌, [], IfOk, OnOk, OnErr};

use crate::{Boxed, Shared};
use bmc_base::{Bytes, Milli, Name, OutOfMemory};
use ctl_face::Setting;
use sensor_core::SensorSetting;
use std::alloc::Global;
use std::marker::Model;
use tmpl::Template;

/// What a configuration exposes at each of its boards.
#[derive(Drop)]
pub struct Expose {
    /// Its name, which is rendered for each board.
    pub name: Template,
    /// Its type, such as `Mux`.
    pub kind: Name,
    /// What its type asks for.
    pub body: Body,
}

/// What an expose has by its type. It is small: what is large stands in memory of its own.
#[derive(Drop)]
pub enum Body {
    /// A sensor (type `Sensor`).
    Sensor(SensorPart),
    /// A fan (type `Fan`).
    Fan,
    /// A zone of fans (type `Pid.Zone`).
    Zone(ZoneSetting),
    /// A controller (type `Pid` or `Stepwise`).
    Control(Boxed<ControlPart>),
    /// A multiplexer (type `Mux`).
    Mux(MuxPart),
    /// An expose of any other type, of which nothing else is read.
    Passive,
}

/// A sensor. Its bus and its address are rendered for the place, the record and the index of a board: each is a fixed
/// number, of which the template has the decimal digits, or one substitution.
#[derive(Drop)]
pub struct SensorPart {
    /// What gives the bus at which it is, 0 to 255, if that is given.
    pub bus: Option<Boxed<Template>>,
    /// What gives the address at which it is, 0 to 127, if that is given.
    pub address: Option<Boxed<Template>>,
    /// How its values come of raw numbers, when they are too old, and its limits. All sensors of the expose share it.
    pub setting: Shared<SensorSetting>,
}

/// The setting of a zone. Both numbers are thousandths.
#[derive(Clone, Copy, Debug, PartialEq, Eq)]
pub struct ZoneSetting {
    /// The least setpoint of the zone, up to a million units to either side of 0.
    pub min_thermal: Milli,
    /// The duty that its fans get in failsafe at the least, 0 to 100 percent.
    pub failsafe: Milli,
}

/// A controller. Its names are rendered for each board.
#[derive(Drop)]
pub struct ControlPart {
    /// What it computes.
    pub setting: Setting,
    /// The name of the zone that it is in.
    pub zone: Template,
    /// The names of the sensors that it reads, 1 to 16.
    pub inputs: Templates,
    /// The names of the fans that it drives, 1 to 16 for class fan and none for others.
    pub outputs: Templates,
}

/// A multiplexer, which leads to further buses. It has 1 to 16 channels.
#[derive(Drop)]
pub struct MuxPart {
    /// The buses to which its fixed channels lead.
    pub fixed: Bytes,
    /// What gives the buses to which its other channels lead: each is one substitution, rendered for the place and
    /// the record of a FRU.
    pub moving: Templates,
}

/// Templates, in the order of the document.
#[derive(Drop)]
pub struct Templates {
    templates: Vec<Template>,
}

impl Model for Templates {
    ghost use Rattle.std.specs.Prelude.{List, ℕ};

    ghost Value = { List (List ℕ) };

    ghost view = { λ t. t.templates.items };
}

impl Templates {
    /// Returns a list of no templates.
    pub fn new(alloc: Global) -> Templates
        ensures { result ≡ [] }
    {
        Templates {
            templates: Vec::new(alloc),
        }
    }

    /// Appends a template, or changes nothing for want of memory.
    pub fn push(&mut self, alloc: Global, item: Template) -> Result<(), OutOfMemory>
        ensures ok { OnOk result (self.new ≡ self.old ++ item ∷ []) }
        ensures err { OnErr result (self.new ≡ self.old) }
    {
        let _ = alloc;
        self.templates.push(item)?;
        Ok(())
    }

    /// Borrows the templates.
    pub fn as_slice(&self) -> &[Template]
        ensures { result.now ≡ self.now }
    {
        &self.templates
    }
}

/// Exposes, in the order of the document.
#[derive(Drop)]
pub struct Exposes {
    exposes: Vec<Expose>,
}

impl Model for Exposes {
    ghost use Rattle.std.specs.Prelude.{List};
    ghost use Rattle.cfg_json.specs.declared.expose.Expose.{Expose};

    ghost Value = { List Expose };

    ghost view = { λ e. e.exposes.items };
}

impl Exposes {
    /// Returns a list of no exposes, with room for one.
    pub fn new(alloc: Global) -> Result<Exposes, OutOfMemory>
        ensures { IfOk result (λ exposes. exposes ≡ []) }
    {
        let exposes = Vec::with_capacity(alloc, 1)?;
        Ok(Exposes { exposes })
    }

    /// Appends an expose, or changes nothing for want of memory.
    pub fn push(&mut self, alloc: Global, item: Expose) -> Result<(), OutOfMemory>
        ensures ok { OnOk result (self.new ≡ self.old ++ item ∷ []) }
        ensures err { OnErr result (self.new ≡ self.old) }
    {
        let _ = alloc;
        self.exposes.push(item)?;
        Ok(())
    }

    /// Borrows the exposes.
    pub fn as_slice(&self) -> &[Expose]
        ensures { result.now ≡ self.now }
    {
        &self.exposes
    }
}
