ghost use Rattle.std.specs.Prelude.{◌≡◌};
ghost use Rattle.serde_json.specs.View.{view};
ghost use Rattle.cfg_json.specs.Controls.{zone_name, inputs_of, outputs_of, pid_control, stepwise_control};
ghost use Rattle.cfg_json.specs.Readings.{Gives};

use crate::pids::{read_class, read_pid_setting};
use crate::stepwises::read_step_setting;
use crate::template_names::{read_name, read_names};
use crate::values::{list, required, text};
use crate::{ConfigFault, ControlPart, Templates};
use ctl_face::{PidClass, Setting};
use serde_json::Value;
use std::alloc::Global;
use tmpl::Template;

// Reads a PID controller.
pub(crate) fn read_pid(alloc: Global, members: &Value) -> Result<ControlPart, ConfigFault>
    ensures { Gives result (pid_control (view members.now)) }
{
    let class = read_class(text(required(members, "Class")?)?)?;
    let zone = read_zone_name(alloc, members)?;
    let inputs = read_inputs(alloc, members)?;
    let outputs = read_outputs(alloc, class, members)?;
    let setting = Setting::Pid(read_pid_setting(class, members)?);
    Ok(ControlPart {
        setting,
        zone,
        inputs,
        outputs,
    })
}

// Reads a stepwise controller.
pub(crate) fn read_stepwise(alloc: Global, members: &Value) -> Result<ControlPart, ConfigFault>
    ensures { Gives result (stepwise_control (view members.now)) }
{
    let zone = read_zone_name(alloc, members)?;
    let inputs = read_inputs(alloc, members)?;
    let setting = Setting::Stepwise(read_step_setting(members)?);
    Ok(ControlPart {
        setting,
        zone,
        inputs,
        outputs: Templates::new(alloc),
    })
}

// Reads the name of the zone of a controller, which is the one of its list.
fn read_zone_name(alloc: Global, members: &Value) -> Result<Template, ConfigFault>
    ensures { Gives result (zone_name (view members.now)) }
{
    let names = list(required(members, "Zones")?, 1, 1)?;
    read_name(alloc, &names[0])
}

// Reads the names of the inputs of a controller.
fn read_inputs(alloc: Global, members: &Value) -> Result<Templates, ConfigFault>
    ensures { Gives result (inputs_of (view members.now)) }
{
    read_names(alloc, required(members, "Inputs")?)
}

// Reads the names of the outputs of a PID controller of this class: those for fans alone are read.
fn read_outputs(alloc: Global, class: PidClass, members: &Value) -> Result<Templates, ConfigFault>
    ensures { Gives result (outputs_of class (view members.now)) }
{
    match class {
        PidClass::Fan => read_names(alloc, required(members, "Outputs")?),
        PidClass::Temp | PidClass::Margin => Ok(Templates::new(alloc)),
    }
}
