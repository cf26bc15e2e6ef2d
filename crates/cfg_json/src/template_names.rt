ghost use Rattle.std.specs.Prelude.{◌≡◌, map};
ghost use Rattle.serde_json.specs.View.{view};
ghost use Rattle.cfg_json.specs.Controls.{names_in};
ghost use Rattle.cfg_json.specs.Names.{template_name};
ghost use Rattle.cfg_json.specs.Readings.{Gives};
ghost use Rattle.cfg_json.specs.Values.{each};

use crate::values::{check_length, list, text};
use crate::{ConfigFault, Templates};
use serde_json::Value;
use std::alloc::Global;
use tmpl::Template;

// How many bytes a name has at the most before it is rendered.
const LONGEST_NAME: usize = 128;

// How many names a list has at the most.
const MOST_NAMES: usize = 16;

// Reads a name, which is a template.
pub(crate) fn read_name(alloc: Global, value: &Value) -> Result<Template, ConfigFault>
    ensures { Gives result (template_name (view value.now)) }
{
    let name = text(value)?;
    check_length(name.len(), 1, LONGEST_NAME)?;
    Ok(Template::parse(alloc, name)?)
}

// Reads a list of names.
pub(crate) fn read_names(alloc: Global, value: &Value) -> Result<Templates, ConfigFault>
    ensures { Gives result (names_in (view value.now)) }
{
    push_names(alloc, list(value, 1, MOST_NAMES)?)
}

// Reads each element as a name.
fn push_names(alloc: Global, items: &[Value]) -> Result<Templates, ConfigFault>
    ensures { Gives result (each template_name (map view items.now)) }
{
    let mut names = Templates::new(alloc);
    for item in items {
        names.push(alloc, read_name(alloc, item)?)?;
    }
    Ok(names)
}
