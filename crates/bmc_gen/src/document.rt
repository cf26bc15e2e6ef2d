ghost use Rattle.std.specs.Prelude.{◌≡◌, ◌++◌, OnOk, string_bytes};
ghost use Rattle.bmc_gen.specs.Documents.{riser, fan_box, config_text};

use crate::numbered::push_numbered;
use bmc_base::OutOfMemory;

// A configuration that the FRU of the sample finds: a sensor `X` on each.
const RISER: &str = concat!(
    r#"{"Name":"Riser","Probe":"xyz.openbmc_project.FruDevice({'BOARD_PRODUCT_NAME': '^RSR1$'})","#,
    r#""Exposes":[{"Name":"X","Type":"Sensor"}]}"#
);

// A configuration that is always found: a zone with a fan, and two controllers, each with a sensor.
const FAN_BOX: &str = concat!(
    r#"{"Name":"Box","Probe":"TRUE","Exposes":["#,
    r#"{"Name":"T","Type":"Sensor","Timeout":20},"#,
    r#"{"Name":"Tach","Type":"Sensor","ScaleNum":1000},"#,
    r#"{"Name":"Fan 1","Type":"Fan"},"#,
    r#"{"Name":"Z","Type":"Pid.Zone","MinThermalOutput":1000,"FailSafePercent":80},"#,
    r#"{"Name":"TP","Type":"Stepwise","Zones":["Z"],"Inputs":["T"],"#,
    r#""Reading":[20,40],"Output":[2000,4000]},"#,
    r#"{"Name":"FP","Type":"Pid","Class":"fan","Zones":["Z"],"#,
    r#""Inputs":["Tach"],"Outputs":["Fan 1"],"#,
    r#""FFGainCoefficient":"0.01","OutLimitMin":0,"OutLimitMax":100}]}"#
);

// Appends a document as a block, behind the line that asks for it.
#[tactic(auto, using(std::proofs::Common::append_assoc))]
fn push_config(out: &mut String, document: &str) -> Result<(), OutOfMemory>
    ensures { OnOk result (
        string_bytes out.new
        ≡ string_bytes out.old ++ config_text document.now) }
{
    push_numbered(out, "config ", document.len() as u64, "\n")?;
    out.push_str(document)?;
    out.push('\n')?;
    Ok(())
}

// Appends both configurations.
#[tactic(auto, using(std::proofs::Common::append_assoc))]
pub(crate) fn push_configs(out: &mut String) -> Result<(), OutOfMemory>
    ensures { OnOk result (
        string_bytes out.new
        ≡ string_bytes out.old ++ config_text riser ++ config_text fan_box) }
{
    push_config(out, RISER)?;
    push_config(out, FAN_BOX)
}
