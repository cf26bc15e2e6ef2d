ghost use Rattle.std.specs.Prelude.{◌≡◌, OnOk};
ghost use Rattle.bmc_base.specs.Calls.{HasCause};
ghost use Rattle.bmc_io.specs.Told.{added};
ghost use Rattle.bmc_io.specs.Sinks.{AppendsFront};

use crate::{IoFault, Sink};

/// Writes all the bytes, or a front of them where a write fails. After a fault the sink is not called again.
#[tactic(auto, using(crate::proofs::Fronts::front_stopped, crate::proofs::Fronts::take_further))]
pub fn put_all<K: Sink>(sink: &mut K, bytes: &[u8]) -> Result<(), IoFault>
    ensures all { OnOk result ((K.seen sink.new).taken ≡ added (K.seen sink.old).taken bytes.now) }
    ensures front { AppendsFront (K.seen sink.old).taken (K.seen sink.new).taken bytes.now }
    ensures cause { HasCause (K.seen sink.old).calls (K.seen sink.new).calls result }
{
    let mut done = 0;
    while done < bytes.len() {
        done += sink.write(&bytes[done..])?;
    }
    Ok(())
}
