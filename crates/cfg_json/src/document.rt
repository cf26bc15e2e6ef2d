ghost use Rattle.cfg_json.specs.Documents.{document_of};
ghost use Rattle.cfg_json.specs.Readings.{GivesDocument};

use crate::ConfigFault;
use serde_json::Value;
use std::alloc::Global;
use std::str;

// Reads the document of bytes.
#[tactic(auto, using(crate::proofs::DocumentsLemmas::of_text, crate::proofs::DocumentsLemmas::of_other), unfolding(crate::specs::Documents::config_of))]
pub(crate) fn read_document(alloc: Global, bytes: &[u8]) -> Result<Value, ConfigFault>
    ensures { GivesDocument result (document_of bytes.now) }
{
    match str::from_utf8(bytes) {
        Ok(text) => match Value::from_str(alloc, text) {
            Ok(document) => Ok(document),
            Err(error) => {
                if error.is_memory() {
                    Err(ConfigFault::OutOfMemory)
                } else {
                    Err(ConfigFault::NotJson)
                }
            }
        },
        Err(_) => Err(ConfigFault::NotJson),
    }
}
