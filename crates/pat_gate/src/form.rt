use crate::plain::Plain;
use crate::shared_engine::SharedEngine;

// What a compiled pattern is made of: a plain pattern, or what searches for another one.
#[derive(Drop)]
pub(crate) enum Form {
    Plain(Plain),
    Regex(SharedEngine),
}
