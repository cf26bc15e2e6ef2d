ghost use Rattle.std.specs.Prelude.{◌≡◌, IfOk};
ghost use Rattle.probe_lang.specs.Matches.{member_matches, pattern_text};
ghost use Rattle.probe_lang.specs.Parts.{MakesOne};

use crate::key::Key;
use crate::test::Test;
use crate::{Member, PatternFault};
use bmc_base::{OutOfMemory, Place};
use fru_record::FruRecord;
use pat_gate::PatternMaker;
use std::alloc::Global;
use std::marker::Model;

// A member that is compiled, which contracts see as the member.
#[derive(Drop)]
pub(crate) struct Part {
    key: Key,
    test: Test,
}

impl Model for Part {
    ghost use Rattle.probe_lang.specs.Parts.{key_text, want_of, IsKey};
    ghost use Rattle.probe_lang.specs.declared.pattern_text.Member.{Member};

    ghost Value = { Member };

    ghost view = { λ p. record { key = key_text p.key; want = want_of p.test } };

    ghost invariant = { λ p. IsKey p.key };
}

impl Part {
    // Compiles a member.
    pub(crate) fn make<M: PatternMaker>(
        alloc: Global,
        member: &Member,
        maker: &mut M,
    ) -> Result<Part, PatternFault>
        ensures { MakesOne (λ part. part) (M.seen maker.old) (M.seen maker.new) (pattern_text member.now) member.now result }
    {
        let key = Key::read(alloc, member.key.as_str())?;
        let test = Test::make(alloc, &member.want, maker)?;
        Ok(Part { key, test })
    }

    // Whether the member matches the record at a place. A bus or an address is spelled on the stack.
    pub(crate) fn matches(
        &self,
        alloc: Global,
        place: Place,
        fru: &FruRecord,
    ) -> Result<bool, OutOfMemory>
        ensures { IfOk result (λ b. b ≡ member_matches place fru.now self.now) }
    {
        let test = &self.test;
        match &self.key {
            Key::Bus => test.passes(alloc, itoa::Buffer::new().format(place.bus())),
            Key::Address => test.passes(alloc, itoa::Buffer::new().format(place.address())),
            Key::Field(name) => match fru.field_named(*name) {
                Some(text) => test.passes(alloc, text),
                None => Ok(false),
            },
            Key::Unknown(_) => {
                fru.fields_are_named();
                Ok(false)
            }
        }
    }
}
