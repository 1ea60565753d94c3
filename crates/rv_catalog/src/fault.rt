//! Refusals that show a name.
ghost use Rattle.rv_lang.specs.declared.reply.Refusal.{Refusal as Why};
ghost use Rattle.rv_catalog.specs.Answers.{Says};

use crate::def::BindFault;
use rv_lang::Refusal;
use rv_value::{Duplicate, Text};
use std::alloc::Global;

/// The refusal of a name that nothing has. It keeps a copy of the name, for which memory may be wanting.
pub fn unknown(alloc: Global, name: &Text) -> BindFault
    ensures { Says result (Why.Unknown name.now) }
{
    match name.copy(alloc) {
        Ok(name) => BindFault::Refused(Refusal::Unknown(name)),
        Err(_) => BindFault::NoMemory,
    }
}

/// The refusal of a name that is taken. It keeps a copy of the name, for which memory may be wanting.
pub fn exists(alloc: Global, name: &Text) -> BindFault
    ensures { Says result (Why.Exists name.now) }
{
    match name.copy(alloc) {
        Ok(name) => BindFault::Refused(Refusal::Exists(name)),
        Err(_) => BindFault::NoMemory,
    }
}

/// The refusal where a value does not fit the column of a name, or a row has more or fewer values than its table has
/// columns. It keeps a copy of the name, for which memory may be wanting.
pub fn wrong_kind(alloc: Global, name: &str) -> BindFault
    ensures { Says result (Why.Kind name.now) }
{
    match Text::read(alloc, name) {
        Ok(name) => BindFault::Refused(Refusal::Kind(name)),
        Err(_) => BindFault::NoMemory,
    }
}
