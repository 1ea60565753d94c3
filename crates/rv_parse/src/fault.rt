ghost use Rattle.std.specs.Prelude.{◌≡◌};
ghost use Rattle.rv_parse.specs.declared.fault.ParseFault.TheVariants.{NoMemory};

use std::alloc::{AllocError, AllocFailed};

/// Why tokens gave no statement.
#[derive(Drop, PartialEq, Eq)]
pub enum ParseFault {
    /// The grammar derives none from them.
    Syntax,
    NoMemory,
}

impl From<AllocError> for ParseFault {
    ghost from_gives = { λ _ e. e ≡ NoMemory };

    fn from(_e: AllocError) -> ParseFault {
        ParseFault::NoMemory
    }
}

impl<T: Drop> From<AllocFailed<T>> for ParseFault {
    ghost from_gives = { λ _ e. e ≡ NoMemory };

    fn from(_e: AllocFailed<T>) -> ParseFault {
        ParseFault::NoMemory
    }
}

impl From<rv_value::NoMemory> for ParseFault {
    ghost from_gives = { λ _ e. e ≡ NoMemory };

    fn from(_e: rv_value::NoMemory) -> ParseFault {
        ParseFault::NoMemory
    }
}
