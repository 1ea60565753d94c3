//! The words of limits.
ghost use Rattle.std.specs.Prelude.{◌≡◌};
ghost use Rattle.rv_model.specs.Transcript.{limit_word};

use rv_lang::Which;

/// The word by which a refusal names a limit.
pub fn limit_word(which: Which) -> &'static [u8]
    ensures { result.now ≡ limit_word which }
{
    match which {
        Which::Name => b"name",
        Which::Text => b"text",
        Which::Columns => b"columns",
        Which::Key => b"key",
        Which::List => b"list",
        Which::Atoms => b"atoms",
        Which::Groups => b"groups",
        Which::Joined => b"joined",
        Which::Returned => b"returned",
        Which::Order => b"order",
        Which::Steps => b"steps",
        Which::Tables => b"tables",
        Which::Indexes => b"indexes",
        Which::Cursors => b"cursors",
        Which::Rows => b"rows",
        Which::Pending => b"pending",
    }
}
