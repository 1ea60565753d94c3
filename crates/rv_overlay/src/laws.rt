//! Laws of the definitions, each the contract of a function that does nothing.
ghost use Rattle.rv_overlay.specs.Freezing.{IndexFits, TableFits};
ghost use Rattle.rv_overlay.specs.Keeping.{KeepsUp, NothingKept, OthersKeepUp};
ghost use Rattle.rv_overlay.specs.Members.{LaidHas, MembersTell};
ghost use Rattle.rv_overlay.specs.Views.{ViewIs};

/// What stands in the entries of a view, and that it tells their list.
pub fn members_tell()
    ensures tell { MembersTell }
    ensures has { LaidHas }
{}

/// The entries of a view are those of its rows.
pub fn view_is()
    ensures { ViewIs }
{}

/// Lists that are kept up to date with each change are those that the changes make.
pub fn keeps_up()
    ensures none { NothingKept }
    ensures own { KeepsUp }
    ensures others { OthersKeepUp }
{}

/// What is kept of an index and of a table beside a transaction's changes may be laid over the reader at the base.
pub fn frozen_fits()
    ensures index { IndexFits }
    ensures table { TableFits }
{}
