//! A law of the definitions, the contract of a function that does nothing.
ghost use Rattle.rv_rivals.specs.Points.{PointRuns};

/// The range of a key holds the entries of the rows that have it.
pub fn point_runs()
    ensures { PointRuns }
{}
