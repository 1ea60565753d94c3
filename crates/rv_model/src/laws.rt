//! Laws of the definitions, each the contract of a function that does nothing.
ghost use Rattle.rv_model.specs.Transcript.{TextTells};

/// A transcript tells the history of plain entries from which it was made, but for the phases.
pub fn text_tells()
    ensures { TextTells }
{}
