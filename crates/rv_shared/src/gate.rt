//! Where threads tell how far they are, outside their turns.

/// A place outside the turns.
#[derive(Clone, Copy, PartialEq, Eq)]
pub enum Place {
    /// A worker has taken a piece.
    Cut,
    /// The session of this number has its answer.
    Answered(u8),
}

/// What threads pass at a place. A gate may hold a thread there, which holds up no other's turn.
/// It has to return: a phase ends when all its threads have.
pub trait Gate {
    /// A thread comes to a place, outside its turn; it goes on when this returns.
    fn at(&self, place: Place);
}

/// A gate that lets all threads pass.
#[derive(Drop)]
pub struct OpenGate;

impl Gate for OpenGate {
    fn at(&self, _place: Place) {}
}
