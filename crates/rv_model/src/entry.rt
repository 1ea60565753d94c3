use rv_lang::Reply;
use rv_value::Text;

/// An entry of a history: a session's call in a phase, with its text as given, and the reply to it.
#[derive(Drop, PartialEq, Eq)]
pub struct Entry {
    pub session: u8,
    pub phase: u32,
    pub text: Text,
    pub reply: Reply,
}
