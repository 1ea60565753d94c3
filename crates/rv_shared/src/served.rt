//! What threads do with a core in their turns.
ghost use Rattle.std.specs.Prelude.{◌≡◌, ℕ, ◌≤◌, List, Option, Result, IfOk, OnErr, length};
ghost use Rattle.rv_value.specs.declared.duplicate.NoMemory.{NoMemory};
ghost use Rattle.rv_lang.specs.declared.reply.Reply.{Reply};
ghost use Rattle.rv_jscan.specs.declared.jscan.Given.{Given};
ghost use Rattle.rv_jscan.specs.declared.jscan.Taken.{Taken};
ghost use Rattle.rv_jscan.specs.Pieces.{Pieced};
ghost use Rattle.rv_model.specs.History.{IsLegal, after};
ghost use Rattle.rv_shared.specs.Served.{Answers, AnswersPart, Shown};

use rv_jscan::{Given, Sieved, Taken};
use rv_lang::Reply;
use rv_model::Entry;
use rv_value::NoMemory;

/// A core that can be shared: a database with the history of its calls, which is legal. An implementation says of
/// itself what each of its methods does to it, and of these events `Shared` makes a chain.
pub trait Served {
    /// Its history, and the phase of the next call.
    ghost shown: { Self → Shown };

    /// What a call of a session comes to, and the core that it leaves.
    ghost calls: { Self → ℕ → List ℕ → Result Reply NoMemory → Self → Type 0 };

    /// What one turn's part of a call comes to, and the core that it leaves.
    ghost parts: { Self → ℕ → List ℕ → Result (Option Reply) NoMemory → Self → Type 0 };

    /// What a take of the next awaited piece after that of the cursor of a number comes to, and the core that it leaves.
    ghost takes: { Self → ℕ → Result Taken NoMemory → Self → Type 0 };

    /// What a give of a piece comes to, and the core that it leaves.
    ghost gives: { Self → Pieced → Result Given NoMemory → Self → Type 0 };

    /// The core that a sweep leaves.
    ghost sweeps: { Self → Self → Type 0 };

    /// The entries of the calls that were answered, in order.
    fn history(&self) -> &[Entry]
        ensures entries { result.now ≡ (shown self.now).history }
        ensures legal { IsLegal (shown self.now).history };

    /// How many cursors are open.
    fn open_cursors(&self) -> u32
        ensures { result ≡ length (after (shown self.now).history).cursors };

    /// Makes a session's call: the reply is given and written to the history with the text.
    fn call(&mut self, session: u8, text: &str) -> Result<Reply, NoMemory>
        requires from { 1 ≤ session }
        requires to { session ≤ 8 }
        requires short { length text.now ≤ 4096 }
        ensures called { calls self.old session text.now result self.new }
        ensures ok { IfOk result (λ reply. Answers (shown self.old) (shown self.new) session text.now reply) }
        ensures err { OnErr result (shown self.new ≡ shown self.old) }
        ensures legal { IsLegal (shown self.new).history };

    /// One turn's part of a session's call: its reply, or None where a FETCH works on.
    fn call_step(&mut self, session: u8, text: &str) -> Result<Option<Reply>, NoMemory>
        requires from { 1 ≤ session }
        requires to { session ≤ 8 }
        requires short { length text.now ≤ 4096 }
        ensures called { parts self.old session text.now result self.new }
        ensures ok { IfOk result (λ part. AnswersPart (shown self.old) (shown self.new) session text.now part) }
        ensures err { OnErr result (shown self.new ≡ shown self.old) }
        ensures legal { IsLegal (shown self.new).history };

    /// An awaited piece of an open cursor, the next after that of the cursor of the number `after`.
    fn take_piece(&mut self, after: u64) -> Result<Taken, NoMemory>
        requires legal { IsLegal (shown self.old).history }
        ensures taken { takes self.old after result self.new }
        ensures same { shown self.new ≡ shown self.old };

    /// Gives a sieved piece to the open cursor from which it was taken.
    fn give_piece(&mut self, sieved: Sieved) -> Result<Given, NoMemory>
        requires legal { IsLegal (shown self.old).history }
        ensures given { gives self.old sieved result self.new }
        ensures same { shown self.new ≡ shown self.old };

    /// Takes away, a part at a time, what no transaction needs of the store.
    fn sweep_step(&mut self)
        requires legal { IsLegal (shown self.old).history }
        ensures swept { sweeps self.old self.new }
        ensures same { shown self.new ≡ shown self.old };
}
