// A new server, and one that goes on from a history.
ghost use Rattle.std.specs.Prelude.{◌≡◌, ◌<◌, ◌≤◌, IfOk, IfErr, Err, vec_len};
ghost use Rattle.server.specs.Servers.{text_of, state_of, started, resumed};

use crate::refusal::Refusal;
use crate::seating::free_sessions;
use crate::server::Server;
use operation::entry::HISTORY_CAPACITY;
use operation::operation::Operation;
use std::alloc::{AllocError, Global};
use text::document::Document;

impl Server {
    // The text and the history are as they are given, and nobody is connected.
    #[tactic(auto, using(crate::proofs::Seats::all_free))]
    fn vacant(heap: Global, text: Document, history: Vec<Operation>) -> Result<Server, AllocError>
        requires { vec_len history ≤ 4294967294 }
        ensures { IfOk result (λ v. (text_of v ≡ text) × (state_of v ≡ resumed text.letters history.items)) }
    {
        let sessions = free_sessions(heap)?;
        Ok(Server {
            text,
            history,
            sessions,
        })
    }

    // The history is empty and nobody is connected. The text is as it is given.
    pub fn new(heap: Global, text: Document) -> Result<Server, AllocError>
        ensures { IfOk result (λ v. (text_of v ≡ text) × (state_of v ≡ started text.letters)) }
    {
        Server::vacant(heap, text, Vec::new(heap))
    }

    // The text and the history are as they are given, and nobody is connected. A history that is too long is refused.
    pub fn resume(heap: Global, text: Document, history: Vec<Operation>) -> Result<Server, Refusal>
        ensures resumed { IfOk result (λ v. (text_of v ≡ text) × (state_of v ≡ resumed text.letters history.items)) }
        ensures too_long { 4294967294 < vec_len history → result ≡ Err Refusal.Full }
        ensures memory { vec_len history ≤ 4294967294 → IfErr result (λ e. e ≡ Refusal.OutOfMemory) }
    {
        if history.len() > HISTORY_CAPACITY as usize {
            return Err(Refusal::Full);
        }
        Ok(Server::vacant(heap, text, history)?)
    }
}
