// The messages of one end that are not acknowledged, in order. What is sent under a number is the message of that number, each time.
ghost use Rattle.std.specs.Prelude.{◌≡◌, IfOk, OnErr, OnOk};
ghost use Rattle.link.specs.Numbering.{newly_sent, under_way};
ghost use Rattle.link.specs.Outboxes.{empty_outbox, sending_of, sent_now, with_message_more, without_acknowledged, message_under};

use crate::window::{Numbers, Window};
use std::alloc::{AllocError, Global};
use std::collections::VecDeque;
use std::marker::Model;

#[derive(Drop)]
pub(crate) struct Outbox<M: Copy> {
    window: Window,
    waiting: VecDeque<M>,
}

impl<M: Copy> Model for Outbox<M> {
    ghost use Rattle.std.specs.Prelude.{◌≡◌, ◌+◌, length};
    ghost use Rattle.link.specs.Outboxes.{OutboxState};

    ghost Value = { OutboxState M };

    ghost view = { λ o. record { acknowledged = o.window.acknowledged; waiting = o.waiting.items } };

    ghost invariant = { λ o. o.window.total ≡ o.window.acknowledged + length o.waiting.items };
}

impl<M: Copy> Outbox<M> {
    pub(crate) fn new(heap: Global) -> Outbox<M>
        ensures { result ≡ empty_outbox }
    {
        Outbox {
            window: Window::new(),
            waiting: VecDeque::new(heap),
        }
    }

    // Puts a message behind the others: which may go now. Where the numbers are used up, or memory is wanting, nothing changes.
    pub(crate) fn push(&mut self, message: M) -> Result<Option<Numbers>, AllocError>
        ensures answer { IfOk result (λ n. n ≡ sent_now message self.old) }
        ensures ok { OnOk result (self.new ≡ with_message_more message self.old) }
        ensures err { OnErr result (self.new ≡ self.old) }
    {
        let mut window = self.window;
        let Some(numbers) = window.push() else {
            return Ok(None);
        };
        self.waiting.push_back(message)?;
        self.window = window;
        Ok(Some(numbers))
    }

    // The other end has taken all up to that number: which may go now.
    pub(crate) fn acknowledge(&mut self, last: u32) -> Numbers
        ensures answer { result ≡ newly_sent (sending_of self.old) (sending_of self.new) }
        ensures after { self.new ≡ without_acknowledged last self.old }
    {
        let was = self.window.acknowledged();
        let numbers = self.window.acknowledge(last);
        for _ in was..self.window.acknowledged() {
            self.waiting.pop_front();
        }
        numbers
    }

    // What is sent again at a tick.
    pub(crate) fn under_way(&self) -> Numbers
        ensures { result ≡ under_way (sending_of self.now) }
    {
        self.window.under_way()
    }

    // The message of a number, if that is not acknowledged.
    pub(crate) fn message(&self, number: u32) -> Option<M>
        ensures { result ≡ message_under number self.now }
    {
        let place = number
            .checked_sub(self.window.acknowledged())?
            .checked_sub(1)?;
        self.waiting.get(place as usize).copied()
    }
}
