// The numbers of what one end sends in a connection: the first message has number 1, and at most 16 that are not acknowledged are
// under way.
ghost use Rattle.std.specs.Prelude.{◌≡◌, if◌then◌else◌, Some, None};
ghost use Rattle.link.specs.Numbering.{nothing_sent, has_number, pushed, acknowledged_to, newly_sent, under_way};

use std::marker::Model;

// How many messages that are not acknowledged may be under way.
pub const WINDOW: u32 = 16;

// The numbers from `after` + 1 on, so many of them.
#[derive(Clone, Copy, PartialEq, Eq, Debug)]
pub struct Numbers {
    pub after: u32,
    pub count: u32,
}

impl Numbers {
    ghost use Rattle.link.specs.Numbering.{up_to};

    // Those above one number and up to another.
    fn up_to(after: u32, last: u32) -> Numbers
        ensures { result ≡ up_to after last }
    {
        Numbers {
            after,
            count: last.saturating_sub(after),
        }
    }
}

// How many messages there were to send so far, and how many of them are acknowledged.
#[derive(Clone, Copy, PartialEq, Eq, Debug)]
pub(crate) struct Window {
    acknowledged: u32,
    total: u32,
}

impl Model for Window {
    ghost use Rattle.std.specs.Prelude.{◌≤◌};
    ghost use Rattle.link.specs.Numbering.{Sending};

    ghost Value = { Sending };

    ghost view = { λ w. record { acknowledged = w.acknowledged; total = w.total } };

    ghost invariant = { λ w. w.acknowledged ≤ w.total };

    ghost inverse = { λ s. record { acknowledged = s.acknowledged; total = s.total } };
}

impl Window {
    ghost use Rattle.link.specs.Numbering.{last_sent};

    pub(crate) fn new() -> Window
        ensures { result ≡ nothing_sent }
    {
        Window {
            acknowledged: 0,
            total: 0,
        }
    }

    // How many messages are acknowledged.
    pub(crate) fn acknowledged(self) -> u32
        ensures { result ≡ self.acknowledged }
    {
        self.acknowledged
    }

    // How many messages there were to send.
    pub(crate) fn total(self) -> u32
        ensures { result ≡ self.total }
    {
        self.total
    }

    // The last number that was sent.
    fn last_sent(self) -> u32
        ensures { result ≡ last_sent self }
    {
        self.total.min(self.acknowledged.saturating_add(WINDOW))
    }

    // There is one message more. What may go now, or nothing where the numbers are used up.
    pub(crate) fn push(&mut self) -> Option<Numbers>
        ensures answer { result ≡ (if has_number self.old then Some (newly_sent self.old (pushed self.old)) else None) }
        ensures after { self.new ≡ pushed self.old }
    {
        let sent = self.last_sent();
        self.total = self.total.checked_add(1)?;
        Some(Numbers::up_to(sent, self.last_sent()))
    }

    // The other end has taken all up to that number: what may go now. A number that says nothing new, or one that was not sent, is ignored.
    pub(crate) fn acknowledge(&mut self, last: u32) -> Numbers
        ensures answer { result ≡ newly_sent self.old (acknowledged_to last self.old) }
        ensures after { self.new ≡ acknowledged_to last self.old }
    {
        let sent = self.last_sent();
        if self.acknowledged < last && last <= sent {
            self.acknowledged = last;
        }
        Numbers::up_to(sent, self.last_sent())
    }

    // What is sent again at a tick: all that is not acknowledged, as far as it was sent.
    pub(crate) fn under_way(self) -> Numbers
        ensures { result ≡ under_way self }
    {
        Numbers::up_to(self.acknowledged, self.last_sent())
    }
}
