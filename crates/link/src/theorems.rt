// The theorems on numbers and connections. Each is the contract of a function that does nothing: without its proof the crate is refused.
ghost use Rattle.link.specs.Deliveries.{Numbered};
ghost use Rattle.link.specs.Lasting.{OutboxKeeps, FeedKeeps, ConnectionsAscend};

// For messages of any type: what is taken is a first part of what was sent, in order, each once, and everything comes across.
fn numbers_hold<M>()
    ensures { Numbered M }
{}

// A message under one number never changes, at a client and at the server.
fn messages_last<M>()
    ensures client { OutboxKeeps M }
    ensures server { FeedKeeps }
{}

// A late copy of an old text is never taken.
fn connections_ascend()
    ensures { ConnectionsAscend }
{}
