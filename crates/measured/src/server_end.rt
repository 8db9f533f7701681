// The server's end of a line, played by what happens at it.
ghost use Rattle.std.specs.Prelude.{◌≡◌, ◌≤◌, true, length, OnOk, IfOk, None};
ghost use Rattle.measured.specs.Ends.{Played};
ghost use Rattle.measured.specs.ServerEnds.{state_of_server, seen_at_server, admission_at_server, Gives, ServerStep};

use crate::datagram_row::DatagramRow;
use crate::event::{ANSWER, END, Event, GIVE, GROW, HEAR, MESSAGE, Outcome, PACKET, TICK, TOOK};
use link::datagram::{Acknowledgement, Packet};
use link::message::FromClient;
use link::server_end::{Said, ServerEnd, Wanted};
use std::alloc::{AllocError, Global};

// Whether a client's packet is taken. If the message is none nothing has come.
fn admit(end: &ServerEnd, connection: u32, number: u32, message: Option<FromClient>) -> Outcome
    ensures { result ≡ admission_at_server connection number message end.now }
{
    let Some(message) = message else {
        return Outcome::answered(0);
    };
    match end.admit(Packet {
        connection,
        number,
        message,
    }) {
        Ok(Wanted::Message) => Outcome::answered(1),
        Ok(Wanted::Connection) => Outcome::answered(2),
        Err(refusal) => Outcome::refused(refusal),
    }
}

// Its connection, and how long the text is that it keeps.
fn state(end: &ServerEnd) -> Outcome
    ensures { result ≡ state_of_server end.now }
{
    let mut datagram = DatagramRow::bare(0, 0, 0);
    if let Some(text) = end.text() {
        datagram.letters = text.len();
    }
    match end.connection() {
        None => Outcome::answered(0),
        Some(connection) => Outcome {
            after: connection,
            ..Outcome::shown(datagram)
        },
    }
}

// What is seen of it.
fn see(end: &ServerEnd, event: Event) -> Outcome
    ensures { result ≡ seen_at_server event end.now }
{
    let DatagramRow {
        connection,
        number,
        ..
    } = event.datagram;
    match event.kind {
        TICK => Outcome::numbered_if_any(end.tick()),
        PACKET => admit(end, connection, number, event.datagram.from_client()),
        MESSAGE => match end.said(number) {
            None => Outcome::answered(0),
            Some(Said::Text) => Outcome::answered(1),
            Some(Said::Entry(place)) => Outcome {
                after: place,
                ..Outcome::answered(2)
            },
        },
        ANSWER => Outcome::shown(DatagramRow::of_acknowledgement(end.answer(connection))),
        _ => state(end),
    }
}

// It gives a connection, with a text of so many bytes.
fn give(alloc: Global, end: &mut ServerEnd, datagram: DatagramRow) -> Result<(), AllocError>
    ensures { OnOk result (Gives datagram end.new) }
{
    let text = Vec::from_elem(alloc, 7u8, datagram.letters)?;
    end.give(datagram.connection, datagram.revision, text);
    Ok(())
}

// What happens to it.
fn step(alloc: Global, end: &mut ServerEnd, event: Event) -> Result<Outcome, AllocError>
    ensures { IfOk result (λ o. ServerStep end.old event o end.new) }
{
    let datagram = event.datagram;
    match event.kind {
        HEAR => Ok(Outcome::numbered_if_any(end.hear(Acknowledgement {
            connection: datagram.connection,
            last: datagram.number,
        }))),
        GIVE => {
            give(alloc, end, datagram)?;
            Ok(Outcome::answered(1))
        }
        TOOK => {
            end.took();
            Ok(Outcome::answered(1))
        }
        GROW => Ok(Outcome::numbered_if_any(end.grow())),
        END => {
            end.end();
            Ok(Outcome::answered(1))
        }
        _ => Ok(see(end, event)),
    }
}

// The outcomes are written at the front.
fn play(alloc: Global, events: &[Event], outcomes: &mut [Outcome]) -> Result<(), AllocError>
    requires { length events.now ≤ length outcomes.old }
    ensures { OnOk result (Played ServerStep None events.now outcomes.old outcomes.new) }
{
    let mut end = ServerEnd::new();
    for (i, event) in events.iter().enumerate() {
        outcomes[i] = step(alloc, &mut end, *event)?;
    }
    Ok(())
}

// What happens at a new end, one after the other, and what comes of each. Where memory is wanting, or room for the outcomes, the answer is false.
#[unsafe(no_mangle)]
pub extern "C" fn measured_server_end(
    alloc: Global,
    events: &[Event],
    outcomes: &mut [Outcome],
) -> bool
    ensures { result ≡ true → Played ServerStep None events.now outcomes.old outcomes.new }
{
    events.len() <= outcomes.len() && play(alloc, events, outcomes).is_ok()
}
