// A client's end of its line, played by what happens at it.
ghost use Rattle.std.specs.Prelude.{◌≡◌, ◌≤◌, true, length, OnOk, IfOk};
ghost use Rattle.link.specs.Connections.{asking_above};
ghost use Rattle.measured.specs.ClientEnds.{seen_at_client, after_sending_if_any, sending_outcome, heard_outcome, ClientStep};
ghost use Rattle.measured.specs.Ends.{Played};

use crate::datagram_row::{DatagramRow, TEXT};
use crate::event::{ANSWER, BEGIN, Event, HEAR, MESSAGE, Outcome, PACKET, SAW, SEND, TICK};
use link::client_end::{Again, ClientEnd, Heard};
use link::datagram::{Acknowledgement, Datagram};
use link::message::FromClient;
use std::alloc::{AllocError, Global};

// What is seen of it.
fn see(end: &ClientEnd, event: Event) -> Outcome
    ensures { result ≡ seen_at_client event end.now }
{
    let DatagramRow {
        kind,
        connection,
        number,
        ..
    } = event.datagram;
    match event.kind {
        TICK => match end.tick() {
            Again::Ask => Outcome::answered(2),
            Again::Messages(numbers) => Outcome::numbered(1, numbers),
        },
        PACKET => {
            let admitted = if kind == TEXT {
                end.admit_text(connection, number)
            } else {
                end.admit_entry(connection, number)
            };
            match admitted {
                Ok(()) => Outcome::answered(1),
                Err(refusal) => Outcome::refused(refusal),
            }
        }
        MESSAGE => match end.packet(number) {
            None => Outcome::answered(0),
            Some(packet) => Outcome::shown(DatagramRow::of_client(Datagram::Packet(packet))),
        },
        ANSWER => match end.answer() {
            None => Outcome::answered(0),
            Some(acknowledgement) => Outcome::shown(DatagramRow::of_acknowledgement(
                acknowledgement,
            )),
        },
        _ => Outcome {
            after: end.highest(),
            count: u32::from(end.is_asking()),
            ..Outcome::answered(1)
        },
    }
}

fn heard(heard: Heard) -> Outcome
    ensures { result ≡ heard_outcome heard }
{
    match heard {
        Heard::Nothing => Outcome::answered(0),
        Heard::MaySend(numbers) => Outcome::numbered(1, numbers),
        Heard::Ended => Outcome::answered(2),
    }
}

// It has a message to send, or none.
fn send(end: &mut ClientEnd, message: Option<FromClient>) -> Result<Outcome, AllocError>
    ensures after { OnOk result (end.new ≡ after_sending_if_any message end.old) }
    ensures outcome { IfOk result (λ o. o ≡ sending_outcome message end.old) }
{
    match message {
        None => Ok(Outcome::answered(0)),
        Some(message) => Ok(Outcome::numbered_if_any(end.send(message)?)),
    }
}

// What happens to it.
fn step(alloc: Global, end: &mut ClientEnd, event: Event) -> Result<Outcome, AllocError>
    ensures { IfOk result (λ o. ClientStep end.old event o end.new) }
{
    let datagram = event.datagram;
    match event.kind {
        HEAR => Ok(heard(end.hear(Acknowledgement {
            connection: datagram.connection,
            last: datagram.number,
        }))),
        BEGIN => {
            end.begin(alloc, datagram.connection);
            Ok(Outcome::answered(1))
        }
        SAW => {
            end.saw_entry();
            Ok(Outcome::answered(1))
        }
        SEND => send(end, datagram.from_client()),
        _ => Ok(see(end, event)),
    }
}

// The outcomes are written at the front.
fn play(
    alloc: Global,
    highest: u32,
    events: &[Event],
    outcomes: &mut [Outcome],
) -> Result<(), AllocError>
    requires { length events.now ≤ length outcomes.old }
    ensures { OnOk result (Played ClientStep (asking_above highest) events.now outcomes.old outcomes.new) }
{
    let mut end = ClientEnd::new(highest);
    for (i, event) in events.iter().enumerate() {
        outcomes[i] = step(alloc, &mut end, *event)?;
    }
    Ok(())
}

// What happens at a new client's end, one after the other, and what comes of each. Where memory is wanting, or room for the outcomes, the
// answer is false.
#[unsafe(no_mangle)]
pub extern "C" fn measured_client_end(
    alloc: Global,
    highest: u32,
    events: &[Event],
    outcomes: &mut [Outcome],
) -> bool
    ensures { result ≡ true → Played ClientStep (asking_above highest) events.now outcomes.old outcomes.new }
{
    events.len() <= outcomes.len() && play(alloc, highest, events, outcomes).is_ok()
}
