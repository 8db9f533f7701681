// Plays a script from standard input with one server and up to four writers, and prints what the script asks for.
#![tactic(auto)]

ghost use Rattle.std.specs.Prelude.{◌≡◌};
ghost use Rattle.script.specs.Commands.{command_of};
ghost use Rattle.rehearse.specs.Asked.{asked};

use room::action::Action;
use room::command::Command as RoomCommand;
use room::edit::Edit;
use room::event::Event;
use room::room::{PEERS, Room};
use script::command::{Command, Fault, WRITERS};
use script::parse::parse;
use script::show::show;
use std::alloc::Global;
use std::io::{BufRead, BufReader, BufWriter, Write};
use std::process::ExitCode;

// Each writer that a script can name is a peer.
const _: () = prove!(WRITERS == PEERS);

// The command on a line. Kept out of `run`: beside all that is used there, a loop over a line's bytes has its counter
// in memory.
#[inline(never)]
fn parse_line(line: &[u8]) -> Result<Option<Command>, Fault>
    ensures { result ≡ command_of line.now }
{
    parse(line)
}

// What a command asks of the room; showing asks nothing. Both commands are types of other crates, so this is no `From`.
fn asked_of_room(command: Command) -> Option<RoomCommand>
    ensures { result ≡ asked command }
{
    let (writer, action) = match command {
        Command::Type {
            writer,
            place,
            letter,
        } => (writer, Action::Edit(Edit::Insert { place, letter })),
        Command::Strike { writer, place } => (writer, Action::Edit(Edit::Delete { place })),
        Command::Take { writer } => (writer, Action::Take),
        Command::See { writer } => (writer, Action::See),
        Command::New { writer } => (writer, Action::Join),
        Command::Stop => return Some(RoomCommand::Crash),
        Command::Settle => return Some(RoomCommand::Settle),
        Command::Show => return None,
    };
    Some(RoomCommand::Ask {
        peer: writer,
        action,
    })
}

// The server's text, and that of each writer that has joined.
fn print_texts<W: Write>(heap: Global, room: &Room, out: &mut W) -> anyhow::Result<()> {
    let shown = show(heap, room.letters())?;
    writeln!(out, "desk: {shown}")?;
    for writer in 0..PEERS {
        if room.has_joined(writer) {
            let shown = show(heap, room.letters_of(writer))?;
            writeln!(out, "{writer}: {shown}")?;
        }
    }
    Ok(())
}

fn print_events<W: Write>(events: &[Event], out: &mut W) -> anyhow::Result<()> {
    for event in events {
        writeln!(out, "{event}")?;
    }
    Ok(())
}

// Plays all lines. The answer is whether each was a command.
fn run(rt: &HostRuntime) -> anyhow::Result<bool> {
    let heap = rt.alloc();
    let mut room = Room::new(heap)?;
    let mut out = BufWriter::new(heap, rt.stdout())?;
    let mut good = true;
    let lines = BufReader::new(heap, rt.stdin())?.split(heap, b'\n');
    // Counted from 0, so that the lines end before the numbers do: what the reader says of its end is not left out.
    for (before, line) in (0u64..).zip(lines) {
        let line = line?;
        match parse_line(line.as_slice()) {
            Ok(None) => {}
            Ok(Some(command)) => match asked_of_room(command) {
                Some(asked) => {
                    room.play(asked)?;
                    print_events(room.events(), &mut out)?;
                    room.clear_events();
                }
                None => print_texts(heap, &room, &mut out)?,
            },
            Err(fault) => {
                good = false;
                let number = before.saturating_add(1);
                eprintln!(rt; "line {number}: {fault}")?;
            }
        }
    }
    out.flush()?;
    Ok(good)
}

fn main(rt: HostRuntime) -> anyhow::Result<ExitCode> {
    let good = run(&rt)?;
    Ok(if good {
        ExitCode::SUCCESS
    } else {
        ExitCode::FAILURE
    })
}
