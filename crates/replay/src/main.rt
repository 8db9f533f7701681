// Plays commands on a journal, one line of answer to each line of standard input.
#![tactic(auto)]

mod answer;
mod command;
mod filling;
mod player;

use command::{Command, parse};
use player::Player;
use std::io::{BufRead, BufReader, BufWriter, Write};
use std::process::ExitCode;

// The journal's file, in the folder that the program runs in.
const FILE: &str = "record";

// Plays a command, and prints its answer.
fn play<W: Write>(
    rt: &HostRuntime,
    player: &mut Player,
    command: Command,
    out: &mut W,
) -> anyhow::Result<()> {
    let answer = match command {
        Command::Open => player.open(rt, FILE),
        Command::Append(record) => player.append(record)?,
        Command::Commit => player.commit(),
        Command::Fill { count, every } => player.fill(count, every)?,
        Command::Show => {
            player.show(out)?;
            return Ok(());
        }
    };
    writeln!(out, "{answer}")?;
    Ok(())
}

// Plays all lines. The answer is whether each was a command.
fn run(rt: &HostRuntime) -> anyhow::Result<bool> {
    let heap = rt.alloc();
    let mut player = Player::new();
    let mut out = BufWriter::new(heap, rt.stdout())?;
    let mut good = true;
    let lines = BufReader::new(heap, rt.stdin())?.split(heap, b'\n');
    for (number, line) in (1u64..).zip(lines) {
        let line = line?;
        match parse(heap, line.as_slice())? {
            Some(command) => {
                play(rt, &mut player, command, &mut out)?;
                out.flush()?;
            }
            None => {
                good = false;
                eprintln!(rt; "line {number}: not a command")?;
            }
        }
    }
    Ok(good)
}

fn main(rt: HostRuntime) -> anyhow::Result<ExitCode> {
    let good = run(&rt)?;
    Ok(if good {
        ExitCode::SUCCESS
    } else {
        ExitCode::FAILURE
    })
}
