// Rows are played, and the text that they come to is written into lent memory.
ghost use Rattle.std.specs.Prelude.{◌≡◌, true, false, IfOk, OnOk, OnErr};
ghost use Rattle.text.specs.Texts.{numbers, authors};
ghost use Rattle.client.specs.Clients.{client_of};
ghost use Rattle.server.specs.Servers.{room_of, state_of, Leaves};
ghost use Rattle.measured.specs.Rows.{run, served, server_text, stepped, client_text, over};

use crate::row::Row;
use client::client::{Client, PENDING_CAPACITY};
use operation::entry::{Entry, Submission};
use server::refusal::Refusal;
use server::server::Server;
use std::alloc::{AllocError, Global};
use text::document::{Document, RECORD_CAPACITY};

// Asked of a server: a client joins.
const JOIN: u8 = 3;

// Asked of a client: it puts a letter in, or takes one away.
const TYPE: u8 = 3;

const STRIKE: u8 = 4;

// Writes as much of the one as the other has room for.
fn copy_part<T: Copy>(from: &[T], to: &mut [T])
    ensures { to.new ≡ over from.now to.old }
{
    let count = from.len().min(to.len());
    to[..count].copy_from_slice(&from[..count]);
}

// Writes as much of the text as there is room for: its letters, and the site of each.
fn copy_text(text: &Document, letters: &mut [u32], sites: &mut [u8])
    ensures letters { letters.new ≡ over (numbers text.now.letters) letters.old }
    ensures sites { sites.new ≡ over (authors text.now.letters) sites.old }
{
    copy_part(text.letters(), letters);
    copy_part(text.sites(), sites);
}

// The server does what the row asks for.
fn serve(server: &mut Server, row: Row) -> Result<(), AllocError>
    ensures { OnOk result (Leaves server.old server.new (served (room_of server.old) row (state_of server.old))) }
{
    if row.kind == JOIN {
        let _ = server.join(row.site);
        return Ok(());
    }
    let submission = Submission {
        revision: row.revision,
        op: row.operation(),
    };
    if server.take(submission) == Err(Refusal::OutOfMemory) {
        return Err(AllocError);
    }
    Ok(())
}

// The same for each row.
fn serve_all(server: &mut Server, rows: &[Row]) -> Result<(), AllocError>
    ensures { OnOk result (Leaves server.old server.new (run (served (room_of server.old)) rows.now (state_of server.old))) }
{
    for row in rows {
        serve(server, *row)?;
    }
    Ok(())
}

// A new server plays the rows.
fn play_server(
    alloc: Global,
    rows: &[Row],
    letters: &mut [u32],
    sites: &mut [u8],
) -> Result<(), AllocError>
    ensures letters { OnOk result (letters.new ≡ over (numbers (server_text rows.now)) letters.old) }
    ensures sites { OnOk result (sites.new ≡ over (authors (server_text rows.now)) sites.old) }
    ensures kept { OnErr result ((letters.new ≡ letters.old) × (sites.new ≡ sites.old)) }
{
    let text = Document::with_capacity(alloc, RECORD_CAPACITY)?;
    let mut server = Server::new(alloc, text)?;
    serve_all(&mut server, rows)?;
    copy_text(server.text(), letters, sites);
    Ok(())
}

// The client does what the row asks for.
fn step(mut client: Client, row: Row) -> Client
    ensures { client_of result ≡ stepped row (client_of client) }
{
    match row.kind {
        TYPE => {
            let _ = client.insert(row.place, row.letter);
            client
        }
        STRIKE => {
            let _ = client.delete(row.place);
            client
        }
        _ => {
            let place = row.revision;
            let op = row.operation();
            match client.see(Entry { place, op }) {
                Ok(client) => client,
                Err((client, _)) => client,
            }
        }
    }
}

// The same for each row.
fn step_all(mut client: Client, rows: &[Row]) -> Client
    ensures { client_of result ≡ run stepped rows.now (client_of client) }
{
    for row in rows {
        client = step(client, *row);
    }
    client
}

// A new client plays the rows.
fn play_client(
    alloc: Global,
    site: u8,
    rows: &[Row],
    letters: &mut [u32],
    sites: &mut [u8],
) -> Result<(), AllocError>
    ensures letters { OnOk result (letters.new ≡ over (numbers (client_text site rows.now)) letters.old) }
    ensures sites { OnOk result (sites.new ≡ over (authors (client_text site rows.now)) sites.old) }
    ensures kept { OnErr result ((letters.new ≡ letters.old) × (sites.new ≡ sites.old)) }
{
    let text = Document::with_capacity(alloc, RECORD_CAPACITY + PENDING_CAPACITY)?;
    let client = step_all(Client::new(alloc, site, 0, text)?, rows);
    copy_text(client.text(), letters, sites);
    Ok(())
}

// A new server does what the rows ask for, and its text is written: the letters, and the site of each. Where memory is wanting the
// answer is false, and nothing is.
#[unsafe(no_mangle)]
pub extern "C" fn measured_server(
    alloc: Global,
    rows: &[Row],
    letters: &mut [u32],
    sites: &mut [u8],
) -> bool
    ensures letters { result ≡ true → letters.new ≡ over (numbers (server_text rows.now)) letters.old }
    ensures sites { result ≡ true → sites.new ≡ over (authors (server_text rows.now)) sites.old }
    ensures kept { result ≡ false → (letters.new ≡ letters.old) × (sites.new ≡ sites.old) }
{
    play_server(alloc, rows, letters, sites).is_ok()
}

// The same of a new client of the site.
#[unsafe(no_mangle)]
pub extern "C" fn measured_client(
    alloc: Global,
    site: u8,
    rows: &[Row],
    letters: &mut [u32],
    sites: &mut [u8],
) -> bool
    ensures letters { result ≡ true → letters.new ≡ over (numbers (client_text site rows.now)) letters.old }
    ensures sites { result ≡ true → sites.new ≡ over (authors (client_text site rows.now)) sites.old }
    ensures kept { result ≡ false → (letters.new ≡ letters.old) × (sites.new ≡ sites.old) }
{
    play_client(alloc, site, rows, letters, sites).is_ok()
}
