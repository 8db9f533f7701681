// What is measured: packets are read and written, and nothing of them is handed out.
ghost use Rattle.std.specs.Prelude.{◌≡◌, ◌≢◌, true, length, IfOk};
ghost use Rattle.text.specs.Texts.{paired};
ghost use Rattle.link.specs.declared.datagram.Datagram.{Datagram};
ghost use Rattle.link.specs.Messages.{Message, with_message, Sendable, ByServer};
ghost use Rattle.link.specs.Shown.{from_server};
ghost use Rattle.link.specs.Spelling.{spelling};
ghost use Rattle.measured.specs.Datagrams.{datagram_in, SpellsSoMany};

use crate::datagram_row::DatagramRow;
use crate::line::written;
use link::datagram::Datagram;
use link::message::FromServer;
use link::reading::read_from_server;
use link::refusal::WriteError;
use link::writing::write_from_server;
use std::alloc::Global;

// A datagram of the server is read, and the answer is whether it is one.
#[unsafe(no_mangle)]
pub extern "C" fn measured_is_read(bytes: &[u8]) -> bool
    ensures found { result ≡ true → (d : Datagram Message) × ByServer d × Sendable d × (bytes.now ≡ spelling d) }
    ensures only { (d : Datagram Message) → ByServer d → Sendable d → bytes.now ≡ spelling d → result ≡ true }
{
    read_from_server(bytes).is_ok()
}

// A datagram is written, and the answer is how many bytes it has, and 0 where it is not written.
#[unsafe(no_mangle)]
pub extern "C" fn measured_count(
    alloc: Global,
    row: DatagramRow,
    letters: &[u32],
    sites: &[u8],
) -> usize
    ensures { result ≢ 0 → SpellsSoMany (datagram_in row (paired letters.now sites.now)) result }
{
    match written(alloc, row, letters, sites) {
        Ok(bytes) => bytes.len(),
        Err(_) => 0,
    }
}

// A datagram is written so often. The answer is how many bytes it has, and 0 if that is never.
fn write_often(
    alloc: Global,
    datagram: Datagram<FromServer<'_>>,
    times: u32,
) -> Result<usize, WriteError>
    ensures { IfOk result (λ n. n ≢ 0 → n ≡ length (spelling (with_message from_server datagram.entry))) }
{
    let mut count = 0;
    for _ in 0..times {
        count = write_from_server(alloc, datagram)?.len();
    }
    Ok(count)
}

// A datagram of the server is read once and written so often. The answer is how many bytes it has, and 0 where it is not read or not written.
#[unsafe(no_mangle)]
pub extern "C" fn measured_write_often(alloc: Global, bytes: &[u8], times: u32) -> usize
    ensures { result ≢ 0 → result ≡ length bytes.now }
{
    match read_from_server(bytes) {
        Ok(datagram) => write_often(alloc, datagram, times).unwrap_or(0),
        Err(_) => 0,
    }
}
