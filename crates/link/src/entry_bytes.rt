// An entry of the history as bytes, without a packet around it: the journal has it so.
ghost use Rattle.std.specs.Prelude.{◌≡◌, IfSome, is_some};
ghost use Rattle.link.specs.Messages.{is_fit_operation};
ghost use Rattle.link.specs.EntryBytes.{entry_bytes, entry_in};

use crate::fields::{self, OperationCode};
use crate::message::operation_can_be_said;
use crate::reading::ENTRY;
use operation::entry::Entry;

// How many bytes it has.
pub const ENTRY_LENGTH: usize = 15;

// The bytes of an entry, if it can be said.
pub fn spell_entry(entry: Entry) -> Option<[u8; ENTRY_LENGTH]>
    ensures fit { is_some result ≡ is_fit_operation entry.op }
    ensures bytes { IfSome result (λ b. b ≡ entry_bytes entry) }
{
    if !operation_can_be_said(entry.op) {
        return None;
    }
    let code = OperationCode::of_operation(entry.op);
    let [a, b, c, d] = entry.place.to_be_bytes();
    let [e, f, g, h] = code.place.to_be_bytes();
    let [i, j, k, l] = code.letter.to_be_bytes();
    Some([
        ENTRY,
        a,
        b,
        c,
        d,
        entry.op.site(),
        code.kind,
        e,
        f,
        g,
        h,
        i,
        j,
        k,
        l,
    ])
}

// The entry that is spelled by just these bytes, if one is.
#[tactic(auto, unfolding(crate::specs::EntryBytes::entry_in))]
pub fn read_entry(bytes: &[u8]) -> Option<Entry>
    ensures { result ≡ entry_in bytes.now }
{
    let (kind, rest) = fields::byte(bytes)?;
    if kind != ENTRY {
        return None;
    }
    let (place, rest) = fields::word(rest)?;
    let (site, rest) = fields::site(rest)?;
    let op = fields::code(rest)?.operation(site)?;
    Some(Entry { place, op })
}
