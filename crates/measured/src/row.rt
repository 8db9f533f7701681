// What is asked of a server or a client, in numbers.
ghost use Rattle.std.specs.Prelude.{◌≡◌};
ghost use Rattle.measured.specs.Rows.{operation_of};

use operation::operation::Operation;

pub(crate) const INSERT: u8 = 1;

pub(crate) const DELETE: u8 = 2;

#[repr(C)]
#[derive(Clone, Copy)]
pub struct Row {
    pub kind: u8,
    pub site: u8,
    pub revision: u32,
    pub place: u32,
    pub letter: u32,
}

impl Row {
    // The operation that the row has.
    pub(crate) fn operation(self) -> Operation
        ensures { result ≡ operation_of self }
    {
        let Row {
            kind,
            site,
            place,
            letter,
            ..
        } = self;
        match kind {
            INSERT => Operation::Insert {
                site,
                place,
                letter,
            },
            DELETE => Operation::Delete { site, place },
            _ => Operation::Noop { site },
        }
    }
}
