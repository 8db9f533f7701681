// The sum at the end of a packet.
ghost use Rattle.std.specs.Prelude.{◌≡◌, ◌≤◌, ◌%◌, length, sum};

// How many bytes are added up at a time: so few that their sum fits 16 bits. It is faster so.
const BLOCK: usize = 64;

// The sum of so few bytes, all of it.
#[inline(always)]
fn block_sum(bytes: &[u8]) -> u16
    requires { length bytes.now ≤ BLOCK }
    ensures { result ≡ sum bytes.now }
{
    let mut sum = 0u16;
    for byte in bytes {
        sum += u16::from(*byte);
    }
    sum
}

// The sum of all bytes, cut to 16 bits on purpose.
pub(crate) fn checksum(bytes: &[u8]) -> u16
    ensures { result ≡ sum bytes.now % 65536 }
{
    let (blocks, rest) = bytes.as_chunks::<BLOCK>();
    let mut sum = 0u16;
    for block in blocks {
        sum = sum.wrapping_add(block_sum(block));
    }
    sum.wrapping_add(block_sum(rest))
}
