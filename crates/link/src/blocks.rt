// Letters are spelled and taken sixteen at a time, by vectors.
ghost use Rattle.std.specs.Prelude.{◌≡◌, ◌≤◌, length};
ghost use Rattle.text.specs.Texts.{paired, numbers, authors};
ghost use Rattle.link.specs.Letters.{spelled_letters, letters_at, over};

use crate::letters::LETTER_WIDTH;
use std::simd::prelude::*;

// How many letters a block has.
pub(crate) const LANES: usize = 16;

// How many bytes a block has in a message.
pub(crate) const BLOCK: usize = LANES * LETTER_WIDTH;

// The sites of a block four times over, which are as many as the bytes of its numbers.
const FOUR_TIMES: [usize; 64] = [
    0, 1, 2, 3, 4, 5, 6, 7, 8, 9, 10, 11, 12, 13, 14, 15, 0, 1, 2, 3, 4, 5, 6, 7, 8, 9, 10, 11, 12,
    13, 14, 15, 0, 1, 2, 3, 4, 5, 6, 7, 8, 9, 10, 11, 12, 13, 14, 15, 0, 1, 2, 3, 4, 5, 6, 7, 8, 9,
    10, 11, 12, 13, 14, 15,
];

// Where the bytes of a block's message are found: below 64 in its numbers, each of which has its low byte first, and from 64 on in its sites.
const FIRST: [usize; 64] = [
    3, 2, 1, 0, 64, 7, 6, 5, 4, 65, 11, 10, 9, 8, 66, 15, 14, 13, 12, 67, 19, 18, 17, 16, 68, 23,
    22, 21, 20, 69, 27, 26, 25, 24, 70, 31, 30, 29, 28, 71, 35, 34, 33, 32, 72, 39, 38, 37, 36, 73,
    43, 42, 41, 40, 74, 47, 46, 45, 44, 75, 51, 50, 49, 48,
];

const LAST: [usize; 16] = [
    76, 55, 54, 53, 52, 77, 59, 58, 57, 56, 78, 63, 62, 61, 60, 79,
];

// A block with those numbers and sites, as it stands in a message.
pub(crate) fn spell_block(letters: &[u32; LANES], sites: &[u8; LANES]) -> [u8; BLOCK]
    ensures { result ≡ spelled_letters (paired letters.now sites.now) }
{
    let numbers = u32x16::from_slice(letters.as_slice()).to_le_bytes();
    let sites = u8x16::from_slice(sites).swizzle(FOUR_TIMES);
    let mut block = [0; BLOCK];
    numbers.shuffle(sites, FIRST).copy_to_slice(&mut block);
    numbers
        .shuffle(sites, LAST)
        .copy_to_slice(&mut block[FIRST.len()..]);
    block
}

// Where the bytes of a block's numbers are found, the low one of each first: below 64 in the first 64 bytes of its message, and from 64
// on in its last 64.
const NUMBERS: [usize; 64] = [
    3, 2, 1, 0, 8, 7, 6, 5, 13, 12, 11, 10, 18, 17, 16, 15, 23, 22, 21, 20, 28, 27, 26, 25, 33, 32,
    31, 30, 38, 37, 36, 35, 43, 42, 41, 40, 48, 47, 46, 45, 53, 52, 51, 50, 58, 57, 56, 55, 63, 62,
    61, 60, 116, 115, 114, 113, 121, 120, 119, 118, 126, 125, 124, 123,
];

// Where its sites are found so.
const SITES: [usize; 16] = [
    4, 9, 14, 19, 24, 29, 34, 39, 44, 49, 54, 59, 112, 117, 122, 127,
];

// Writes the numbers and the sites of a block, as it stands in a message, at the front of these.
pub(crate) fn take_block(block: &[u8; BLOCK], letters: &mut [u32], sites: &mut [u8])
    requires letters { LANES ≤ length letters.now }
    requires sites { LANES ≤ length sites.now }
    ensures letters { letters.new ≡ over (numbers (letters_at block.now)) letters.old }
    ensures sites { sites.new ≡ over (authors (letters_at block.now)) sites.old }
{
    let first = u8x64::from_slice(block.as_slice());
    let last = u8x64::from_slice(&block[BLOCK - NUMBERS.len()..]);
    u32x16::from_le_bytes(first.shuffle(last, NUMBERS)).copy_to_slice(letters);
    first.shuffle(last, SITES).copy_to_slice(sites);
}
