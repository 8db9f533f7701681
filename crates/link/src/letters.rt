// The letters of a text as they stand in a message: for each its number in four bytes, and its site in one.
ghost use Rattle.std.specs.Prelude.{◌≡◌, ◌≤◌, ◌&&◌, ◌==◌, ◌++◌, ◌*◌, ◌-◌, take, if◌then◌else◌, true, length, nat_le, OnOk, option_map};
ghost use Rattle.std.specs.List.{list_all};
ghost use Rattle.text.specs.Texts.{paired, numbers, authors};
ghost use Rattle.link.specs.Letters.{is_number, is_site, are_fit, are_letters, letters_at, letters_in, spelled_letters, can_be_spelled, over};

use crate::blocks::{BLOCK, LANES, spell_block, take_block};
use std::alloc::AllocError;
use std::simd::prelude::*;
use text::document::{HIGHEST_LETTER, RECORD_CAPACITY};

pub const HIGHEST_SITE: u8 = 15;

// How many bytes a letter has in a message.
pub(crate) const LETTER_WIDTH: usize = 5;

// Whether a letter can have that number.
pub fn is_letter(number: u32) -> bool
    ensures { result ≡ is_number number }
{
    1 <= number && number <= HIGHEST_LETTER
}

// Whether the bytes are those of letters and sites that there are, one by one.
fn are_letters_by_one(bytes: &[u8]) -> bool
    ensures { result ≡ are_letters bytes.now }
{
    let (letters, rest) = bytes.as_chunks::<LETTER_WIDTH>();
    let mut is_good = rest.is_empty();
    for [a, b, c, d, site] in letters {
        is_good &= is_letter(u32::from_be_bytes([*a, *b, *c, *d])) & (*site <= HIGHEST_SITE);
    }
    is_good
}

// How many bytes three letters have. A window of 16 bytes has these, and the first byte of the letter behind them.
const TRIPLE_WIDTH: usize = 3 * LETTER_WIDTH;

// The highest that each byte of a window may be: three times the highest number, 0x10FFFF, and the highest site. The last byte may be any.
const HIGHEST_BYTES: [u8; 16] = [
    0, 0x10, 0xFF, 0xFF, 15, 0, 0x10, 0xFF, 0xFF, 15, 0, 0x10, 0xFF, 0xFF, 15, 0xFF,
];

// Where a window has the bytes of its numbers. The last number is taken twice, as a vector has four.
const NUMBER_PLACES: [usize; 16] = [0, 1, 2, 3, 5, 6, 7, 8, 10, 11, 12, 13, 10, 11, 12, 13];

// Whether the letters in the first windows are such as there are. After the loop, the highest byte of each place and the least number are
// tested. A number is at most 0x10FFFF if each of its bytes is at most the one there. It is 0 if it is with its bytes the other way round.
fn are_letters_in_windows(bytes: &[u8], windows: usize) -> bool
    requires { windows * 15 ≤ length bytes.now - 1 }
    ensures { result ≡ are_fit (take (windows * 3) (letters_at bytes.now)) }
{
    let mut highest = u8x16::splat(0);
    let mut least = u32x4::splat(u32::MAX);
    for i in 0..windows {
        let window = u8x16::from_slice(&bytes[TRIPLE_WIDTH * i..]);
        highest = highest.simd_max(window);
        least = least.simd_min(u32x4::from_le_bytes(window.swizzle(NUMBER_PLACES)));
    }
    highest.simd_le(u8x16::from_array(HIGHEST_BYTES)).all() & least.simd_ge(u32x4::splat(1)).all()
}

// Whether the bytes are those of letters and sites that there are: three letters at a time, and the last few one by one.
fn are_whole_letters(bytes: &[u8]) -> bool
    ensures { result ≡ are_letters bytes.now }
{
    let windows = bytes.len().saturating_sub(1) / TRIPLE_WIDTH;
    are_letters_in_windows(bytes, windows) & are_letters_by_one(&bytes[TRIPLE_WIDTH * windows..])
}

// Whether these are all numbers that letters can have. Only the least and the most are tested, once, so that the loop takes many at a time.
fn are_numbers(numbers: &[u32]) -> bool
    ensures { result ≡ list_all is_number numbers.now }
{
    let mut least = u32::MAX;
    let mut most = 0;
    for number in numbers {
        least = least.min(*number);
        most = most.max(*number);
    }
    (1 <= least) & (most <= HIGHEST_LETTER)
}

// Whether these are all sites that there are, by the highest.
fn are_sites(sites: &[u8]) -> bool
    ensures { result ≡ list_all is_site sites.now }
{
    let mut most = 0;
    for site in sites {
        most = most.max(*site);
    }
    most <= HIGHEST_SITE
}

// Whether these are numbers that letters can have and as many sites, and no more than a text has.
#[tactic(auto, using(crate::proofs::Fitness::tested))]
pub(crate) fn are_letters_of_text(letters: &[u32], sites: &[u8]) -> bool
    ensures { result ≡ can_be_spelled letters.now sites.now }
{
    letters.len() == sites.len()
        && letters.len() <= RECORD_CAPACITY
        && are_numbers(letters)
        && are_sites(sites)
}

// The letters' part of a message. It is a part of the message's bytes, and is not copied until it is taken.
#[derive(Clone, Copy)]
pub struct Letters<'a> {
    bytes: &'a [u8],
    ghost fit: { are_letters bytes.now ≡ true },
    ghost few: { length bytes.now ≤ 327680 },
    ghost spelled: { bytes.now ≡ spelled_letters (letters_at bytes.now) },
}

impl<'a> Letters<'a> {
    ghost use Rattle.link.specs.Shown.{letters_of};

    // The bytes as letters, if they are the letters of a text.
    #[tactic(auto, unfolding(crate::specs::Letters::are_letters))]
    pub fn read(bytes: &'a [u8]) -> Option<Letters<'a>>
        ensures { option_map letters_of result ≡ letters_in bytes.now }
    {
        if bytes.len() > RECORD_CAPACITY * LETTER_WIDTH || !are_whole_letters(bytes) {
            return None;
        }
        Some(Letters { bytes })
    }

    // How many letters they are.
    pub fn len(self) -> usize
        ensures { result ≡ length (letters_of self.entry) }
    {
        self.bytes.len() / LETTER_WIDTH
    }

    pub fn is_empty(self) -> bool
        ensures { result ≡ (length (letters_of self.entry) == 0) }
    {
        self.bytes.is_empty()
    }

    // The bytes as they stand in a message.
    pub fn bytes(self) -> &'a [u8]
        ensures { result.now ≡ spelled_letters (letters_of self.entry) }
    {
        self.bytes
    }

    // Writes the letters' numbers and their sites at the front of these, or nothing where there is no room in one of the two, and says so.
    pub fn copy_to(self, letters: &mut [u32], sites: &mut [u8]) -> bool
        ensures answer { result ≡ (nat_le (length (letters_of self.entry)) (length letters.old) && nat_le (length (letters_of self.entry)) (length sites.old)) }
        ensures letters { letters.new ≡ (if result then over (numbers (letters_of self.entry)) letters.old else letters.old) }
        ensures sites { sites.new ≡ (if result then over (authors (letters_of self.entry)) sites.old else sites.old) }
    {
        let count = self.len();
        if count > letters.len() || count > sites.len() {
            return false;
        }
        let (blocks, rest) = self.bytes.as_chunks::<BLOCK>();
        for (i, block) in blocks.iter().enumerate() {
            take_block(block, &mut letters[LANES * i..], &mut sites[LANES * i..]);
        }
        let taken = LANES * blocks.len();
        take_one_by_one(rest, &mut letters[taken..], &mut sites[taken..]);
        true
    }
}

// Writes the letters that the bytes are, their numbers and their sites, at the front of these, one by one.
fn take_one_by_one(bytes: &[u8], letters: &mut [u32], sites: &mut [u8])
    requires letters { length (letters_at bytes.now) ≤ length letters.now }
    requires sites { length (letters_at bytes.now) ≤ length sites.now }
    ensures letters { letters.new ≡ over (numbers (letters_at bytes.now)) letters.old }
    ensures sites { sites.new ≡ over (authors (letters_at bytes.now)) sites.old }
{
    let (chunks, _) = bytes.as_chunks::<LETTER_WIDTH>();
    for (i, [a, b, c, d, site]) in chunks.iter().enumerate() {
        letters[i] = u32::from_be_bytes([*a, *b, *c, *d]);
        sites[i] = *site;
    }
}

// Puts letters with those numbers and sites behind what is there, one by one.
fn put_one_by_one(out: &mut Vec<u8>, letters: &[u32], sites: &[u8]) -> Result<(), AllocError>
    requires { length letters.now ≡ length sites.now }
    ensures { OnOk result (out.new.items ≡ out.old.items ++ spelled_letters (paired letters.now sites.now)) }
{
    for (i, letter) in letters.iter().enumerate() {
        let [a, b, c, d] = letter.to_be_bytes();
        out.extend_from_slice(&[a, b, c, d, sites[i]])?;
    }
    Ok(())
}

// The same of any number of them, in blocks as far as that goes.
pub(crate) fn put_letters(
    out: &mut Vec<u8>,
    letters: &[u32],
    sites: &[u8],
) -> Result<(), AllocError>
    requires { can_be_spelled letters.now sites.now ≡ true }
    ensures { OnOk result (out.new.items ≡ out.old.items ++ spelled_letters (paired letters.now sites.now)) }
{
    let (blocks, rest) = letters.as_chunks::<LANES>();
    let (site_blocks, site_rest) = sites.as_chunks::<LANES>();
    for (i, block) in blocks.iter().enumerate() {
        out.extend_from_slice(&spell_block(block, &site_blocks[i]))?;
    }
    put_one_by_one(out, rest, site_rest)
}
