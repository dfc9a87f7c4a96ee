// Entry words (sun4v TTEs): document 01, "Addresses and entry words".
#![tactic(auto)]

ghost use Rattle.std.specs.Prelude.{◌≡◌, true, ◌+◌, ◌*◌, ◌%◌, ◌^◌, ◌≤◌, ◌<◌};
ghost use Rattle.machine.specs.Words.{bits, unpacked, packed, fields, word_sound, word_insertable, frame, physical_by};

use machine::{PhysicalAddress, Reach, Tte};

// So many bits of a word, from the bit given up.
fn bits(word: u64, from: u32, width: u32) -> u64
    requires { (from < 64) × (width < 64) }
    ensures { result ≡ bits from width word }
{
    (word >> from) % (1 << width)
}

// All fields of an entry word. Packed again they are the word. No `From`: neither `Tte` nor `u64` is a type of this crate.
pub fn unpack(word: u64) -> Tte
    ensures fields { result ≡ unpacked word }
    ensures again { packed result ≡ word }
{
    Tte {
        v: bits(word, 63, 1),
        nfo: bits(word, 62, 1),
        soft2: bits(word, 56, 6),
        address: bits(word, 13, 43),
        ie: bits(word, 12, 1),
        e: bits(word, 11, 1),
        cp: bits(word, 10, 1),
        cv: bits(word, 9, 1),
        p: bits(word, 8, 1),
        ep: bits(word, 7, 1),
        w: bits(word, 6, 1),
        soft: bits(word, 4, 2),
        size: size_code(word),
    }
}

// So many bits of a field, from the bit given up.
fn placed(field: u64, from: u32, width: u32) -> u64
    requires { (from + width ≤ 64) × (from < 64) × (width < 64) }
    ensures { result ≡ field % 2 ^ width * 2 ^ from }
{
    (field % (1 << width)) << from
}

// The entry word of the fields. Where each fits its width, unpacked again they are the fields.
pub fn pack(t: Tte) -> u64
    ensures word { result ≡ packed t }
    ensures again { fields t ≡ true → unpacked result ≡ t }
{
    placed(t.v, 63, 1)
        | placed(t.nfo, 62, 1)
        | placed(t.soft2, 56, 6)
        | placed(t.address, 13, 43)
        | placed(t.ie, 12, 1)
        | placed(t.e, 11, 1)
        | placed(t.cp, 10, 1)
        | placed(t.cv, 9, 1)
        | placed(t.p, 8, 1)
        | placed(t.ep, 7, 1)
        | placed(t.w, 6, 1)
        | placed(t.soft, 4, 2)
        | placed(t.size, 0, 4)
}

// Bits 3:0 of a word.
fn size_code(word: u64) -> u64
    ensures { result ≡ word % 2 ^ 4 }
{
    word % 16
}

// A word that a live entry may have (number 12): v set, a size code that has a page, an address below 2^40.
#[tactic(auto, unfolding(machine::specs::Words::word_sound))]
fn word_sound(word: u64) -> bool
    ensures { result ≡ word_sound word }
{
    word >> 63 == 1 && (pages::code_listed(size_code(word)) && bits(word, 40, 16) == 0)
}

// A word that an insertion takes.
pub fn word_insertable(word: u64) -> bool
    ensures insertable { result ≡ word_insertable word }
    ensures sound { result ≡ true → word_sound word ≡ true }
{
    word_sound(word)
}

// Where a word's page starts in physical memory.
fn page_frame(word: u64) -> PhysicalAddress
    ensures { result ≡ frame word }
{
    PhysicalAddress(pages::page_start(size_code(word), bits(word, 13, 43) << 13))
}

// The physical address at the offset of a match, which lies in the word's page.
pub fn physical_address(word: u64, reach: Reach) -> PhysicalAddress
    requires { reach.offset < 2 ^ 28 }
    ensures { result ≡ physical_by word reach }
{
    let start = page_frame(word);
    PhysicalAddress(start.0 + reach.offset)
}
