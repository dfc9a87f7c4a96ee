// Soundness of the slots of one side: document 01, "Sound means". Any number of slots.
#![tactic(auto)]

ghost use Rattle.std.specs.Prelude.{◌≡◌, ◌+◌, ◌*◌, ◌<◌, ◌≤◌, true, false, not, length, map};
ghost use Rattle.laws.specs.Tests.{any_of, all_of, pairwise};
ghost use Rattle.machine.specs.Pages.{page_size};
ghost use Rattle.machine.specs.Slots.{slots_of, is_live, size_code};
ghost use Rattle.machine.specs.Insertion.{overlaps};
ghost use Rattle.machine.specs.Sound.{live_sound, empty_sound, slot_sound, side_sound};
ghost use Rattle.tlb.specs.Rows.{row_slot};
ghost use Rattle.tlb.specs.Tables.{spans_of};
ghost use Rattle.tlb_sound.specs.Asked.{LiveSound, SlotsSound, RowsSound};
ghost use Rattle.tlb_sound.specs.Buckets.{largest_code, block_shift, bucket_of};
ghost use Rattle.tlb_sound.specs.Digests.{digest_one, joined, digest_of, fields_fit, plain};

use machine::Slot;
use tlb::Row;

// What the slots of a side have: their owners, pages, words and flags by or, their words by and too.
#[derive(Clone, Copy)]
struct Digest {
    owners: u64,
    pages: u64,
    words: u64,
    common: u64,
    flags: u64,
}

// The digest with one slot more. A page in range is below 2^48 when it is counted from the lowest one, 2^64 - 2^47.
fn gather(d: Digest, x: Slot) -> Digest
    ensures { result ≡ joined d (digest_one x) }
{
    let reach = x.page.wrapping_add(0x8000_0000_0000);
    Digest {
        owners: d.owners | x.owner,
        pages: d.pages | reach,
        words: d.words | x.word,
        common: d.common & x.word,
        flags: d.flags | x.flags,
    }
}

// The digest of all slots, in one pass without branches.
fn digest_of(slots: &[u64]) -> Digest
    ensures { result ≡ digest_of (slots_of slots.now) }
{
    let none = Digest {
        owners: 0,
        pages: 0,
        words: 0,
        common: u64::MAX,
        flags: 0,
    };
    tlb::rows(slots)
        .iter()
        .fold(none, |d, row| gather(d, tlb::slot_in(row)))
}

// Whether no slot has a bit that no sound slot has.
fn fields_fit(d: Digest) -> bool
    ensures { result ≡ fields_fit d }
{
    d.owners < 0x2_0000
        && (d.pages < 0x1_0000_0000_0000
            && (d.pages % 0x2000 == 0 && ((d.words >> 40) % 0x1_0000 == 0 && d.flags < 4)))
}

// Whether every slot is live and virtual and has size code 0: there is nothing more to ask of one whose fields fit.
fn all_plain(d: Digest) -> bool
    ensures { result ≡ plain d }
{
    d.words % 16 == 0 && ((d.owners >> 13) % 2 == 0 && d.common >> 63 == 1)
}

// Whether a live slot whose fields fit is sound: a listed size, at a page start, and context 0 when real.
fn live_sound(x: Slot) -> bool
    requires { (is_live x ≡ true) × (fields_fit (digest_one x) ≡ true) }
    ensures { result ≡ live_sound x }
{
    let mask = pages::page_mask(tlb::size_code(x));
    // an unlisted code has no page, and the real bit stands above the context
    mask != 0 && (x.owner % 0x4000 <= 0x2000 && x.page & mask == 0)
}

fn empty_sound(x: Slot) -> bool
    ensures { result ≡ empty_sound x }
{
    x == Slot::default()
}

// Whether a slot whose fields fit is sound by itself.
fn slot_sound(x: Slot) -> bool
    requires { fields_fit (digest_one x) ≡ true }
    ensures { result ≡ slot_sound x }
{
    if tlb::is_live(x) {
        live_sound(x)
    } else {
        empty_sound(x)
    }
}

// Whether each slot is sound by itself. A side of virtual 8 KB pages is settled by its digest.
fn slots_sound(slots: &[u64], d: Digest) -> bool
    requires { d ≡ digest_of (slots_of slots.now) }
    ensures { result ≡ all_of slot_sound (slots_of slots.now) }
{
    if !fields_fit(d) {
        return false;
    }
    if all_plain(d) {
        return true;
    }
    // in a loop: of `all` what the test asks of each slot was not proved
    for row in tlb::rows(slots) {
        if !slot_sound(tlb::slot_in(row)) {
            return false;
        }
    }
    true
}

// A shift that is at least the page shift of each size code up to this one.
fn block_shift(code: u64) -> u64
    ensures { result ≡ block_shift code }
{
    match code {
        0 => 13,
        1..=2 => 16,
        3..=4 => 22,
        _ => 28,
    }
}

// A number below 1024 that slots have in common if they overlap; the shift is at least that of both pages. The multiplier puts
// partitions 128 buckets apart, and neighbouring contexts about 61.
fn bucket(owner: u64, page: u64, shift: u64) -> usize
    requires { shift < 64 }
    ensures { result ≡ bucket_of shift owner page }
{
    let mixed = owner % 0x2_0000 * 7809 >> 7;
    ((page >> shift ^ mixed) % 1024) as usize
}

// Whether a live x overlaps a slot. Both are sound, and the spans are those of x's page size. A test of its own: that of `tlb::overlaps_none`
// takes up to 15 % more of a soundness test.
fn overlaps_sound(x: Slot, row: &Row, span: &[u64; 16]) -> bool
    requires { LiveSound x × (slot_sound (row_slot row.now) ≡ true) × (span.now ≡ spans_of (page_size (size_code x))) }
    ensures { result ≡ overlaps x (row_slot row.now) }
{
    // page starts lie in a common page where their xor is below the larger page size; an empty slot looks like owner 0, page 0
    tlb::is_near(x, row, span) && tlb::is_compared(row, x.owner)
}

// Whether a live x overlaps none of the later slots. All are sound.
fn clear_of_later(later: &[Row], x: Slot) -> bool
    requires { LiveSound x × RowsSound later.now }
    ensures { result ≡ not (any_of (overlaps x) (map row_slot later.now)) }
{
    let span = tlb::spans(pages::page_size(tlb::size_code(x)));
    tlb::none_passes(later, |row| overlaps_sound(x, row, &span))
}

// The same, where a slot that has its bucket for itself is known to overlap none.
fn shared_overlaps_none(later: &[Row], x: Slot, shared: bool) -> bool
    requires { LiveSound x × RowsSound later.now
        × (shared ≡ false → any_of (overlaps x) (map row_slot later.now) ≡ false) }
    ensures { result ≡ not (any_of (overlaps x) (map row_slot later.now)) }
{
    !shared || clear_of_later(later, x)
}

// Whether no two of the slots, each sound by itself, overlap: from the last slot to the first. No size code is above the one given. A bucket
// that has a slot holds the mark; what else the table holds costs time alone.
fn overlap_free(slots: &[u64], code: u64, seen: &mut [u8], mark: u8) -> bool
    requires { SlotsSound slots.now × (largest_code (slots_of slots.now) ≤ code) × (length seen.old ≡ 1024) }
    ensures { result ≡ pairwise overlaps (slots_of slots.now) }
{
    let most = block_shift(code);
    let rows = tlb::rows(slots);
    // by index: the later slots are those behind it
    for i in (0..rows.len()).rev() {
        let x = tlb::slot_in(&rows[i]);
        if tlb::is_live(x) {
            let b = bucket(x.owner, x.page, most);
            if !shared_overlaps_none(&rows[i + 1..], x, seen[b] == mark) {
                return false;
            }
            seen[b] = mark;
        }
    }
    true
}

// Whether each slot is sound and no two overlap. The table may hold anything; a mark that it does not hold makes this fast.
pub fn side_sound(slots: &[u64], seen: &mut [u8], mark: u8) -> bool
    requires { length seen.old ≡ 1024 }
    ensures { result ≡ side_sound (slots_of slots.now) }
{
    let d = digest_of(slots);
    // where no word has bit 63, no slot is live
    slots_sound(slots, d) && (d.words >> 63 == 0 || overlap_free(slots, d.words % 16, seen, mark))
}
