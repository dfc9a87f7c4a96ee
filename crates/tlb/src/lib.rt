// The slots of one side of a TLB as lent words, four a slot, any number of them: read, store, search, used bits, overlap.
#![tactic(auto)]

ghost use Rattle.std.specs.Prelude.{◌≡◌, true, not, ◌+◌, ◌*◌, ◌<◌, ◌≤◌, ◌%◌, ◌^◌, ℕ, Bool, nat_lt, bit_xor, length, get_or, map, drop, All};
ghost use Rattle.laws.specs.Tests.{any_of};
ghost use Rattle.machine.specs.Pages.{page_size};
ghost use Rattle.machine.specs.Slots.{slots_of, words_of, slot_of, with_slot, on_slot, owner_word, key_owner, key_address, KeyFits};
ghost use Rattle.machine.specs.Slots.{agrees, answers_to, searched, with_used, clear_used};
ghost use Rattle.machine.specs.Slots.{is_live, size_code, partition_of, is_real, context_of, is_locked, is_used, holds, within, page_match};
ghost use Rattle.machine.specs.Insertion.{overlaps};
ghost use Rattle.machine.specs.Sound.{slot_sound, side_sound};
ghost use Rattle.machine.specs.declared.Slot.{Slot};
ghost use Rattle.tlb.specs.Rows.{row_slot, TakesRow, AsksSlot, OfEachSize};
ghost use Rattle.tlb.specs.Tables.{by_code, starts_of, spans_of, compared_by, starts_by, searched_by, searched_from};

use machine::{Key, Reach, Searched, Slot};

// The words of one slot: owner, page, word, flags. Tests read them in place: of a `Slot` by value the worst soundness test takes 22 % more.
pub type Row = [u64; machine::SLOT_WORDS];

// The slots one by one. Fewer than four words at the end are no slot.
pub fn rows(slots: &[u64]) -> &[Row]
    ensures { map row_slot result.now ≡ slots_of slots.now }
{
    slots.as_chunks().0
}

// The slot that a row holds.
pub fn slot_in(row: &Row) -> Slot
    ensures { result ≡ row_slot row.now }
{
    let [owner, page, word, flags] = *row;
    Slot {
        owner,
        page,
        word,
        flags,
    }
}

// Slot i, its words as they are.
pub fn slot_at(slots: &[u64], i: usize) -> Slot
    requires { i * 4 + 4 ≤ length slots.now }
    ensures { result ≡ slot_of slots.now i }
{
    slot_in(&rows(slots)[i])
}

pub fn store_slot(slots: &mut [u64], i: usize, x: Slot)
    requires { i * 4 + 4 ≤ length slots.old }
    ensures { slots.new ≡ with_slot slots.old i x }
{
    let k = i * machine::SLOT_WORDS;
    slots[k..k + 4].copy_from_slice(&[x.owner, x.page, x.word, x.flags]);
}

// What stands in a slot, each by the definition's name. It is live by bit 63 of the word.
pub fn is_live(x: Slot) -> bool
    ensures { result ≡ is_live x }
{
    x.word >> 63 == 1
}

pub fn size_code(x: Slot) -> u64
    ensures { result ≡ size_code x }
{
    x.word % 16
}

pub fn partition_of(x: Slot) -> u64
    ensures { result ≡ partition_of x }
{
    x.owner >> 14
}

pub fn is_real(x: Slot) -> bool
    ensures { result ≡ is_real x }
{
    (x.owner >> 13) % 2 == 1
}

pub fn context_of(x: Slot) -> u64
    ensures { result ≡ context_of x }
{
    x.owner % 0x2000
}

pub fn is_locked(x: Slot) -> bool
    ensures { result ≡ is_locked x }
{
    x.flags % 2 == 1
}

pub fn is_used(x: Slot) -> bool
    ensures { result ≡ is_used x }
{
    (x.flags >> 1) % 2 == 1
}

// Whether the slot's page holds the address.
pub fn holds(x: Slot, address: u64) -> bool
    ensures { result ≡ holds x address }
{
    pages::page_start(size_code(x), address) == x.page
}

// What the match yields of an address that the slot's page holds. The page's start is at hand, so nothing is rounded again.
pub fn reach_of(x: Slot, address: u64) -> Reach
    requires { holds x address ≡ true }
    ensures matched { page_match x address ≡ within result }
    ensures small { result.offset < 2 ^ 28 }
{
    Reach {
        code: size_code(x),
        offset: address - x.page,
    }
}

// Partition, real bit and context as a slot holds them.
pub fn owner_word(partition: u64, real: bool, context: u64) -> u64
    ensures { result ≡ owner_word partition real context }
{
    let owner = partition % 8 * 0x4000 + context % 0x2000;
    if real {
        return owner + 0x2000;
    }
    owner
}

pub fn key_owner(key: Key) -> u64
    ensures { result ≡ key_owner key }
{
    match key {
        Key::Virtual {
            partition,
            context,
            address: _,
        } => owner_word(partition, false, context),
        Key::Real {
            partition,
            address: _,
        } => owner_word(partition, true, 0),
    }
}

// The only place where a virtual and a real address become the same kind of number: a slot's page is one or the other by its owner.
pub fn key_address(key: Key) -> u64
    ensures { result ≡ key_address key }
{
    match key {
        Key::Virtual {
            partition: _,
            context: _,
            address,
        } => address.0,
        Key::Real {
            partition: _,
            address,
        } => address.0,
    }
}

// Whether a slot agrees with a key, sound or not: partition, then real bit, and context only where the key is virtual.
pub fn agrees(x: Slot, key: Key) -> bool
    ensures { result ≡ agrees key x }
{
    match key {
        Key::Virtual {
            partition,
            context,
            address: _,
        } => partition_of(x) == partition && (!is_real(x) && context_of(x) == context),
        Key::Real {
            partition,
            address: _,
        } => partition_of(x) == partition && is_real(x),
    }
}

// A table by size code: f of the page size at each code that is listed, another number at the others.
fn by_code<F: Fn(u64) -> u64>(other: u64, f: F) -> [u64; 16]
    requires { OfEachSize (F.pre f) }
    ensures { (g : ℕ → ℕ) → OfEachSize (λ size. (r : ℕ) → F.post f size r → r ≡ g size) → result ≡ by_code other (λ k. g (2 ^ k)) }
{
    let mut table = [other; 16];
    table[0] = f(0x2000);
    table[1] = f(0x1_0000);
    table[3] = f(0x40_0000);
    table[5] = f(0x1000_0000);
    table
}

// Where a page that holds the address starts, by size code.
fn starts(address: u64) -> [u64; 16]
    ensures { result ≡ starts_of address }
{
    by_code(address, |size| address / size * size)
}

// Whether a slot is of the owner and live: then its page is compared. An empty slot looks like owner 0, page 0. Word by word: of a slot of
// another owner only the first is read.
pub fn is_compared(row: &Row, owner: u64) -> bool
    ensures { result ≡ compared_by owner (row_slot row.now) }
{
    row[0] == owner && row[2] >> 63 == 1
}

// Whether a slot's page has the start that is given for its size code.
fn has_start(row: &Row, start: &[u64; 16]) -> bool
    ensures { result ≡ starts_by start.now (row_slot row.now) }
{
    start[(row[2] % 16) as usize] == row[1]
}

// A search of some slots by the starts. The page comes last, and each page compared is counted.
fn walk(rows: &[Row], owner: u64, start: &[u64; 16]) -> Searched
    ensures few { result.compared ≤ length rows.now }
    ensures searched { result ≡ searched_by owner start.now 0 (map row_slot rows.now) }
{
    let mut compared = 0;
    for (i, row) in rows.iter().enumerate() {
        if is_compared(row, owner) {
            compared += 1;
            if has_start(row, start) {
                return Searched {
                    found: Some(i),
                    compared,
                };
            }
        }
    }
    Searched {
        found: None,
        compared,
    }
}

// The lowest slot that answers by the starts, and the pages compared: sixteen slots a turn, which the compiler lays out one after the other.
// In one walk of all slots a miss takes a third more, and half more with eight partitions.
fn search_starts(slots: &[u64], owner: u64, start: &[u64; 16]) -> Searched
    ensures { result ≡ searched_from owner start.now slots.now 0 }
{
    let (turns, rest) = rows(slots).as_chunks::<16>();
    let mut compared = 0;
    for (k, turn) in turns.iter().enumerate() {
        let walked = walk(turn, owner, start);
        compared += walked.compared;
        if let Some(i) = walked.found {
            return Searched {
                found: Some(k * 16 + i),
                compared,
            };
        }
    }
    let last = walk(rest, owner, start);
    compared += last.compared;
    if let Some(i) = last.found {
        return Searched {
            found: Some(turns.len() * 16 + i),
            compared,
        };
    }
    Searched {
        found: None,
        compared,
    }
}

// The lowest slot of a sound side that answers to the key, and how many pages were compared. One comparison of owner words settles partition,
// real bit and context.
pub fn search(slots: &[u64], key: Key) -> Searched
    requires { (side_sound (slots_of slots.now) ≡ true) × KeyFits key }
    ensures { result ≡ searched key (slots_of slots.now) }
{
    let start = starts(key_address(key));
    search_starts(slots, key_owner(key), &start)
}

// Whether one sound slot answers to the key, by its owner word too.
pub fn answers(x: Slot, key: Key) -> bool
    requires { (slot_sound x ≡ true) × KeyFits key }
    ensures { result ≡ answers_to key x }
{
    x.owner == key_owner(key) && (holds(x, key_address(key)) && is_live(x))
}

// Sets the used bit of slot i.
pub fn set_used(slots: &mut [u64], i: usize)
    requires { i * 4 + 4 ≤ length slots.old }
    ensures { slots.new ≡ on_slot with_used i slots.old }
{
    let k = i * machine::SLOT_WORDS + 3;
    slots[k] = slots[k] % 2 + 2;
}

// Clears every used bit. By index: no contract says what a loop over `as_chunks_mut` leaves.
pub fn clear_used(slots: &mut [u64])
    requires { length slots.old % 4 ≡ 0 }
    ensures { slots.new ≡ words_of (clear_used (slots_of slots.old)) }
{
    for i in 0..slots.len() / machine::SLOT_WORDS {
        let k = i * machine::SLOT_WORDS + 3;
        slots[k] = slots[k] % 2;
    }
}

// Whether one page holds the other's start, for two live entries of one owner.
pub fn overlap(x: Slot, y: Slot) -> bool
    ensures { result ≡ overlaps x y }
{
    is_live(x) && (is_live(y) && (x.owner == y.owner && (holds(x, y.page) || holds(y, x.page))))
}

// The larger of the size and each page size, by size code.
pub fn spans(size: u64) -> [u64; 16]
    ensures { result ≡ spans_of size }
{
    by_code(size, |page| size.max(page))
}

// Whether a slot's page starts less far from x's than the larger of the two pages; the spans are those of x's page size. Starts whose xor is
// that or more lie in no common page.
pub fn is_near(x: Slot, row: &Row, span: &[u64; 16]) -> bool
    ensures { result ≡ nat_lt (bit_xor x.page (row_slot row.now).page) (get_or span.now (size_code (row_slot row.now)) 0) }
{
    x.page ^ row[1] < span[(row[2] % 16) as usize]
}

// Whether x overlaps a slot; the spans are those of x's page size. Most slots are far off, and are not asked for their owner.
fn overlaps_row(x: Slot, row: &Row, span: &[u64; 16]) -> bool
    requires { span.now ≡ spans_of (page_size (size_code x)) }
    ensures { result ≡ overlaps x (row_slot row.now) }
{
    is_near(x, row, span) && overlap(x, slot_in(row))
}

// Whether no slot passes the test. In a loop: by `any` an insertion takes 4 % more.
pub fn none_passes<F: Fn(&Row) -> bool>(rows: &[Row], test: F) -> bool
    requires { All (TakesRow F.Fn test) rows.now }
    ensures { (p : Slot → Bool) → All (AsksSlot F.Fn test p) rows.now → result ≡ not (any_of p (map row_slot rows.now)) }
{
    for row in rows {
        if test(row) {
            return false;
        }
    }
    true
}

// Whether x overlaps none of the slots from the one given on.
pub fn overlaps_none(slots: &[u64], x: Slot, from: usize) -> bool
    ensures { result ≡ not (any_of (overlaps x) (drop from (slots_of slots.now))) }
{
    let span = spans(pages::page_size(size_code(x)));
    let rows = rows(slots);
    let later = &rows[from.min(rows.len())..];
    none_passes(later, |row| overlaps_row(x, row, &span))
}
