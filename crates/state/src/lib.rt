// The state as lent words: 128 register cells, then side 0, then side 1, 64 slots each, then the miss records.
#![tactic(auto)]

ghost use Rattle.std.specs.Prelude.{◌≡◌, true, ◌+◌, ◌*◌, ◌%◌, ◌<◌, length, get_or, false, MatchOption};
ghost use Rattle.std.specs.Borrow.{sem, LendsIf, Array, u64};
ghost use Rattle.laws.specs.Tests.{count};
ghost use Rattle.machine.specs.Slots.{no_slot, slots_of, KeyFits, search, searched, set_used};
ghost use Rattle.machine.specs.Insertion.{removed, removes, candidate, inserted, placed, has_slot};
ghost use Rattle.machine.specs.Registers.{register, with_register};
ghost use Rattle.machine.specs.State.{counts, state_in, encode, side_of, with_registers, words_sound, reset_of, reset_number};
ghost use Rattle.machine.specs.Record.{record_of, older_of, turned, put, noted, kept, miss_rate, records_sound};
ghost use Rattle.machine.specs.Questions.{has_lookups};
ghost use Rattle.state.specs.Calls.{SoundIn, on_side, on_records, miss_noted};

use machine::{Key, NoSlot, Removal, Searched, Side, Slot, Strand};

// Lent words of a state's length.
pub type State = [u64; machine::STATE_WORDS];

// Where side 1 starts.
const DTLB: usize = machine::REGISTER_WORDS + machine::SIDE_WORDS;

fn cell(strand: Strand, number: u8) -> usize
    ensures cell { result ≡ strand * 32 + number }
    ensures small { strand < 4 }
{
    (strand.number() as usize) * machine::STRAND_CELLS + (number as usize)
}

// A strand's register.
pub fn read_register(state: &State, strand: Strand, number: u8) -> u64
    requires { number < 32 }
    ensures read { result ≡ register (state_in state.now).registers strand number }
    ensures small { strand < 4 }
{
    let at = cell(strand, number);
    state[at]
}

pub fn write_register(state: &mut State, strand: Strand, number: u8, value: u64)
    requires { number < 32 }
    ensures { state.new ≡ encode (with_registers (state_in state.old)
        (with_register (state_in state.old).registers strand number value)) }
{
    let at = cell(strand, number);
    state[at] = value;
}

// Where a side's words start.
fn side_start(side: Side) -> usize
    ensures start { result ≡ 128 + side * 256 }
    ensures small { side < 2 }
{
    machine::REGISTER_WORDS + (side.number() as usize) * machine::SIDE_WORDS
}

// The words of a side, to read.
fn side_of(state: &State, side: Side) -> &[u64]
    ensures slots { slots_of result.now ≡ side_of (state_in state.now) side }
    ensures count { length result.now ≡ 256 }
{
    let start = side_start(side);
    let end = start + machine::SIDE_WORDS;
    &state[start..end]
}

// The lowest slot of a sound side that answers to the key, and how many pages were compared.
pub fn search_side(state: &State, side: Side, key: Key) -> Searched
    requires { SoundIn state.now × KeyFits key }
    ensures { result ≡ searched key (side_of (state_in state.now) side) }
{
    tlb::search(side_of(state, side), key)
}

// Slot i of a side.
pub fn slot_of(state: &State, side: Side, i: usize) -> Slot
    requires { i < 64 }
    ensures { result ≡ get_or (side_of (state_in state.now) side) i no_slot }
{
    tlb::slot_at(side_of(state, side), i)
}

// Where a key's hint is kept: the owner among the bits of the page's number, spread by a multiplier. Only time depends on it.
fn hint_place(side: Side, key: Key) -> usize
    ensures { result < 256 }
{
    let mixed = (tlb::key_address(key) >> 13 ^ tlb::key_owner(key) << 13) % 0x1_0000_0000;
    ((mixed * 0xB394_E127 >> 24 ^ (side.number() as u64) << 7) % 256) as usize
}

// The slot that `search_side` finds. A hint is the slot of an earlier answer, and is not believed: the slot is asked, and where it answers no
// other does. Then there is no search, and no count of pages.
pub fn search_hinted(state: &State, hints: &mut [u8; 256], side: Side, key: Key) -> Option<usize>
    requires { SoundIn state.now × KeyFits key }
    ensures { result ≡ search key (side_of (state_in state.now) side) }
{
    let at = hint_place(side, key);
    let hint = (hints[at] % (machine::SIDE_SLOTS as u8)) as usize;
    if tlb::answers(slot_of(state, side, hint), key) {
        return Some(hint);
    }
    let found = search_side(state, side, key).found;
    if let Some(i) = found {
        hints[at] = (i % machine::SIDE_SLOTS) as u8;
    }
    found
}

// Sets the used bit of slot i of a side.
pub fn mark_used(state: &mut State, side: Side, i: usize)
    requires { i < 64 }
    ensures { state.new ≡ on_side (set_used i) side state.old }
{
    let start = side_start(side);
    let end = start + machine::SIDE_WORDS;
    tlb::set_used(&mut state[start..end], i);
}

// Whether a slot of a side is to be had for the new entry (number 13).
pub fn slot_to_be_had(state: &State, side: Side, new: Slot) -> bool
    ensures { result ≡ has_slot candidate new (side_of (state_in state.now) side) }
{
    tlb_update::has_slot(side_of(state, side), new)
}

// An insertion on a side.
pub fn insert_side(state: &mut State, side: Side, new: Slot) -> Result<Option<Slot>, NoSlot>
    ensures words { state.new ≡ on_side (inserted candidate new) side state.old }
    ensures placed { result ≡ placed candidate new (side_of (state_in state.old) side) }
{
    let start = side_start(side);
    let end = start + machine::SIDE_WORDS;
    tlb_update::insert(&mut state[start..end], new)
}

// A removal on a side, with its count.
pub fn remove_side(state: &mut State, side: Side, which: Removal) -> u64
    ensures words { state.new ≡ on_side (removed (removes which)) side state.old }
    ensures count { result ≡ count (removes which) (side_of (state_in state.old) side) }
{
    let start = side_start(side);
    let end = start + machine::SIDE_WORDS;
    tlb_update::remove(&mut state[start..end], which)
}

fn record_of(strand: Strand, side: Side) -> usize
    ensures record { result ≡ record_of strand side }
    ensures small { result < 8 }
    ensures there { (strand < 4) × (side < 2) }
{
    (strand.number() as usize) * 2 + (side.number() as usize)
}

// The older words of a record, to read.
fn older_of(state: &State, number: usize) -> &[u64; machine::OLDER_WORDS]
    requires { number < 8 }
    ensures { result.now ≡ older_of (state_in state.now).records.older number }
{
    &state[machine::OLDER..].as_chunks().0[number]
}

// A full newest word becomes the first of the older ones.
fn turn_record(state: &mut State, number: usize)
    requires { number < 8 }
    ensures { state.new ≡ on_records (turned number) state.old }
{
    let newest = state[machine::NEWEST + number];
    let start = machine::OLDER + number * machine::OLDER_WORDS;
    let end = start + machine::OLDER_WORDS;
    state[machine::NEWEST + number] = miss_record::turn(&mut state[start..end], newest);
    let seen = state[machine::SEEN + number];
    if 1024 < seen {
        state[machine::SEEN + number] = seen - 64;
    }
}

// A lookup more in a record whose newest word has room, as a hit.
fn put_lookup(state: &mut State, number: usize)
    requires { (number < 8) × (get_or (state_in state.old).records.seen number 0 < 1089) }
    ensures { state.new ≡ on_records (put number 0) state.old }
{
    state[machine::SEEN + number] += 1;
    state[machine::NEWEST + number] = miss_record::push(state[machine::NEWEST + number]);
}

// Notes a lookup, as a hit.
pub fn note_lookup(state: &mut State, strand: Strand, side: Side)
    requires { SoundIn state.old }
    ensures noted { state.new ≡ on_records (noted (record_of strand side) 0) state.old }
    ensures there { (strand < 4) × (side < 2) }
{
    let number = record_of(strand, side);
    if state[machine::SEEN + number] % 64 == 0 {
        turn_record(state, number);
        put_lookup(state, number);
        return;
    }
    put_lookup(state, number);
}

// The lookup noted last was a miss.
pub fn note_miss(state: &mut State, strand: Strand, side: Side)
    requires { get_or (state_in state.old).records.newest (record_of strand side) 0 % 2 ≡ 0 }
    ensures { state.new ≡ on_records (miss_noted (record_of strand side)) state.old }
{
    let number = record_of(strand, side);
    state[machine::NEWEST + number] += 1;
}

// How many lookups are kept.
pub fn lookups_kept(state: &State, strand: Strand, side: Side) -> u64
    ensures { result ≡ kept (get_or (state_in state.now).records.seen (record_of strand side) 0) }
{
    let seen = state[machine::SEEN + record_of(strand, side)];
    if seen < 1024 {
        return seen;
    }
    1024
}

// The miss rate of the lookups kept.
pub fn miss_rate(state: &State, strand: Strand, side: Side) -> u64
    requires { has_lookups (state_in state.now).records (record_of strand side) ≡ true }
    ensures { result ≡ miss_rate (state_in state.now).records (record_of strand side) }
{
    let number = record_of(strand, side);
    let newest = u64::from(state[machine::NEWEST + number].count_ones());
    let older = miss_record::count_ones(older_of(state, number));
    miss_record::per_thousand(newest + older, lookups_kept(state, strand, side))
}

// Whether every record is sound. All are asked, as in `state_sound`.
fn records_sound(state: &State) -> bool
    ensures { result ≡ records_sound (state_in state.now).records }
{
    let mut all = true;
    // by index: a record's words stand in three parts of the state
    for i in 0..machine::RECORDS {
        all &= miss_record::record_sound(
            state[machine::SEEN + i],
            state[machine::NEWEST + i],
            older_of(state, i),
        );
    }
    all
}

// Number 1, of any words: the length, the registers, both sides and the records. All four are asked, with no way out between them: where each
// can end a run, the compiler takes its commands for unlikely and keeps less of them in registers.
pub fn state_sound(state: &[u64]) -> bool
    ensures { result ≡ words_sound counts state.now }
{
    let Some(words) = state.as_array() else {
        return false;
    };
    let mut buckets = [0; 1024];
    let seen: &mut [u8] = &mut buckets;
    // another mark for side 1: what side 0 left in the table does not count
    registers::file_sound(&words[0..machine::REGISTER_WORDS])
        & (tlb_sound::side_sound(&words[machine::REGISTER_WORDS..DTLB], seen, 1)
            & (tlb_sound::side_sound(&words[DTLB..machine::SEEN], seen, 2) & records_sound(words)))
}

// The words as a state, where they hold a sound one.
pub fn sound(words: &[u64]) -> Option<&State>
    ensures { MatchOption result (words_sound counts words.now ≡ false)
        (λ s. (words_sound counts words.now ≡ true) × (s.now ≡ words.now)) }
{
    if !state_sound(words) {
        return None;
    }
    words.as_array()
}

// The same, to write.
pub fn sound_mut(words: &mut [u64]) -> Option<&mut State>
    ensures cases { MatchOption result (words_sound counts words.old ≡ false)
        (λ s. (words_sound counts words.old ≡ true) × (s.now ≡ words.old)) }
    ensures* writes_back { sem 𝓛 (LendsIf (Array u64 0) (Array u64 0) words.entry result (λ ws. ws) words.old) }
{
    sound(words)?;
    words.as_mut_array()
}

// Fills a lent state: mode 2, all else 0. A state of another length is left as it is, and the answer is 1: the
// number that C is handed.
pub fn reset(state: &mut [u64]) -> u8
    ensures words { state.new ≡ reset_of counts state.old }
    ensures number { result ≡ reset_number counts state.old }
{
    if state.len() != machine::STATE_WORDS {
        return 1;
    }
    state.fill(0);
    for strand in 0..4 {
        state[cell(Strand::at(strand), machine::MODE)] = machine::HYPERPRIVILEGED;
    }
    0
}
