// One access: document 01, "Access". Prepare (steps 1 to 4), lookup (5), judge (6 and 7), translate (8), settle (used bit and registers).
#![tactic(auto)]

ghost use Rattle.std.specs.Prelude.{◌≡◌, true, not, cond, ◌&&◌, ◌||◌, ◌+◌, ◌%◌, ◌^◌, ◌<◌, ◌≤◌, eqb, get_or};
ghost use Rattle.machine.specs.Words.{bits};
ghost use Rattle.machine.specs.Slots.{no_slot, KeyFits, key_address, holds, miss, looked_at};
ghost use Rattle.machine.specs.Registers.{with_register, translates};
ghost use Rattle.machine.specs.State.{state_in, encode, side_of, with_registers};
ghost use Rattle.state.specs.Calls.{SoundIn, Did};
ghost use Rattle.machine.specs.Access.{address_used, access_of, exception, trap_tag, bypass_to, prepare_bypass, lookup_key, prepare};
ghost use Rattle.machine.specs.Access.{miss_trap, fault_type, judge, translated_by, trap_fault, trap_registers, trap_to};
ghost use Rattle.machine.specs.Access.{settle_looked, settle, access_to};
ghost use Rattle.machine.specs.declared.Prepared.TheVariants.{Lookup};
ghost use Rattle.access.specs.Faults.{faultless};
ghost use Rattle.access.specs.Fits.{RegistersFit, FaultFits, TagFits, PreparedFits, JudgedFits};

use machine::{
    Access, Answer, Key, Prepared, Reach, Strand, Translation, Trap, Trapped, VirtualAddress,
};
use state::State;

fn bit_of(word: u64, place: u64) -> u64
    requires { place < 64 }
    ensures { result ≡ bits place 1 word }
{
    (word >> place) % 2
}

// An access is lent up to its last use, and there handed on: lent everywhere a bypass takes 6 % more.

// Whether translation is on for the side of an access.
fn translation_on(state: &State, a: &Access) -> bool
    ensures on { result ≡ translates (state_in state.now).registers a.now.strand a.now.side }
    ensures small { a.now.strand < 4 }
{
    let enables = state::read_register(state, a.strand, machine::TRANSLATION);
    bit_of(enables, a.side.number() as u64) == 1
}

// The address used: with the mask on, modes 0 and 1 keep only its low 32 bits.
fn used_address(state: &State, strand: Strand, address: VirtualAddress) -> VirtualAddress
    ensures { result ≡ address_used (state_in state.now).registers strand address }
{
    if state::read_register(state, strand, machine::ADDRESS_MASK) != 1 {
        return address;
    }
    if machine::HYPERPRIVILEGED <= state::read_register(state, strand, machine::MODE) {
        return address;
    }
    VirtualAddress(address.0 % 0x1_0000_0000)
}

// An access by its operands, with what they pick.
pub fn access_of(
    state: &State,
    strand: Strand,
    kind: u8,
    selector: u8,
    size: u8,
    address: VirtualAddress,
) -> Access
    ensures { result ≡ access_of (state_in state.now).registers strand kind selector size address }
{
    let used = used_address(state, strand, address);
    Access {
        strand,
        kind,
        side: operands::access_side(kind),
        selector,
        size,
        used,
    }
}

fn exception_of(kind: u8, fault: u64) -> Trap
    ensures trap { result ≡ exception kind fault }
    ensures fault { trap_fault result ≡ fault }
{
    if kind == 0 {
        return Trap::InstructionAccessException(fault);
    }
    Trap::DataAccessException(fault)
}

// The context that a trap of steps 4 to 7 leaves in tag access: the one selected; 0 while translation is off.
fn tag_written(state: &State, a: &Access) -> Option<u64>
    requires { RegistersFit state.now }
    ensures tag { result ≡ trap_tag (state_in state.now).registers a.now }
    ensures fits { TagFits result }
{
    if translation_on(state, a) {
        return Some(operands::selected_context(state, a.strand, a.selector));
    }
    Some(0)
}

// Bit 39 of an address says whether it lies in memory (cp, which counts 1) or in I/O space (e, which counts 2).
fn bypass_translation(used: VirtualAddress) -> Translation
    ensures { result ≡ bypass_to used }
{
    Translation {
        address: pages::bypass(used),
        attributes: 1 + bit_of(used.0, 39),
        code: machine::BYPASS_CODE,
    }
}

// Step 3: I/O space, where bit 39 is 1, takes no nonfaulting load and no atomic. Their traps leave context 0 in tag access.
fn prepare_bypass(kind: u8, used: VirtualAddress) -> Prepared
    ensures prepared { result ≡ prepare_bypass kind used }
    ensures fits { PreparedFits result }
{
    if bit_of(used.0, 39) == 0 {
        return Prepared::Bypass(bypass_translation(used));
    }
    match kind {
        4 => Prepared::Stopped(Trap::DataAccessException(0x02), Some(0)),
        3 => Prepared::Stopped(Trap::DataAccessException(0x04), Some(0)),
        _ => Prepared::Bypass(bypass_translation(used)),
    }
}

fn key_of_access(state: &State, a: &Access) -> Key
    requires { RegistersFit state.now }
    ensures key { result ≡ lookup_key (state_in state.now).registers a.now }
    ensures fits { KeyFits result }
{
    let on = translation_on(state, a);
    let partition = state::read_register(state, a.strand, machine::PARTITION);
    let context = operands::selected_context(state, a.strand, a.selector);
    let used = a.used;
    operands::key_for(!on, partition, context, used)
}

// Step 1: whether the address is aligned.
fn aligned(used: VirtualAddress, size: u8) -> bool
    requires { size < 64 }
    ensures { result ≡ eqb (used.0 % 2 ^ size) 0 }
{
    used.0 % (1 << size as u64) == 0
}

// Step 2: a user asks for data of the nucleus.
fn is_user_nucleus(mode: u64, kind: u8, selector: u8) -> bool
    ensures { result ≡ (eqb mode 0 && (not (eqb kind 0) && eqb selector 2)) }
{
    mode == machine::USER && (kind != 0 && selector == 2)
}

// Steps 1 to 4.
fn prepare_access(state: &State, a: &Access) -> Prepared
    requires { (a.now.size < 4) × RegistersFit state.now }
    ensures prepared { result ≡ prepare (state_in state.now).registers a.now }
    ensures fits { PreparedFits result }
{
    if !aligned(a.used, a.size) {
        return Prepared::Stopped(Trap::AddressNotAligned, None);
    }
    let mode = state::read_register(state, a.strand, machine::MODE);
    if is_user_nucleus(mode, a.kind, a.selector) {
        return Prepared::Stopped(Trap::PrivilegedAction, None);
    }
    if mode == machine::HYPERPRIVILEGED {
        return prepare_bypass(a.kind, a.used);
    }
    if !pages::in_range(a.used.0) {
        return Prepared::Stopped(exception_of(a.kind, 0x20), tag_written(state, a));
    }
    Prepared::Lookup
}

fn miss_of(state: &State, a: &Access) -> Trap
    ensures trap { result ≡ miss_trap (state_in state.now).registers a.now }
    ensures fits { FaultFits result }
{
    if translation_on(state, a) {
        if a.kind == 0 {
            return Trap::InstructionMiss;
        }
        return Trap::DataMiss;
    }
    if a.kind == 0 {
        return Trap::InstructionRealMiss;
    }
    Trap::DataRealMiss
}

// A fault type's weight where both tests hold.
fn share(one: bool, other: bool, weight: u64) -> u64
    ensures sum { result ≡ cond (one && other) weight 0 }
    ensures small { result ≤ weight }
{
    if one {
        if other {
            return weight;
        }
    }
    0
}

// A word that earns no access a fault type: nfo, e and p are 0 and cp is 1. Most are such.
fn is_faultless(word: u64) -> bool
    ensures { result ≡ faultless word }
{
    bit_of(word, 62) != 1
        && (bit_of(word, 11) != 1 && (bit_of(word, 8) != 1 && bit_of(word, 10) == 1))
}

// The sum of the fault types that a word earns an access.
fn fault_of(mode: u64, kind: u8, word: u64) -> u64
    ensures fault { result ≡ fault_type mode kind word }
    ensures small { result < 256 }
{
    if is_faultless(word) {
        return 0;
    }
    let privileged = share(bit_of(word, 8) == 1, mode == machine::USER, 0x01);
    let side_effect = share(kind == 4, bit_of(word, 11) == 1, 0x02);
    let uncached = share(kind == 3, bit_of(word, 10) == 0, 0x04);
    let no_fault_only = share(bit_of(word, 62) == 1, kind != 4, 0x10);
    privileged + side_effect + uncached + no_fault_only
}

// Step 7: a store or an atomic on a word without w.
fn is_write_denied(kind: u8, word: u64) -> bool
    ensures { result ≡ ((eqb kind 2 || eqb kind 3) && eqb (bits 6 1 word) 0) }
{
    match kind {
        2 | 3 => bit_of(word, 6) == 0,
        _ => false,
    }
}

// Steps 6 and 7.
fn judge_word(state: &State, a: &Access, word: u64) -> Result<(), Trap>
    ensures judged { result ≡ judge (state_in state.now).registers a.now word }
    ensures fits { JudgedFits result }
{
    let fault = fault_of(
        state::read_register(state, a.strand, machine::MODE),
        a.kind,
        word,
    );
    if fault != 0 {
        return Err(exception_of(a.kind, fault));
    }
    if is_write_denied(a.kind, word) {
        return Err(Trap::DataProtection);
    }
    Ok(())
}

// Step 8: the physical address and the size code, both by the one match.
fn translated_by(word: u64, reach: Reach) -> Translation
    requires { reach.offset < 2 ^ 28 }
    ensures { result ≡ translated_by word reach }
{
    Translation {
        address: tte::physical_address(word, reach),
        attributes: bit_of(word, 10) + 2 * bit_of(word, 11) + 4 * bit_of(word, 12),
        code: reach.code,
    }
}

// Writes a register that each side has: the base is its number on side 0.
fn write_side(state: &mut State, a: &Access, base: u8, value: u64)
    requires { base < 31 }
    ensures { state.new ≡ encode (with_registers (state_in state.old)
        (with_register (state_in state.old).registers a.now.strand (base + a.now.side) value)) }
{
    state::write_register(state, a.strand, base + a.side.number(), value);
}

// The two registers that every trap sets: fault address (22) and fault (24).
fn write_fault(state: &mut State, a: &Access, trap: Trap)
    requires { FaultFits trap }
    ensures { state.new ≡ encode (with_registers (state_in state.old)
        (trap_registers (state_in state.old).registers a.now trap None)) }
{
    write_side(state, a, machine::FAULT_ADDRESS, a.used.0);
    write_side(
        state,
        a,
        machine::FAULT_STATUS,
        numbers::trap_number(trap) * 256 + numbers::trap_fault(trap),
    );
}

// What a trap writes.
fn write_trap(state: &mut State, a: &Access, trap: Trap, tag: Option<u64>)
    requires { FaultFits trap × TagFits tag }
    ensures { state.new ≡ encode (with_registers (state_in state.old)
        (trap_registers (state_in state.old).registers a.now trap tag)) }
{
    write_fault(state, a, trap);
    if let Some(context) = tag {
        write_side(
            state,
            a,
            machine::TAG_ACCESS,
            a.used.0 / 0x2000 * 0x2000 + context,
        );
    }
}

fn take_trap(state: &mut State, a: Access, trap: Trap, tag: Option<u64>) -> Answer
    requires { FaultFits trap × TagFits tag }
    ensures { Did state.new result (trap_to (state_in state.old) a trap tag) }
{
    write_trap(state, &a, trap, tag);
    let used = a.used;
    Answer::Trap(Trapped {
        trap: trap,
        address: used,
        tag: operands::tag_of(state, a.strand, a.side),
    })
}

// A trap that writes tag access.
fn take_tagged(state: &mut State, a: Access, trap: Trap) -> Answer
    requires { FaultFits trap × RegistersFit state.old }
    ensures { Did state.new result
        (trap_to (state_in state.old) a trap (trap_tag (state_in state.old).registers a)) }
{
    let tag = tag_written(state, &a);
    take_trap(state, a, trap, tag)
}

// A miss traps and sets no used bit.
fn settle_miss(state: &mut State, a: Access) -> Answer
    requires { RegistersFit state.old }
    ensures { Did state.new result (settle_looked (state_in state.old) a miss) }
{
    let trap = miss_of(state, &a);
    take_tagged(state, a, trap)
}

// A hit in slot i has its used bit set, and is judged. Its page holds the key's address.
fn settle_hit(state: &mut State, a: Access, key: Key, i: usize) -> Answer
    requires { (i < 64) × RegistersFit state.old
        × (holds (get_or (side_of (state_in state.old) a.side) i no_slot) (key_address key) ≡ true) }
    ensures { Did state.new result (settle_looked (state_in state.old) a
        (looked_at key (side_of (state_in state.old) a.side) (Some i))) }
{
    let x = state::slot_of(state, a.side, i);
    let reach = tlb::reach_of(x, tlb::key_address(key));
    let word = x.word;
    let judged = judge_word(state, &a, word);
    state::mark_used(state, a.side, i);
    match judged {
        Err(trap) => take_tagged(state, a, trap),
        Ok(()) => Answer::Physical(translated_by(word, reach)),
    }
}

// Step 5 and what comes of it. The lookup is noted before the key is there, when few values are to be kept: fewer instructions a hit.
fn look_up(state: &mut State, hints: &mut [u8; 256], a: Access) -> Answer
    requires { SoundIn state.old }
    ensures { Did state.new result (settle (state_in state.old) a Lookup) }
{
    let strand = a.strand;
    let side = a.side;
    state::note_lookup(state, strand, side);
    let key = key_of_access(state, &a);
    let found = state::search_hinted(state, hints, side, key);
    match found {
        Some(i) => settle_hit(state, a, key, i),
        None => {
            let answer = settle_miss(state, a);
            state::note_miss(state, strand, side);
            answer
        }
    }
}

// One access that passed its questions.
pub fn access_to(state: &mut State, hints: &mut [u8; 256], a: Access) -> Answer
    requires { (a.size < 4) × SoundIn state.old }
    ensures { Did state.new result (access_to (state_in state.old) a) }
{
    let prepared = prepare_access(state, &a);
    match prepared {
        Prepared::Stopped(trap, tag) => take_trap(state, a, trap, tag),
        Prepared::Bypass(translation) => Answer::Physical(translation),
        Prepared::Lookup => look_up(state, hints, a),
    }
}
