// Registers: document 01, "Registers". Which numbers there are and the values that they may hold.
#![tactic(auto)]

ghost use Rattle.std.specs.Prelude.{◌≡◌, get_or};
ghost use Rattle.std.specs.List.{list_all};
ghost use Rattle.laws.specs.Tests.{all_below};
ghost use Rattle.machine.specs.Permission.{guest_writable};
ghost use Rattle.machine.specs.Registers.{known, writable, base_allowed, configuration_allowed, allowed, registers_sound};

// 0 to 5 and 8 to 25.
#[tactic(auto, unfolding(machine::specs::Registers::known))]
pub fn is_known(number: u8) -> bool
    ensures { result ≡ known number }
{
    matches!(number, 0..=5 | 8..=25)
}

// 22 to 25 are read only.
#[tactic(auto, unfolding(machine::specs::Registers::writable))]
pub fn is_writable(number: u8) -> bool
    ensures { result ≡ writable number }
{
    number < machine::FAULT_ADDRESS && is_known(number)
}

// Open to mode 1 (number 16): contexts, address mask, and from the TSB bases on to tag access.
#[tactic(auto, unfolding(machine::specs::Permission::guest_writable))]
pub fn is_guest_writable(number: u8) -> bool
    ensures { result ≡ guest_writable number }
{
    matches!(number, 1..=2 | 5 | 8..=21)
}

// A TSB base: bits 12:4 zero.
#[tactic(auto, unfolding(machine::specs::Registers::base_allowed))]
fn is_base(value: u64) -> bool
    ensures { result ≡ base_allowed value }
{
    (value >> 4) % 512 == 0
}

// A TSB configuration: two size codes and nothing else.
#[tactic(auto, unfolding(machine::specs::Registers::configuration_allowed))]
fn is_configuration(value: u64) -> bool
    ensures { result ≡ configuration_allowed value }
{
    pages::code_listed(value % 8)
        && (pages::code_listed((value >> 8) % 8) && ((value >> 3) % 32 == 0 && value >> 11 == 0))
}

// The value that a register may hold; a cell that is no register holds 0.
#[tactic(auto, unfolding(machine::specs::Registers::allowed))]
pub fn is_allowed(number: u8, value: u64) -> bool
    ensures { result ≡ allowed number value }
{
    match number {
        0 => value < 8,
        1..=2 => value < 8192,
        3 => value < 3,
        4 => value < 4,
        5 => value < 2,
        8..=15 => is_base(value),
        16..=19 => is_configuration(value),
        20..=25 => true,
        _ => value == 0,
    }
}

// Whether cells hold what the register of the number given may. They are of one range, so that the compiler knows the arm of the match that
// tests them.
fn cells_fit(cells: &[u64], number: u8) -> bool
    ensures { result ≡ list_all (allowed number) cells.now }
{
    cells.iter().all(|&value| is_allowed(number, value))
}

// Whether a strand's 32 cells hold what they may.
fn strand_fits(cells: &[u64; machine::STRAND_CELLS]) -> bool
    ensures { result ≡ all_below (λ k. allowed k (get_or cells.now k 0)) 32 }
{
    cells_fit(&cells[0..1], 0)
        && cells_fit(&cells[1..3], 1)
        && cells_fit(&cells[3..4], 3)
        && cells_fit(&cells[4..5], 4)
        && cells_fit(&cells[5..6], 5)
        && cells_fit(&cells[6..8], 6)
        && cells_fit(&cells[8..16], 8)
        && cells_fit(&cells[16..20], 16)
        && cells_fit(&cells[20..26], 20)
        && cells_fit(&cells[26..32], 26)
}

// Whether a register file has 128 cells and each holds a value that its register may hold.
pub fn file_sound(file: &[u64]) -> bool
    ensures { result ≡ registers_sound file.now }
{
    file.len() == machine::REGISTER_WORDS && file.as_chunks().0.iter().all(strand_fits)
}
