// Addresses and pages: document 01, "Addresses and entry words".
#![tactic(auto)]

ghost use Rattle.std.specs.Prelude.{◌≡◌, ◌-◌};
ghost use Rattle.machine.specs.Pages.{in_range, listed, page_shift, page_size, page_start, page_offset, untranslated, bypassed};

use machine::{PhysicalAddress, RealAddress, VirtualAddress};

// A virtual or real address below 2^47 or among the last 2^47.
#[tactic(auto, unfolding(machine::specs::Pages::in_range))]
pub fn in_range(address: u64) -> bool
    ensures { result ≡ in_range address }
{
    address < 0x8000_0000_0000 || 0xFFFF_8000_0000_0000 <= address
}

// The address that a guest gives while translation is off for the side.
pub fn untranslate(address: VirtualAddress) -> RealAddress
    ensures { result ≡ untranslated address }
{
    RealAddress(address.0)
}

// The physical address of a bypass.
pub fn bypass(address: VirtualAddress) -> PhysicalAddress
    ensures { result ≡ bypassed address }
{
    PhysicalAddress(address.0 % 0x100_0000_0000)
}

// Whether a size code picks a page.
#[tactic(auto, unfolding(machine::specs::Pages::listed))]
pub fn code_listed(code: u64) -> bool
    ensures { result ≡ listed code }
{
    matches!(code, 0 | 1 | 3 | 5)
}

// The page shift that a size code picks: 8 KB, 64 KB, 4 MB, 256 MB. An unlisted code has no page.
#[tactic(auto, unfolding(machine::specs::Pages::page_shift))]
pub fn page_shift(code: u64) -> u64
    ensures { result ≡ page_shift code }
{
    match code {
        0 => 13,
        1 => 16,
        3 => 22,
        5 => 28,
        _ => 0,
    }
}

pub fn page_size(code: u64) -> u64
    ensures { result ≡ page_size code }
{
    1 << page_shift(code)
}

// The bits of an address below a page start, by size code.
pub fn page_mask(code: u64) -> u64
    ensures { result ≡ page_size code - 1 }
{
    page_size(code) - 1
}

// The address rounded down. The last page ends at 2^64, so a page's end is never computed.
pub fn page_start(code: u64, address: u64) -> u64
    ensures { result ≡ page_start code address }
{
    address - page_offset(code, address)
}

fn page_offset(code: u64, address: u64) -> u64
    ensures { result ≡ page_offset code address }
{
    address & page_mask(code)
}
