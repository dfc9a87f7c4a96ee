// One miss record (document 02, U5): lookups seen, the newest word of outcomes, and fifteen older ones.
#![tactic(auto)]

ghost use Rattle.std.specs.Prelude.{◌≡◌, ◌||◌, ◌∷◌, ◌+◌, ◌*◌, ◌^◌, ◌≤◌, ◌<◌, eqb, ltb, length, get_or, take};
ghost use Rattle.laws.specs.Tests.{all_below};
ghost use Rattle.machine.specs.Record.{pushed, ones_of, per_thousand, newest_bits, record_sound};

// The word with one more lookup in it, which is taken for a hit.
#[tactic(auto, unfolding(machine::specs::Record::pushed))]
pub fn push(word: u64) -> u64
    ensures { result ≡ pushed word 0 }
{
    word % 0x8000_0000_0000_0000 * 2
}

// Each older word moves up by one place behind the first; the last is handed back. A slice: a part of the state as a `&mut` array comes in
// an `Option`.
pub fn turn(words: &mut [u64], first: u64) -> u64
    requires { length words.old ≡ 15 }
    ensures words { words.new ≡ first ∷ take 14 words.old }
    ensures last { result ≡ get_or words.old 14 0 }
{
    words.rotate_right(1);
    std::mem::replace(&mut words[0], first)
}

// The older words but the last: of an even number the compiler counts two at a time, and a sum of all fifteen takes 42 % more of a miss rate.
const PAIRED: usize = machine::OLDER_WORDS - 1;

// How many bits of the older words are set.
pub fn count_ones(words: &[u64; machine::OLDER_WORDS]) -> u64
    ensures count { result ≡ ones_of words.now 15 }
    ensures small { result ≤ 960 }
{
    let paired: u64 = words[..PAIRED]
        .iter()
        .map(|word| u64::from(word.count_ones()))
        .sum();
    paired + u64::from(words[PAIRED].count_ones())
}

// Misses of every thousand lookups, rounded down.
#[tactic(auto, unfolding(machine::specs::Record::per_thousand))]
pub fn per_thousand(part: u64, whole: u64) -> u64
    requires { (part ≤ 1024) × (0 < whole) }
    ensures { result ≡ per_thousand part whole }
{
    part * 1000 / whole
}

// Whether the newest word has no bit past its outcomes.
fn newest_sound(seen: u64, newest: u64) -> bool
    requires { seen ≤ 1024 }
    ensures { result ≡ ltb newest (2 ^ newest_bits seen) }
{
    if seen == 0 {
        return newest == 0;
    }
    newest >> ((seen - 1) % 64) < 2
}

// Whether no older word from the one given on has a bit that is not in use. All are gone through by index, which the compiler unrolls: with
// `iter` and `all`, or `iter` and `for`, a soundness test of full records takes 15 % more.
fn clear_from(seen: u64, older: &[u64; machine::OLDER_WORDS], from: usize) -> bool
    requires { from ≤ 15 }
    ensures { result ≡ all_below (λ j. ltb j from || (ltb (64 * (j + 1)) seen || eqb (get_or older.now j 0) 0)) 15 }
{
    let mut unused = 0;
    for i in from..machine::OLDER_WORDS {
        if seen <= 64 * (i as u64 + 1) {
            unused |= older[i];
        }
    }
    unused == 0
}

// Whether no older word has a bit that is not in use.
fn older_sound(seen: u64, older: &[u64; machine::OLDER_WORDS]) -> bool
    ensures { result ≡ all_below (λ j. ltb (64 * (j + 1)) seen || eqb (get_or older.now j 0) 0) 15 }
{
    // then the first seven are in use
    if 448 < seen {
        return clear_from(seen, older, 7);
    }
    clear_from(seen, older, 0)
}

// Whether a record has no bit that no lookup kept has.
pub fn record_sound(seen: u64, newest: u64, older: &[u64; machine::OLDER_WORDS]) -> bool
    ensures { result ≡ record_sound seen newest older.now }
{
    // then every bit is in use
    if 1024 < seen {
        return seen < 1089;
    }
    newest_sound(seen, newest) && older_sound(seen, older)
}
