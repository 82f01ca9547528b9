//! The three addresses that were traced last.
ghost use Rattle.std.specs.Prelude.{◌≡◌, ◌≤◌, ◌<◌, ◌%◌, Some, slice_index};

use a64_branches::INSTRUCTION_BYTES;
use etm_types::AddrForm;
use std::marker::Model;

/// How many addresses a history holds.
const ENTRIES: usize = 3;

/// How many low bits a form replaces; bits 1 and 0 among them are always 0.
const SHORT1_BITS: u32 = 9;

const SHORT2_BITS: u32 = 17;

const LONG32_BITS: u32 = 32;

/// The three addresses that were traced last. Contracts see it as their list, the newest first.
#[derive(Clone, Copy, Debug, PartialEq, Eq)]
pub struct History {
    entries: [u64; ENTRIES],
}

impl Model for History {
    ghost use Rattle.std.specs.Prelude.{ℕ, List};
    ghost use Rattle.address_history.specs.Forms.{IsHistory};

    ghost Value = { List ℕ };

    ghost view = { λ h. h.entries };

    ghost invariant = { λ h. IsHistory h.entries };

    ghost inverse = { λ entries. record { entries = entries } };
}

impl History {
    ghost use Rattle.etm_types.specs.AddrForm.{IsAddrForm};
    ghost use Rattle.address_history.specs.Forms.{HasEntry, IsHistory, IsNeeded, address_told, first_form, no_address, put_first};

    /// The history at the start of a trace, and after a trace info packet: three times address 0.
    pub fn reset() -> History
        ensures value { result ≡ no_address }
        ensures within { IsHistory result }
    {
        History {
            entries: [0; ENTRIES],
        }
    }

    /// Puts an address first. The oldest falls out.
    pub fn push(&mut self, addr: u64)
        ensures value { self.new ≡ put_first addr self.old }
        ensures within { IsHistory self.new }
    {
        let [newest, middle, _] = self.entries;
        self.entries = [addr, newest, middle];
    }

    /// The address of an index 0 to 2, where 0 is the newest.
    pub fn entry(&self, i: u8) -> u64
        requires { i ≤ 2 }
        ensures value { result ≡ slice_index self.now i }
        ensures within { IsHistory self.now }
    {
        self.entries[usize::from(i)]
    }

    /// The form that gives an address, which is a multiple of 4: the first that does, of the exact
    /// matches with entry 0, 1 and 2, the short forms of 7 and of 15 bits, and the long ones of 32 and
    /// of 64.
    pub fn choose(&self, addr: u64) -> AddrForm
        requires { addr % 4 ≡ 0 }
        ensures first { first_form self.now addr ≡ Some result }
        ensures needed { IsNeeded self.now addr result }
        ensures gives_it { address_told self.now result ≡ addr }
        ensures within { IsAddrForm result }
        ensures applies { HasEntry result }
    {
        let newest = self.entry(0);
        if addr == newest {
            return AddrForm::Match(0);
        }
        if addr == self.entry(1) {
            return AddrForm::Match(1);
        }
        if addr == self.entry(2) {
            return AddrForm::Match(2);
        }
        if addr >> SHORT1_BITS == newest >> SHORT1_BITS {
            return AddrForm::Short1(addr % (1 << SHORT1_BITS));
        }
        if addr >> SHORT2_BITS == newest >> SHORT2_BITS {
            return AddrForm::Short2(addr % (1 << SHORT2_BITS));
        }
        if addr >> LONG32_BITS == newest >> LONG32_BITS {
            return AddrForm::Long32(addr % (1 << LONG32_BITS));
        }
        AddrForm::Long64(addr)
    }

    /// The address that a form gives. Bits of a value that are out of their place are passed over.
    pub fn apply(&self, form: &AddrForm) -> u64
        requires { HasEntry form.now }
        ensures { result ≡ address_told self.now form.now }
    {
        match *form {
            AddrForm::Match(i) => self.entry(i),
            AddrForm::Short1(value) => with_low_bits(SHORT1_BITS, value, self.entry(0)),
            AddrForm::Short2(value) => with_low_bits(SHORT2_BITS, value, self.entry(0)),
            AddrForm::Long32(value) => with_low_bits(LONG32_BITS, value, self.entry(0)),
            AddrForm::Long64(value) => value / INSTRUCTION_BYTES * INSTRUCTION_BYTES,
        }
    }
}

ghost use Rattle.address_history.specs.Forms.{with_low_bits};

/// The low bits of a value, so many of them, but for bits 1 and 0, which are 0, with the upper bits of a base.
fn with_low_bits(bits: u32, value: u64, base: u64) -> u64
    requires { bits < 64 }
    ensures { result ≡ with_low_bits bits value base }
{
    (base >> bits << bits) | (value % (1 << bits) / INSTRUCTION_BYTES * INSTRUCTION_BYTES)
}
