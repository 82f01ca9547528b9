//! How a trace unit is configured, as far as its packets depend on it (Arm IHI 0064, TRCIDR2 and
//! TRCIDR8: sizes of the VMID and the context ID, maximum speculation depth).
ghost use Rattle.std.specs.Prelude.{◌≡◌, ◌↔◌, ◌<◌, ◌≤◌, ◌^◌, IsTrue, IfOk, true, false};

use crate::Ctx;
use std::marker::Model;
use thiserror::Error;

/// Why numbers are no settings.
#[derive(Clone, Copy, Debug, PartialEq, Eq, Error)]
pub enum SettingsFault {
    #[error("a speculation depth of {0} is above 16384")]
    DepthRange(u32),
    #[error("{0} is no size of the field")]
    SizeRange(u8),
}

/// The greatest speculation depth, in P0 elements.
const MOST_DEPTH: u32 = 16384;

/// The maximum speculation depth in P0 elements, and the sizes of a context's VMID and context ID in
/// bytes. Contracts see it as the record of the three numbers.
#[derive(Clone, Copy, Debug, PartialEq, Eq)]
pub struct Settings {
    depth: u32,
    vmid_bytes: u8,
    cid_bytes: u8,
}

impl Model for Settings {
    ghost use Rattle.etm_types.specs.Settings.{Sizes, AreSettings};

    ghost Value = { Sizes };

    ghost view = { λ s. record { depth = s.depth; vmid_bytes = s.vmid_bytes; cid_bytes = s.cid_bytes } };

    ghost invariant = { λ s. AreSettings (record { depth = s.depth; vmid_bytes = s.vmid_bytes; cid_bytes = s.cid_bytes }) };

    ghost inverse = { λ s. record { depth = s.depth; vmid_bytes = s.vmid_bytes; cid_bytes = s.cid_bytes } };
}

impl Settings {
    ghost use Rattle.etm_types.specs.Settings.{AreSettings, FitsSettings, is_cid_size, is_vmid_size, most_depth};

    /// The settings of these numbers. The depth is tested first, then the VMID's size, then the
    /// context ID's.
    pub fn new(depth: u32, vmid_bytes: u8, cid_bytes: u8) -> Result<Settings, SettingsFault>
        ensures ok { depth ≤ most_depth → is_vmid_size vmid_bytes ≡ true → is_cid_size cid_bytes ≡ true
            → result ≡ Ok (record { depth = depth; vmid_bytes = vmid_bytes; cid_bytes = cid_bytes }) }
        ensures depth { most_depth < depth → result ≡ Err (SettingsFault.DepthRange depth) }
        ensures vmid { depth ≤ most_depth → is_vmid_size vmid_bytes ≡ false
            → result ≡ Err (SettingsFault.SizeRange vmid_bytes) }
        ensures cid { depth ≤ most_depth → is_vmid_size vmid_bytes ≡ true → is_cid_size cid_bytes ≡ false
            → result ≡ Err (SettingsFault.SizeRange cid_bytes) }
    {
        if depth > MOST_DEPTH {
            return Err(SettingsFault::DepthRange(depth));
        }
        if !is_vmid_size(vmid_bytes) {
            return Err(SettingsFault::SizeRange(vmid_bytes));
        }
        if !is_cid_size(cid_bytes) {
            return Err(SettingsFault::SizeRange(cid_bytes));
        }
        Ok(Settings {
            depth,
            vmid_bytes,
            cid_bytes,
        })
    }

    /// The maximum speculation depth, in P0 elements.
    pub fn depth(&self) -> u32
        ensures value { result ≡ self.now.depth }
        ensures within { AreSettings self.now }
    {
        self.depth
    }

    /// The size of a VMID in bytes: 0, 1, 2 or 4.
    pub fn vmid_bytes(&self) -> u8
        ensures value { result ≡ self.now.vmid_bytes }
        ensures within { AreSettings self.now }
    {
        self.vmid_bytes
    }

    /// The size of a context ID in bytes: 0 or 4.
    pub fn cid_bytes(&self) -> u8
        ensures value { result ≡ self.now.cid_bytes }
        ensures within { AreSettings self.now }
    {
        self.cid_bytes
    }

    /// Whether a packet can carry a context under these settings: its level is at most 3, and its VMID
    /// and context ID fit their sizes. Size 0 fits 0 alone.
    pub fn fits(&self, ctx: &Ctx) -> bool
        ensures { IsTrue result ↔ FitsSettings self.now ctx.now }
    {
        ctx.el <= 3 && fits_bytes(ctx.vmid, self.vmid_bytes) && fits_bytes(ctx.cid, self.cid_bytes)
    }
}

impl Default for Settings {
    ghost use Rattle.etm_types.specs.Settings.{default_sizes};

    /// Those of a trace unit of which nothing else is told.
    fn default() -> Settings
        ensures { result ≡ default_sizes }
    {
        Settings {
            depth: 16,
            vmid_bytes: 1,
            cid_bytes: 4,
        }
    }
}

ghost use Rattle.etm_types.specs.Sizes.{is_vmid_size, is_cid_size};

fn is_vmid_size(n: u8) -> bool
    ensures { result ≡ is_vmid_size n }
{
    matches!(n, 0 | 1 | 2 | 4)
}

fn is_cid_size(n: u8) -> bool
    ensures { result ≡ is_cid_size n }
{
    matches!(n, 0 | 4)
}

/// Whether a number fits so many bytes.
fn fits_bytes(n: u32, bytes: u8) -> bool
    requires { bytes ≤ 4 }
    ensures { IsTrue result ↔ (n < 256 ^ bytes) }
{
    match bytes {
        0 => n == 0,
        1 => n < 1 << 8,
        2 => n < 1 << 16,
        3 => n < 1 << 24,
        _ => true,
    }
}
