//! The texts of a number.
ghost use Rattle.std.specs.Prelude.{◌≡◌, ◌≤◌, IfOk};
ghost use Rattle.bench_gen.specs.Bench.{generated};

use crate::streams::push_streams;
use crate::weaves::push_weaves;
use std::alloc::{AllocError, Global};
use std::marker::Model;

/// The texts of an image and of a run file. Contracts see it as its two byte lists.
#[derive(Drop, Debug)]
pub struct Generated {
    image: Vec<u8>,
    bench: Vec<u8>,
}

impl Model for Generated {
    ghost use Rattle.bench_gen.specs.Texts.{Texts};

    ghost Value = { Texts };

    ghost view = { λ g. record { image = g.image.items; bench = g.bench.items } };
}

impl Generated {
    /// The text of the image.
    pub fn image(&self) -> &[u8]
        ensures { result.now ≡ self.now.image }
    {
        &self.image
    }

    /// The text of the run file.
    pub fn bench(&self) -> &[u8]
        ensures { result.now ≡ self.now.bench }
    {
        &self.bench
    }
}

/// NOP, CBZ to 10010, B to 10014, NOP, NOP, B to 10000; and ERET, where exceptions go.
const IMAGE: [u8; 77] =
    *b"@10000\n1f2003d5 600000b4 03000014 1f2003d5 1f2003d5 fbffff17\n@20000\ne0039fd6\n";

/// The settings of the trace units.
const SETTINGS: [u8; 37] = *b"etm 1\ndepth 16\nvmid 1\ncid 4\nstack 15\n";

/// The texts of a number of up to five digits. The error means want of memory. The run file takes up to 5 MB, and the
/// time goes with its length.
#[tactic(auto, unfolding(crate::specs::Bench::generated))]
pub fn generate(alloc: Global, n: u32) -> Result<Generated, AllocError>
    requires { n ≤ 99999 }
    ensures value { IfOk result (λ g. g ≡ generated n) }
{
    let mut image = Vec::new(alloc);
    image.extend_from_slice(&IMAGE)?;
    let mut bench = Vec::new(alloc);
    bench.extend_from_slice(&SETTINGS)?;
    push_streams(&mut bench, n)?;
    push_weaves(&mut bench, n)?;
    Ok(Generated { image, bench })
}
