//! The steps of a run: executed instructions, and exceptions.
ghost use Rattle.std.specs.Prelude.{◌≡◌};
ghost use Rattle.spec_run.specs.Kinds.{is_cond, is_isb, is_p0_kind, took_of};

use etm_types::Ctx;

/// What a step is. All but plain ones are P0 steps (Arm IHI 0064, P0 elements).
#[derive(Clone, Copy, Debug, PartialEq, Eq)]
pub enum StepKind {
    /// An instruction that is not traced.
    Plain,
    /// An ISB.
    Isb,
    /// A branch to a fixed target.
    Jump,
    /// A conditional branch.
    Cond { taken: bool },
    /// An indirect branch, with a link where it is a call.
    Ind { link: bool },
    /// An ERET.
    Eret,
    /// An exception of this kind.
    Exc { kind: u8 },
}

impl StepKind {
    /// Whether a step of this kind is a P0 step.
    pub fn is_p0(&self) -> bool
        ensures { result ≡ is_p0_kind self.now }
    {
        !matches!(self, StepKind::Plain)
    }

    /// Whether it is an ISB.
    pub fn is_isb(&self) -> bool
        ensures { result ≡ is_isb self.now }
    {
        matches!(self, StepKind::Isb)
    }

    /// Whether it is a conditional branch.
    pub fn is_cond(&self) -> bool
        ensures { result ≡ is_cond self.now }
    {
        matches!(self, StepKind::Cond { .. })
    }

    /// Whether it is a conditional branch, and was taken.
    pub fn took(&self) -> bool
        ensures { result ≡ took_of self.now }
    {
        matches!(self, StepKind::Cond { taken: true })
    }
}

/// An executed instruction, or an exception.
#[derive(Clone, Copy, Debug, PartialEq, Eq)]
pub struct RunStep {
    /// Where the instruction stands; of an exception, its return address.
    pub addr: u64,
    /// The context in which it was executed, or that the exception interrupted.
    pub ctx: Ctx,
    pub kind: StepKind,
    /// Where the core goes on.
    pub next: u64,
    /// Whether it is a call: BL or BLR.
    pub link: bool,
}
