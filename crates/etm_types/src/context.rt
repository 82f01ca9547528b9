//! The context in which code is executed (Arm IHI 0064, context elements and context packets).

/// Exception level, security state, VMID and context ID.
#[derive(Clone, Copy, Debug, PartialEq, Eq)]
pub struct Ctx {
    /// The exception level, 0 to 3.
    pub el: u8,
    /// Whether the state is Non-secure.
    pub ns: bool,
    /// The virtual context identifier.
    pub vmid: u32,
    /// The context identifier.
    pub cid: u32,
}

impl Ctx {
    ghost use Rattle.std.specs.Prelude.{◌≡◌};
    ghost use Rattle.etm_types.specs.Context.{initial_context};

    /// The context before a trace has given one: EL0 in Secure state, VMID 0 and context ID 0.
    pub fn initial() -> Ctx
        ensures { result ≡ initial_context }
    {
        Ctx {
            el: 0,
            ns: false,
            vmid: 0,
            cid: 0,
        }
    }
}

/// What a context packet carries: the VMID and the context ID only where they are needed.
#[derive(Clone, Copy, Debug, PartialEq, Eq)]
pub struct CtxBits {
    /// The exception level, 0 to 3.
    pub el: u8,
    /// Whether the state is Non-secure.
    pub ns: bool,
    /// The virtual context identifier, where the packet carries it.
    pub vmid: Option<u32>,
    /// The context identifier, where the packet carries it.
    pub cid: Option<u32>,
}

impl CtxBits {
    ghost use Rattle.std.specs.Prelude.{◌≡◌};
    ghost use Rattle.etm_types.specs.CtxBits.{bits_against, context_told};

    /// What gives a context after the last one: the VMID and the context ID are carried exactly where
    /// they differ from it.
    pub fn against(last: &Ctx, ctx: &Ctx) -> CtxBits
        ensures value { result ≡ bits_against last.now ctx.now }
        ensures gives_it { context_told result last.now ≡ ctx.now }
    {
        CtxBits {
            el: ctx.el,
            ns: ctx.ns,
            vmid: if_changed(last.vmid, ctx.vmid),
            cid: if_changed(last.cid, ctx.cid),
        }
    }

    /// The context that is given after the last one: what is not carried is as in the last one.
    pub fn apply(&self, last: &Ctx) -> Ctx
        ensures { result ≡ context_told self.now last.now }
    {
        Ctx {
            el: self.el,
            ns: self.ns,
            vmid: self.vmid.unwrap_or(last.vmid),
            cid: self.cid.unwrap_or(last.cid),
        }
    }
}

ghost use Rattle.std.specs.Prelude.{◌≡◌};
ghost use Rattle.std.specs.Option.{unwrap_or};
ghost use Rattle.etm_types.specs.CtxBits.{if_changed};

/// A number, where it differs from the last one.
fn if_changed(last: u32, new: u32) -> Option<u32>
    ensures value { result ≡ if_changed last new }
    ensures gives_it { unwrap_or result last ≡ new }
{
    if new == last {
        return None;
    }
    Some(new)
}
