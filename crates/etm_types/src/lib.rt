//! The values that the layers of the reader pass on: settings and stream IDs, the contexts of executed
//! code, the values that packets carry, the elements of a trace, what the walk of a P0 element shows, the
//! items of a path, and the faults of a reader above the packets.
//!
//! Ranges stand where a call asks for them: [`Settings`], [`SettingsTable`] and [`Id`] have private
//! fields and exist only in their range, the other types are open. The terms are those of the ETMv4 architecture (Arm
//! IHI 0064): a P0 element is an atom or an exception, and a context is the exception level, the
//! security state, the VMID and the context ID.
#![tactic(auto)]

mod address;
mod atoms;
mod context;
mod element;
mod id;
mod item;
mod queue_fault;
mod settings;
mod settings_table;
mod walk_fault;
mod walked;

pub use address::AddrForm;
pub use atoms::{AtomRun, FewAtoms, MOST_ATOMS};
pub use context::{Ctx, CtxBits};
pub use element::{Elem, Entry, P0, Pre, Thing};
pub use id::Id;
pub use item::Item;
pub use queue_fault::QueueFault;
pub use settings::{Settings, SettingsFault};
pub use settings_table::SettingsTable;
pub use walk_fault::WalkFault;
pub use walked::{ExcMark, Walked};
