//! What the annotations of a source whose types were checked say, and which functions are in the interface of a cut.
#![tactic(auto)]

mod builtins;
mod cut;
mod declarations;
mod error;
mod functions;
mod iface;
mod interface;
mod laws;
mod reading;
mod source;

pub use cut::interface_of;
pub use error::InterfaceError;
pub use iface::Iface;
pub use laws::interfaces_say_what_annotations_say;
