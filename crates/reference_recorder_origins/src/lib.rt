//! Laws: what a run leaves does not depend on the origins of its loads and stores, the globals that paths begin with. Code that
//! runs tells no origins, so a list of marks that is put together from what it tells has none.
#![tactic(auto)]

mod laws;

pub use laws::{
    calls_have_no_origins, events_have_no_origins, memory_has_no_origins,
    open_calls_have_no_origins, races_have_no_origins,
};
