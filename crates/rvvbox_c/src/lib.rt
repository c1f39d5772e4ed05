//! What a host in C calls: to check an image, to run it on the host's own bytes, once or many times,
//! or by a number of steps at a time, and to try any image.
#![tactic(auto)]

mod accept;
mod apart;
mod attaching;
mod calls;
mod explain;
mod facts;
mod forms;
mod handles;
mod held;
mod kept;
mod loose;
mod makes;
mod opened;
mod opening;
mod run_slot;
mod running;
mod runs;
mod sessions;
mod slot;
mod standing;
mod status;
mod tries;

pub use apart::{Place, rvvbox_apart};
pub use attaching::rvvbox_attach_raw;
pub use calls::{Setting, rvvbox_check_raw, rvvbox_version};
pub use explain::rvvbox_explain_raw;
pub use facts::{
    Budget, Parameter, Scalars, rvvbox_bound_of, rvvbox_budget_of, rvvbox_parameters_of,
    rvvbox_vlen_of,
};
pub use forms::{Form, Forms};
pub use handles::{rvvbox_accept_raw, rvvbox_free, rvvbox_share};
pub use held::Held;
pub use kept::Kernel;
pub use makes::{Takes, rvvbox_make_raw};
pub use opened::{Progress, Registers};
pub use opening::{rvvbox_open_again_raw, rvvbox_open_raw};
pub use run_slot::RunSlot;
pub use running::Run;
pub use runs::rvvbox_run_raw;
pub use sessions::{
    rvvbox_byte_of, rvvbox_close_raw, rvvbox_drop, rvvbox_go_on, rvvbox_registers_of,
};
pub use slot::Slot;
pub use standing::Standing;
pub use status::{Bound, Refusal};
pub use tries::{Stopped, rvvbox_try_raw};
