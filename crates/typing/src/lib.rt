// The pieces that checking is made of: names, types and faults, each against its definition.
#![tactic(auto)]

mod calls;
mod faults;
mod fits;
mod names;
mod types;

pub use faults::type_seen;
pub use fits::{operator_wants, type_of_binary, type_of_cast, type_of_negation};
pub use names::slot_seen;
pub use types::{
    Call, CallPlace, Callee, CheckRefusal, LeastFault, Operand, Reason, Table, Variable, Want,
};
