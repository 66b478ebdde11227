//! What callers see of the components of an office: whether a process unit exists, a component as entered in the register, and its
//! judged events, each as known on a day.
#![tactic(auto)]

mod histories;

pub use histories::Histories;
