// The eight steps, each as the change that it makes. The fields of a step are the parameters of its functions, as in `Step`.
mod advance;
mod bad_send;
mod deliver;
mod draft;
mod extending;
mod finalise;
pub mod judge;
pub mod places;
mod propose;
mod register;
mod vote;

pub use finalise::are_consecutive;
