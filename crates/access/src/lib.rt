// Instructions that look a class up under the frame class's loader: getfield, putfield, invokevirtual and new. Each function decides on shared tables and
// answers what is missing, or a plan; what is missing is refused where it was looked for.
#![tactic(auto)]

mod fields; // fields.rt: getfield and putfield
mod making; // making.rt: new
mod methods; // methods.rt: invokevirtual
mod passing; // passing.rt: the arguments of a call
mod receivers; // receivers.rt: whether a receiver is right

pub use fields::{getfield, putfield};
use instructions::Plan;
pub use making::new_object;
pub use methods::invokevirtual;

// What was looked up was found in a class of that loader, and a plan says the rest.
#[derive(Clone, Copy)]
pub struct Access {
    pub loader: u16,
    pub plan: Plan,
}

// A field that was looked up: the class from which it was sought, and the class that declares it.
#[derive(Clone, Copy)]
struct DeclaredField {
    from: u32,
    class: u32,
}
