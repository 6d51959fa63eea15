//! What a pair of disks holds of what a replica saves where records stand behind an image: what these lead to.

mod following;
mod laws;

pub use following::led_by;
pub use laws::one_led;
