//! Several volumes that are joined where names lead from one to another: the paths of a line are followed through them
//! by looks, and its command is carried out in the volume where they end. No program uses it yet.

mod answering;
mod behind;
mod courses;
mod crossing;
mod following;
mod laws;
mod volumes;

pub use answering::answer_lines;
pub use laws::{one_route, same_sent_same_answers};
pub use volumes::Volumes;
