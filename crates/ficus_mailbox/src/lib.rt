//! Messages as files: their names, where a member finds those that came for it, and where it puts those that it posts.
#![tactic(auto)]

mod found;
mod letter;
mod mailbox;
mod mem_mailbox;
mod message_name;
mod naming;

pub use found::{FindFault, Found, Given};
pub use letter::{Filed, LETTER_LIMIT, Letter};
pub use mailbox::Mailbox;
pub use mem_mailbox::MemMailbox;
pub use message_name::{MessageName, NAME_TEXT_LIMIT, one_message_name};
pub use naming::{FILE_NAME_LIMIT, file_name};
