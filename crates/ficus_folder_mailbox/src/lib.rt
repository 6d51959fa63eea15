//! A mailbox over two folders of the system: messages as files.
#![tactic(auto)]

mod folder_mailbox;
mod incoming;
mod outgoing;
mod place;

pub use folder_mailbox::{FolderMailbox, SystemMailbox};
