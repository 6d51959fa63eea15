ghost use Rattle.std.specs.Prelude.{◌≡◌, ◌+◌, ◌≤◌, ◌++◌, [], false, true, Ok, IfOk, IsErrOf, OnErr, OnOk, string_bytes, string_capacity, string_len};
ghost use Rattle.ficus_faults.specs.Faults.{Rose};
ghost use Rattle.ficus_file_disk.specs.Told.{AreRefused};
ghost use Rattle.ficus_folder_mailbox.specs.Mail.{HasSameFolders, IsLookedUp, Mailed, MarksOutbox, faults_of, file_in, folder_of, inbox_of, makes, nothing_given, nothing_posted, outbox_of, writes};
ghost use Rattle.ficus_mailbox.specs.Calls.{Finds, IsWithin, Puts};
ghost use Rattle.ficus_mailbox.specs.FileName.{IsFileName};
ghost use Rattle.ficus_mailbox.specs.MessageName.{name_text};
ghost use Rattle.ficus_mailbox.specs.declared.found.Found.TheVariants.{Nothing};

use crate::incoming::look_up;
use crate::outgoing::{make_folder, write_whole};
use crate::place::compose;
use ficus_faults::{Failed, Faults};
use ficus_file_disk::{Runtime, System};
use ficus_ids::Memory;
use ficus_mailbox::{FindFault, Found, Mailbox, MessageName, NAME_TEXT_LIMIT, file_name};
use std::alloc::Global;
use std::io;
use std::marker::Model;
use std::rt::Files;

/// A mailbox over the folders `in` and `out` in the folder of a member. It tells nothing of what comes and goes, and
/// what it asked of the system where this tells it.
///
/// Nothing is touched before the first call. What came for the member is a file in `in`; one that is larger than a
/// message with its tag isn't read. What is put is written to `out/.NAME` and synced, then renamed to `out/NAME`, and
/// the folder is synced: so whoever finds a file there finds the whole of it, and one beside it that a kill has left is
/// emptied by the next put of its name. The first put makes `out` where it is missing, and syncs the folder above it.
/// Any refusal of the system is a fault, but that a file that is looked for isn't there.
#[derive(Drop)]
pub struct SystemMailbox<S: System + Drop> {
    system: S,
    faults: Faults,
    folder: String,
    inbox: String,
    outbox: String,
    is_made: bool,
    // Room for the paths of a file that is put.
    beside: String,
    place: String,
}

/// A mailbox over folders of a runtime, which tells nothing of what it was asked.
pub type FolderMailbox<R> = SystemMailbox<Runtime<R>>;

impl<S: System + Drop> Model for SystemMailbox<S> {
    ghost use Rattle.std.specs.Prelude.{◌≡◌, ◌+◌, ◌≤◌, string_bytes, string_capacity, string_len};
    ghost use Rattle.ficus_folder_mailbox.specs.Mail.{Mailed, inbox_of, outbox_of};

    ghost Value = { Mailed };

    ghost view = { λ m. record {
      folder = string_bytes m.folder;
      faults = m.faults;
      is_made = m.is_made;
      told = S.told m.system;
    } };

    ghost invariant = { λ m. (string_bytes m.inbox ≡ inbox_of (string_bytes m.folder))
        × (string_bytes m.outbox ≡ outbox_of (string_bytes m.folder))
        × (string_len m.outbox + 112 ≤ string_capacity m.beside)
        × (string_len m.outbox + 112 ≤ string_capacity m.place) };
}

impl<R: Files + Clone + Drop> SystemMailbox<Runtime<R>> {
    /// The mailbox of replica `replica` in the folder of a volume, below `ROOT/r`.
    pub fn new(rt: R, alloc: Global, root: &str, replica: u8) -> Result<FolderMailbox<R>, Memory>
        ensures { IfOk result (λ mailbox. mailbox ≡ record {
          folder = folder_of root.now replica;
          faults = 0;
          is_made = false;
          told = [];
        }) }
    {
        let folder = format!(in alloc; "{root}/{replica}")?;
        SystemMailbox::over(Runtime::new(rt), alloc, folder)
    }
}

impl<S: System + Drop> SystemMailbox<S> {
    /// The mailbox below this folder of a member, in the terms of this system, with no fault counted. All memory for
    /// the paths of what is put is taken here.
    pub fn over(system: S, alloc: Global, folder: String) -> Result<SystemMailbox<S>, Memory>
        ensures { IfOk result (λ mailbox. mailbox ≡ record {
          folder = string_bytes folder;
          faults = 0;
          is_made = false;
          told = S.told system;
        }) }
    {
        let inbox = format!(in alloc; "{folder}/in")?;
        let outbox = format!(in alloc; "{folder}/out")?;
        let beside = room_behind(alloc, &outbox)?;
        let place = room_behind(alloc, &outbox)?;
        Ok(SystemMailbox {
            system,
            faults: Faults::new(),
            folder,
            inbox,
            outbox,
            is_made: false,
            beside,
            place,
        })
    }

    /// The system.
    pub fn into_inner(self) -> S
        ensures { S.told result ≡ self.told }
    {
        let SystemMailbox { system, .. } = self;
        system
    }

    // What stands under the name, with each refusal of the system counted.
    fn try_find(&mut self, alloc: Global, name: &[u8]) -> Result<Found, FindFault>
        ensures nameless { (IsFileName name.now → ⊥) → result ≡ Ok Nothing }
        ensures unasked { (IsFileName name.now → ⊥) → self.new ≡ self.old }
        ensures within { IfOk result IsWithin }
        ensures stays { HasSameFolders self.old self.new }
        ensures failed { IsErrOf result FindFault.Failed → Rose self.old.faults self.new.faults }
        ensures memory { IsErrOf result FindFault.Memory → self.new.faults ≡ self.old.faults }
        ensures steady { OnOk result (self.new.faults ≡ self.old.faults) }
        ensures risen { self.old.faults ≤ self.new.faults }
        ensures asked { S.tells → IsFileName name.now → IfOk result
            (IsLookedUp (file_in (inbox_of self.old.folder) name.now) self.old.told self.new.told) }
        ensures refused { S.tells → IsErrOf result FindFault.Failed → AreRefused self.old.told self.new.told }
    {
        let Some(text) = file_name(name) else {
            return Ok(Found::Nothing);
        };
        let path = path_in(alloc, &self.inbox, text)?;
        let found = look_up(alloc, &mut self.system, &path);
        if let Err(FindFault::Failed) = &found {
            self.faults.raise();
        }
        found
    }

    // Puts a message, with the system's errors.
    fn try_put(&mut self, name: MessageName, message: &[u8]) -> io::Result<()>
        ensures marks { MarksOutbox S.tells self.old self.new result }
        ensures faults { self.new.faults ≡ self.old.faults }
        ensures told { S.tells → OnOk result (self.new.told ≡ self.old.told ++ makes self.old.is_made self.old.folder
            ++ writes (outbox_of self.old.folder) (name_text name) message.now) }
        ensures refused { S.tells → OnErr result (AreRefused self.old.told self.new.told) }
    {
        self.make_outbox()?;
        let text = name.text();
        compose(&mut self.beside, &self.outbox, "/.", text.as_str());
        compose(&mut self.place, &self.outbox, "/", text.as_str());
        write_whole(
            &mut self.system,
            &self.outbox,
            &self.beside,
            &self.place,
            message,
        )
    }

    // The same, with each error counted as a fault.
    fn counted_put(&mut self, name: MessageName, message: &[u8]) -> Result<(), Failed>
        ensures marks { MarksOutbox S.tells self.old self.new result }
        ensures failed { OnErr result (Rose self.old.faults self.new.faults) }
        ensures steady { OnOk result (self.new.faults ≡ self.old.faults) }
        ensures risen { self.old.faults ≤ self.new.faults }
        ensures asked { S.tells → OnOk result (self.new.told ≡ self.old.told ++ makes self.old.is_made self.old.folder
            ++ writes (outbox_of self.old.folder) (name_text name) message.now) }
        ensures refused { S.tells → OnErr result (AreRefused self.old.told self.new.told) }
    {
        match self.try_put(name, message) {
            Ok(()) => Ok(()),
            Err(_) => Err(self.faults.raise()),
        }
    }

    // Makes the folder of what is put, unless this was done.
    fn make_outbox(&mut self) -> io::Result<()>
        ensures marks { MarksOutbox S.tells self.old self.new result }
        ensures faults { self.new.faults ≡ self.old.faults }
        ensures told { S.tells → OnOk result (self.new.told ≡ self.old.told ++ makes self.old.is_made self.old.folder) }
        ensures refused { S.tells → OnErr result (AreRefused self.old.told self.new.told) }
    {
        if !self.is_made {
            make_folder(&mut self.system, &self.outbox, &self.folder)?;
            self.is_made = true;
        }
        Ok(())
    }
}

// The path of a file in a folder.
fn path_in(alloc: Global, folder: &str, name: &str) -> Result<String, Memory>
    ensures { IfOk result (λ path. string_bytes path ≡ file_in folder.now name.now) }
{
    Ok(format!(in alloc; "{folder}/{name}")?)
}

// A text with room for the path of a message below this folder.
fn room_behind(alloc: Global, folder: &String) -> Result<String, Memory>
    ensures { IfOk result (λ room. string_len folder.now + 112 ≤ string_capacity room) }
{
    let size = folder.len().saturating_add(NAME_TEXT_LIMIT + 2);
    Ok(String::with_capacity(alloc, size)?)
}

impl<S: System + Drop> Mailbox for SystemMailbox<S> {
    ghost given = { nothing_given };

    ghost posted = { nothing_posted };

    ghost faults = { faults_of };

    fn find(&mut self, alloc: Global, name: &[u8]) -> Result<Found, FindFault>
        ensures finds { Finds ⊥ nothing_given nothing_posted faults_of name.now self.old self.new result }
        ensures unasked { (IsFileName name.now → ⊥) → self.new ≡ self.old }
        ensures stays { HasSameFolders self.old self.new }
        ensures asked { S.tells → IsFileName name.now → IfOk result
            (IsLookedUp (file_in (inbox_of self.old.folder) name.now) self.old.told self.new.told) }
        ensures refused { S.tells → IsErrOf result FindFault.Failed → AreRefused self.old.told self.new.told }
    {
        self.try_find(alloc, name)
    }

    fn put(&mut self, name: MessageName, message: &[u8]) -> Result<(), Failed>
        ensures puts { Puts ⊥ nothing_given nothing_posted faults_of (record { name = name; bytes = message.now })
            self.old self.new result }
        ensures marks { MarksOutbox S.tells self.old self.new result }
        ensures asked { S.tells → OnOk result (self.new.told ≡ self.old.told ++ makes self.old.is_made self.old.folder
            ++ writes (outbox_of self.old.folder) (name_text name) message.now) }
        ensures refused { S.tells → OnErr result (AreRefused self.old.told self.new.told) }
    {
        self.counted_put(name, message)
    }
}
