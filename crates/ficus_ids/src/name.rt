ghost use Rattle.std.specs.Prelude.{◌≡◌, ◌≢◌, ◌↔◌, ◌≤◌, ◌==◌, List, ℕ, length, Ok, IsTrue, IfOk, IsErrOf};
ghost use Rattle.std.proofs.Common.{rules};
ghost use Rattle.std.specs.Cmp.{partial_order_from_own_ties};
ghost use Rattle.std.specs.Cmp.Lexicographic.{pointwise, slice_cmp};
ghost use Rattle.std.specs.Cmp.Rules.{comparing};
ghost use Rattle.std.specs.Ordering.{nat_cmp, as_partial_cmp};
ghost use Rattle.ficus_ids.specs.Name.{IsName, IsNameByte};

use crate::Memory;
use arrayvec::ArrayVec;
use std::cmp::Ordering;
use std::error::Error;
use std::fmt;
use std::marker::Model;

/// The most bytes that a name has.
pub const NAME_LIMIT: usize = 64;

/// The name of an entry in its directory: 1 to 64 bytes without byte 0, `/` and `#`, and neither `.` nor
/// `..`. Its bytes lie in the value itself, so that a copy takes no memory. Contracts see it as its bytes.
#[derive(Drop)]
pub struct Name {
    bytes: ArrayVec<u8, NAME_LIMIT>,
}

impl Model for Name {
    ghost Value = { List ℕ };

    ghost view = { λ n. n.bytes.items };

    ghost invariant = { λ n. IsName n.bytes.items };
}

/// Why bytes gave no name.
#[derive(Clone, Copy, Debug, PartialEq, Eq)]
pub enum NameFault {
    /// The bytes aren't a name.
    NotName,
    /// Memory was refused. No call answers it so far, since a name lies in the value itself.
    Memory,
}

impl fmt::Display for NameFault {
    ghost use Rattle.std.specs.Prelude.{Some};
    ghost use Rattle.ficus_ids.specs.Name.{fault_text};

    ghost output = { λ fault. Some (fault_text fault) };

    fn fmt<W: fmt::Write>(&self, f: &mut fmt::Formatter<W>) -> fmt::Result {
        f.write_str(match self {
            NameFault::NotName => "not a name",
            NameFault::Memory => "memory",
        })
    }
}

impl Error for NameFault {}

impl Name {
    /// The name of these bytes. `NotName` comes exactly where they aren't a name, and `Memory` never.
    pub fn new(bytes: &[u8]) -> Result<Name, NameFault>
        ensures value { IfOk result (λ name. name ≡ bytes.now) }
        ensures name { IfOk result (λ _. IsName bytes.now) }
        ensures not_name { IsErrOf result NameFault.NotName → (IsName bytes.now → ⊥) }
        ensures memory { IsErrOf result NameFault.Memory → ⊥ }
    {
        if is_name(bytes) {
            Ok(Name { bytes: held(bytes) })
        } else {
            Err(NameFault::NotName)
        }
    }

    /// The bytes, in order.
    pub fn bytes(&self) -> &[u8]
        ensures value { result.now ≡ self.now }
        ensures name { IsName self.now }
    {
        &self.bytes
    }

    /// A copy of the name. `Memory` never comes.
    pub fn copy(&self) -> Result<Name, Memory>
        ensures { result ≡ Ok self.now }
    {
        Ok(Name {
            bytes: held(&self.bytes),
        })
    }
}

/// Names are equal where their bytes are.
impl PartialEq for Name {
    ghost eq = { pointwise ◌==◌ };

    ghost laws = { Prim.search (comparing, rules) };

    fn eq(&self, other: &Name) -> bool {
        self.bytes() == other.bytes()
    }
}

impl Eq for Name {
    ghost laws = { Prim.search (comparing, rules) };
}

impl PartialOrd for Name {
    ghost partial_cmp = { as_partial_cmp (slice_cmp nat_cmp) };

    ghost laws = { partial_order_from_own_ties (Prim.search (comparing, rules)) (Prim.search (comparing, rules)) };

    fn partial_cmp(&self, other: &Name) -> Option<Ordering> {
        Some(self.cmp(other))
    }
}

/// Names are ordered by their bytes: at the first that differs, else the shorter one is first.
impl Ord for Name {
    ghost cmp = { slice_cmp nat_cmp };

    ghost total = { Prim.search (comparing, rules) };

    ghost matches_partial_cmp = { Prim.search (comparing, rules) };

    ghost matches_eq = { Prim.search (comparing, rules) };

    fn cmp(&self, other: &Name) -> Ordering {
        self.bytes().cmp(other.bytes())
    }
}

fn is_name(bytes: &[u8]) -> bool
    ensures { IsTrue result ↔ IsName bytes.now }
{
    !bytes.is_empty()
        && bytes.len() <= NAME_LIMIT
        && bytes != b".".as_slice()
        && bytes != b"..".as_slice()
        && bytes.iter().all(|&byte| is_name_byte(byte))
}

fn is_name_byte(byte: u8) -> bool
    ensures { IsTrue result ↔ IsNameByte byte }
{
    byte != 0 && byte != b'/' && byte != b'#'
}

fn held(bytes: &[u8]) -> ArrayVec<u8, NAME_LIMIT>
    requires { length bytes.now ≤ NAME_LIMIT }
    ensures { result.items ≡ bytes.now }
{
    let mut held = ArrayVec::new();
    for byte in bytes {
        held.push(*byte);
    }
    held
}
