ghost use Rattle.std.specs.Prelude.{◌≡◌, ◌≤◌, ◌++◌, OnOk, OnErr};
ghost use Rattle.ficus_faults.specs.Faults.{Rose};
ghost use Rattle.ficus_loop.specs.Puts.{PutsFront};

use ficus_faults::Failed;
use ficus_outside::Sink;

/// Puts all the bytes. Where the sink fails, a front of them was put.
pub fn put_all<K: Sink>(output: &mut K, bytes: &[u8]) -> Result<(), Failed>
    ensures put { OnOk result (K.tells → K.written output.new ≡ K.written output.old ++ bytes.now) }
    ensures front { OnErr result (K.tells → PutsFront (K.written output.old) bytes.now (K.written output.new)) }
    ensures failed { OnErr result (Rose (K.faults output.old) (K.faults output.new)) }
    ensures steady { OnOk result (K.faults output.new ≡ K.faults output.old) }
    ensures counted { K.faults output.old ≤ K.faults output.new }
{
    let mut rest = bytes;
    while !rest.is_empty() {
        let count = output.put(rest)?;
        if count == 0 {
            return Err(Failed);
        }
        rest = &rest[count..];
    }
    Ok(())
}
