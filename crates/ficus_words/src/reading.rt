ghost use Rattle.std.specs.Prelude.{◌≡◌, IfOk, IsErrOf, map, string_bytes};
ghost use Rattle.ficus_words.specs.MemberMode.{AreMemberWords, AreNoMemberWords};
ghost use Rattle.ficus_words.specs.Mode.{AreWords, AreNoWords};

use crate::given::read_given;
use crate::member_mode::read_member_mode;
use crate::mode::read_mode;
use crate::{MemberMode, Mode, WordsFault};
use std::alloc::Global;

/// The mode that the words ask for, the program's name first. `Usage` comes exactly where they are those of no mode.
pub fn read_words(alloc: Global, words: &[String]) -> Result<Mode, WordsFault>
    ensures read { IfOk result (AreWords (map string_bytes words.now)) }
    ensures usage { IsErrOf result WordsFault.Usage → AreNoWords (map string_bytes words.now) }
{
    let given = read_given(alloc, words)?;
    read_mode(alloc, &given)
}

/// The mode of one member that the words ask for, the program's name first. `Usage` comes exactly where they are those
/// of no such mode. No words are also those of a `Mode` (`one_call`).
pub fn read_member_words(alloc: Global, words: &[String]) -> Result<MemberMode, WordsFault>
    ensures read { IfOk result (AreMemberWords (map string_bytes words.now)) }
    ensures usage { IsErrOf result WordsFault.Usage → AreNoMemberWords (map string_bytes words.now) }
{
    let given = read_given(alloc, words)?;
    read_member_mode(alloc, &given)
}
