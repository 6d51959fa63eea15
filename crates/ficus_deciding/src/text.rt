ghost use Rattle.ficus_durable_state.specs.Saved.{FitsImage};
ghost use Rattle.ficus_file.specs.Version.{HasTwoTexts};
ghost use Rattle.ficus_rules.specs.Text.{IsTextOf};
ghost use Rattle.ficus_deciding.specs.Files.{IsFileIn};
ghost use Rattle.ficus_deciding.specs.View.{tables_view};

use ficus_durable_state::Saved;
use ficus_file::FileReplica;

/// The text of a file whose versions all have one.
pub(crate) fn text_of<'a>(saved: &Saved, file: &'a FileReplica) -> &'a [u8]
    requires fits { FitsImage saved.now }
    requires file { IsFileIn saved.now file.now }
    requires one_text { HasTwoTexts file.now.versions → ⊥ }
    ensures { IsTextOf (tables_view saved.now) file.now.id result.now }
{
    file.bytes()
}
