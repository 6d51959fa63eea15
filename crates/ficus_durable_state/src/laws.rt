ghost use Rattle.std.specs.Prelude.{◌≡◌};
ghost use Rattle.ficus_durable_state.specs.Limits.{update_limit, byte_limit, file_limit};
ghost use Rattle.ficus_durable_state.specs.Laws.{MergedTablesFit, ReclaimedTablesFit, MadeTablesFit, EnteredTablesFit, WrittenTablesFit, KilledTablesFit, CoveredTablesFit, TablesAreCountable};

use crate::{BYTE_LIMIT, FILE_LIMIT, UPDATE_LIMIT};

/// The law that the limits of the code are those of the contracts.
pub fn limits()
    ensures updates { UPDATE_LIMIT ≡ update_limit }
    ensures bytes { BYTE_LIMIT ≡ byte_limit }
    ensures file { FILE_LIMIT ≡ file_limit }
{}

/// What the merge of entries and the merge of files make of tables that fit fits too.
pub fn merged_tables_fit()
    ensures { MergedTablesFit }
{}

/// What a collection leaves of tables that fit fits too: each entry that is left has its objects still.
pub fn reclaimed_tables_fit()
    ensures { ReclaimedTablesFit }
{}

/// Tables that fit have fewer than 2^32 entries and files each.
pub fn tables_are_countable()
    ensures { TablesAreCountable }
{}

/// What a new object with its entry, one more entry of an object that is held, removed entries, a new version and
/// covered versions make of tables that fit fits too.
pub fn changed_tables_fit()
    ensures made { MadeTablesFit }
    ensures entered { EnteredTablesFit }
    ensures killed { KilledTablesFit }
    ensures written { WrittenTablesFit }
    ensures covered { CoveredTablesFit }
{}
