ghost use Rattle.std.specs.Prelude.{◌≡◌, IfOk, IfErr};
ghost use Rattle.ficus_ids.specs.Rising.{IsRisingBy, IsFoundAtBy, IsPlaceBy};

use crate::Row;
use ficus_ids::Id;
use ficus_persistent::{Cut, PersistentList};

/// The cut in front of an identifier.
#[derive(Clone, Copy)]
struct BeforeId {
    id: Id,
}

impl<R: Row> Cut<R> for BeforeId {
    ghost use Rattle.std.specs.Ordering.{is_lt};
    ghost use Rattle.ficus_ids.specs.Id.{id_cmp};

    ghost is_before = { λ cut row. is_lt (id_cmp (R.id_of (R.seen row)) cut.id) };

    #[tactic(auto, unfolding(ficus_ids::specs::Id::id_cmp))]
    fn is_before(&self, row: &R) -> bool {
        R::id(row.look()) < self.id
    }
}

/// Where the row with the identifier is, or where one with it would go.
pub(crate) fn search<R: Row>(list: &PersistentList<R>, id: Id) -> Result<usize, usize>
    requires { IsRisingBy (λ row. R.id_of (R.seen row)) list.now }
    ensures found { IfOk result (IsFoundAtBy (λ row. R.id_of (R.seen row)) list.now id) }
    ensures place { IfErr result (IsPlaceBy (λ row. R.id_of (R.seen row)) list.now id) }
{
    let index = list.partition_point(&BeforeId { id });
    if index < list.len() && R::id(list.at(index).look()) == id {
        Ok(index)
    } else {
        Err(index)
    }
}
