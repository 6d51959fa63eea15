ghost use Rattle.std.specs.Prelude.{◌≡◌, [], IfOk};

use crate::Row;
use ficus_ids::{Id, Memory};
use ficus_persistent::{Item, Spelled};
use std::alloc::Global;

/// A row of which a look shows the whole, so that a walk along rows finds the rows themselves.
#[derive(Drop)]
pub(crate) struct Entire<R: Row> {
    row: R,
}

impl<R: Row> Item for Entire<R> {
    fn copied(&self) -> Result<Entire<R>, Memory>
        ensures { IfOk result (λ entire. entire ≡ self.now) }
    {
        let row = self.row.copied()?;
        Ok(Entire { row })
    }
}

// It stands in walks alone, which nothing spells.
impl<R: Row> Spelled for Entire<R> {
    ghost spell = { λ _. [] };

    fn put(&self, _out: &mut Vec<u8>) -> Result<(), Memory> {
        Ok(())
    }

    fn spelled_len(&self) -> usize {
        0
    }
}

impl<R: Row> Row for Entire<R> {
    type Seen = R;

    type Form = R;

    ghost seen = { λ entire. entire.row };

    ghost formed = { λ form entire. form };

    ghost id_of = { λ row. R.id_of (R.seen row) };

    fn look(&self) -> &R {
        &self.row
    }

    fn formed<'a>(&'a self, form: &'a R) -> &'a R {
        form
    }

    fn reformed(&self, _alloc: Global, form: &R) -> Result<Entire<R>, Memory> {
        let row = form.copied()?;
        Ok(Entire { row })
    }

    fn id(item: &R) -> Id {
        R::id(item.look())
    }
}
