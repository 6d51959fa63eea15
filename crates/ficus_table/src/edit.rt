ghost use Rattle.std.specs.Prelude.{◌≡◌, ◌<◌, ◌==◌, position, vec_len, vec_capacity, None};
ghost use Rattle.std.specs.Option.{option_copied};
ghost use Rattle.ficus_table.specs.Edits.{put_in, form_at};

use std::mem;

/// What has become of the row at an index since the list was made.
#[derive(Drop)]
pub(crate) struct Edit<F> {
    pub(crate) index: usize,
    pub(crate) form: F,
}

/// The place of the first edit at an index.
pub(crate) fn place_of<F>(edits: &[Edit<F>], index: usize) -> Option<usize>
    ensures { result ≡ position (λ edit. edit.index == index) edits.now }
{
    edits.iter().position(|edit| edit.index == index)
}

/// The form that the row at an index has, if there is an edit at it.
pub(crate) fn form_of<F>(edits: &[Edit<F>], index: usize) -> Option<&F>
    ensures { option_copied result ≡ form_at edits.now index }
{
    let place = place_of(edits, index)?;
    Some(&edits[place].form)
}

/// One more edit, in place of an earlier one at its index, whose form it gives back. Takes no memory.
pub(crate) fn put<F: Drop>(edits: &mut Vec<Edit<F>>, edit: Edit<F>) -> Option<F>
    requires room { form_at edits.old.items edit.index ≡ None → vec_len edits.old < vec_capacity edits.old }
    ensures put { edits.new.items ≡ put_in edits.old.items edit }
    ensures capacity { vec_capacity edits.new ≡ vec_capacity edits.old }
    ensures earlier { result ≡ form_at edits.old.items edit.index }
{
    match place_of(edits, edit.index) {
        Some(place) => {
            let earlier = mem::replace(&mut edits[place], edit);
            Some(earlier.form)
        }
        None => {
            edits.push_reserved(edit);
            None
        }
    }
}
