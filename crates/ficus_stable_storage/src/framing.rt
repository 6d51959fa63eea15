// What a save writes stands in a frame: an image, or the record of what has changed.
ghost use Rattle.std.specs.Prelude.{◌≡◌, ◌+◌, ◌≤◌, ◌++◌, ℕ, List, IfOk, OnOk, length, max, vec_capacity};
ghost use Rattle.ficus_durable_state.specs.Saved.{FitsImage};
ghost use Rattle.ficus_image.specs.Image.{image_bytes};
ghost use Rattle.ficus_keeper.specs.Framed.{IsFramed, body_in, empty_head, head_size};
ghost use Rattle.ficus_record.specs.Record.{FitsOp, FitsRecord, accept_front, record_bytes};
ghost use Rattle.ficus_record.specs.declared.record.Record.TheVariants.{Change as Changes};

use ficus_durable_state::Saved;
use ficus_ids::{Members, Memory};
use ficus_image::put_image;
use ficus_keeper::{HEAD_SIZE, Wants, begin_frame, end_frame};
use ficus_model::Op;
use ficus_record::{Record, accepted_tables, put_accept_front, put_change, put_record};
use std::alloc::Global;

/// Room for the frames of most records, in bytes.
const RECORD_ROOM: usize = 64;

/// The record of an update, in a frame.
pub fn frame_change(alloc: Global, op: &Op) -> Result<Vec<u8>, Memory>
    requires { FitsOp op.now }
    ensures { (members : ℕ)
        → IfOk result (λ framed. framed.items ≡ empty_head ++ record_bytes members (Changes op.now)) }
{
    let mut framed = record_frame(alloc)?;
    put_change(&mut framed, op)?;
    Ok(framed)
}

/// The record in a volume of so many members, in a frame.
pub fn frame_record(alloc: Global, noted: &Record, members: Members) -> Result<Vec<u8>, Memory>
    requires { FitsRecord members noted.now }
    ensures { IfOk result (λ framed. framed.items ≡ empty_head ++ record_bytes members noted.now) }
{
    let mut framed = record_frame(alloc)?;
    put_record(&mut framed, noted, members)?;
    Ok(framed)
}

/// The record of the taking of tables, in a frame, without the tables: who appends their spelling, as they came, has
/// the whole.
pub fn frame_accept_front(alloc: Global) -> Result<Vec<u8>, Memory>
    ensures { IfOk result (λ framed. framed.items ≡ empty_head ++ accept_front) }
{
    let mut framed = record_frame(alloc)?;
    put_accept_front(&mut framed)?;
    Ok(framed)
}

/// The spelling of the tables in the frame of the record of their taking.
pub fn framed_tables(framed: &[u8]) -> &[u8]
    requires { head_size + length accept_front ≤ length framed.now }
    ensures { (tables : List ℕ) → framed.now ≡ empty_head ++ accept_front ++ tables → result.now ≡ tables }
{
    accepted_tables(&framed[HEAD_SIZE..])
}

// Begins a frame that most records fit.
fn record_frame(alloc: Global) -> Result<Vec<u8>, Memory>
    ensures { IfOk result (λ framed. framed.items ≡ empty_head) }
{
    let mut framed = Vec::with_capacity(alloc, RECORD_ROOM)?;
    begin_frame(&mut framed)?;
    Ok(framed)
}

/// Holds what the keeper wants in a frame, in place of what the buffer holds: the image of what is saved next, or the
/// record that leads to it. A record keeps the room that it came with, but for one byte: what the buffer had is given
/// up.
pub(crate) fn frame_wanted(
    buffer: &mut Vec<u8>,
    wants: Wants,
    next: &Saved,
    noted: Vec<u8>,
) -> Result<(), Memory>
    requires fits { FitsImage next.now }
    requires head { head_size ≤ length noted.items }
    ensures framed { OnOk result (IsFramed buffer.new) }
    ensures image { wants ≡ Wants.Image → OnOk result (body_in buffer.new.items ≡ image_bytes next.now) }
    ensures noted { wants ≡ Wants.Record → OnOk result (body_in buffer.new.items ≡ body_in noted.items) }
    ensures room { wants ≡ Wants.Record → OnOk result (vec_capacity buffer.new
        ≡ max (vec_capacity noted) (1 + length noted.items)) }
{
    match wants {
        Wants::Image => {
            drop(noted);
            frame_image(buffer, next)
        }
        Wants::Record => {
            // What was framed before is given up: an image's room would stand unused behind the records.
            *buffer = noted;
            end_frame(buffer)
        }
    }
}

// Makes a frame of the image.
fn frame_image(buffer: &mut Vec<u8>, saved: &Saved) -> Result<(), Memory>
    requires { FitsImage saved.now }
    ensures framed { OnOk result (IsFramed buffer.new) }
    ensures body { OnOk result (body_in buffer.new.items ≡ image_bytes saved.now) }
{
    begin_frame(buffer)?;
    put_image(buffer, saved)?;
    end_frame(buffer)
}
