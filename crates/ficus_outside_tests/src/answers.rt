// What the calls of a sink answer.
use ficus_faults::Failed;
use ficus_outside::Sink;

/// Whether the puts of the pieces answer so.
pub fn puts_all<S: Sink>(sink: &mut S, puts: &[(&str, Result<usize, Failed>)]) -> bool {
    for (piece, answer) in puts {
        if sink.put(piece.as_bytes()) != *answer {
            return false;
        }
    }
    true
}
