/// How many commands there were, how many of their answers were no refusals and how many were, and how many events they
/// appended.
#[derive(Clone, Copy)]
pub struct Counts {
    pub lines: usize,
    pub ok: u32,
    pub no: u32,
    pub events: u32,
}
