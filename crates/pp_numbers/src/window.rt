/// How many turns a picture has at most, to be readable (decimal).
pub const MOST_TURNS: u32 = 2000;

/// The turns that are drawn (decimal): from one on, and before another.
#[derive(Clone, Copy)]
pub struct Window {
    pub from: u32,
    pub to: u32,
}
