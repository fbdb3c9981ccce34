//! Rows of a table, by their places.
ghost use Rattle.std.specs.Prelude.{◌≡◌, ◌^◌, ◌<◌, length};
ghost use Rattle.gq_filter.specs.Rows.{count_in, row_in};

/// Rows of a table, each at its place, counted from 0.
#[derive(Clone, Copy)]
pub enum Rows<'r> {
    /// Those from `low` up to, but without, `high`.
    Span { low: u32, high: u32 },
    /// These.
    List(&'r [u32]),
}

impl Rows<'_> {
    /// How many places there are.
    pub fn len(&self) -> u32
        requires { count_in self.now < 2 ^ 32 }
        ensures { result ≡ count_in self.now }
    {
        match *self {
            Rows::Span { low, high } => high.saturating_sub(low),
            Rows::List(rows) => rows.len() as u32,
        }
    }

    /// The row at a place.
    pub fn row(&self, place: u32) -> u32
        requires { place < count_in self.now }
        ensures { result ≡ row_in self.now place }
    {
        match *self {
            Rows::Span { low, high } => {
                let _end = high;
                low + place
            }
            Rows::List(rows) => rows[place as usize],
        }
    }
}
