// The work lists of a drawing, cell beside cell: a tally, and the place at which the last run starts that gives it.
// They are two lists and not one of pairs: C and each caller of `draw` lend one of tallies and one of places.
// That the lists are long enough is asked by each function that writes them: if they held their search beside a fact on it,
// each of these would have to say that it leaves the search.
#[derive(Drop)]
pub(crate) struct Cells<'a, T> {
    pub(crate) tallies: &'a mut [T],
    pub(crate) links: &'a mut [u16],
}
