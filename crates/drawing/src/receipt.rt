// What a drawing returns.
#[derive(Clone, Copy, PartialEq, Eq, Debug)]
pub struct Receipt<T> {
    // what it costs to show the pixels by the table
    pub tally: T,
    // how many bins the table has
    pub bins: u16,
    // how many runs were candidates for a bin
    pub priced: u64,
    // how many path steps there were
    pub compared: u64,
}
