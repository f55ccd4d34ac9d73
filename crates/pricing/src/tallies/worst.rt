// The largest error of any pixel.
#[derive(Clone, Copy, PartialEq, Eq, Debug)]
pub struct Worst {
    pub error: u32,
}
