// The value of a function at one argument, and its derivative there.
#[derive(Clone, Copy)]
pub struct Pair {
    pub value: f64,
    pub derivative: f64,
}
