// What write refuses. `number` in specs/Written.antt gives each its number.
#[derive(Clone, Copy, PartialEq, Eq, Debug)]
pub enum WriteRefusal {
    NotEnrolled,
    BufferTooShort,
}
