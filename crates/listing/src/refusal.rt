// Why a listing is not written.
#[derive(Clone, Copy, PartialEq, Eq, Debug)]
pub enum Unwritable {
    // outside 1 to 256
    Interval,
    // outside 1 to 8
    Turns,
    // above 4,096
    Trips,
    // above 8
    Stages,
}
