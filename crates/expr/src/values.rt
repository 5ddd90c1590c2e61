// The values on which code is worked out where something may fault.
use super::computed::Cause;
use rows::row::Row;

pub mod fill;

/// Values not yet used, at most 200: a line has no more code than bytes.
#[derive(Clone, Copy)]
pub struct Values {
    values: Row<Result<i32, Cause>, 200>,
}
