//! What all cases share: rows, how they are read, compared and counted; words of rows and of answers; small objects and
//! writes of them; draws.

mod differences;
mod draws;
mod objects;
mod steps;
mod tallies;
mod wording;
mod words;

pub use crate::rows::differences::compare;
pub use crate::rows::draws::Draws;
pub use crate::rows::objects::{key, object, tell_row, tell_rows, write_of};
pub use crate::rows::steps::{Lines, NO_ROW, NO_STEP, Row, Steps, run_rows, says_nothing};
pub use crate::rows::tallies::Tally;
pub use crate::rows::wording::Wording;
pub use crate::rows::words::{number, plain, split, words_of};
