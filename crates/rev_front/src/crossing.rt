//! That a blank, a pen, an author and a pass may go to another thread wherever their entries and their name may.
//! Nothing calls this: it is here to be proved.
use crate::author::Author;
use crate::blanks::Blank;
use crate::entry::Entry;
use crate::front::Front;
use crate::name::LogName;
use crate::pen::Pen;

fn crosses<T: Send>() {}

pub(crate) fn handles_cross<E: Entry + Send, N: LogName + Send>() {
    crosses::<Blank<E>>();
    crosses::<Pen<E, N>>();
    crosses::<Author<N>>();
    crosses::<Front<E, N>>();
}
