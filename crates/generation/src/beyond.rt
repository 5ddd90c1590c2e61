// What comes after the modules that are held.
use word::fault::Fault;

/// What comes after the modules that are held: modules that are not read yet, for all that is known; or the end of the word below.
#[derive(Clone, Copy)]
pub enum Beyond {
    Unread,
    End,
    Broken(Fault),
}
