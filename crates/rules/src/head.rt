// What stands before the guard of a rule.
use book::form::Form;

/// The printed number and the forms of a rule.
#[derive(Clone, Copy)]
pub struct Head {
    pub printed: u32,
    pub before: Option<Form>,
    pub predecessor: Form,
    pub behind: Option<Form>,
}
