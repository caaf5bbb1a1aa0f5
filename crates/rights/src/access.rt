// What a call is judged by.
use crate::guard::Guard;
use evaluate::{Caller, File};

// Who asks, with the further groups; for which file; and what guards that, with the list that is lent.
#[derive(Clone, Copy)]
pub struct Access<'a, 'g> {
    pub list: &'a [u8],
    pub groups: &'g [u32],
    pub caller: Caller,
    pub file: File,
    pub guard: Guard,
}
